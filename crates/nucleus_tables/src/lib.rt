//! The history of a run with the tables that are kept beside it, what they say of what may come, and
//! what a step answers.
#![tactic(auto)]

mod choices;
mod opening;
mod permitting;
mod places;
mod putting;
mod reading;
mod step;
mod tables;

pub use places::{CallPlaces, Places};
pub use step::{Ending, Step};
pub use tables::Tables;
