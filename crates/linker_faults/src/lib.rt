//! The first two walks of linking, over the templates of a plan.
#![tactic(auto)]

mod ascii;
mod class_faults;
mod early;
mod faults;
mod hierarchy;
mod listing;
mod main_method;
mod relations;
mod repeats;
mod walks;

pub use early::{EarlyFault, first_early_fault};
pub use repeats::Repeats;
pub use walks::{first_class_fault, main_class_fault};
