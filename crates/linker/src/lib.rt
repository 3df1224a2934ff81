//! The linker: from a plan and class files to a linked system, or to the first fault.
#![tactic(auto)]

mod bodies;
mod error;
mod linking;

pub use bodies::{read_body, with_bodies};
pub use error::LinkError;
pub use linking::{link, link_read};
