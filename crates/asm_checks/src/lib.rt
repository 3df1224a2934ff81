//! Checks the lines of an assembler text: where each may stand, its labels, and the limits of a
//! class file.
#![tactic(auto)]

mod body;
mod counts;
mod follows;
mod needs;
mod operands;
mod survey;

pub use survey::{Checked, check};
