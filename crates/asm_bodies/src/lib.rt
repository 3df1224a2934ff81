//! The bodies of methods in an assembler text: lengths of instructions, labels and distances.
#![tactic(auto)]

mod distances;
mod lengths;
mod marks;

pub use distances::first_far;
pub use lengths::{line_length, sum};
pub use marks::{Marks, body_of, marks_of};
