//! Laws of the assembler.
#![tactic(auto)]

mod laws;

pub use laws::assembled_classes;
