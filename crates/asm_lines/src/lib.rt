//! What the lines of an assembler text mean.
#![tactic(auto)]

mod error;
mod instructions;
mod line;
mod members;
mod operands;
mod parse;
mod switches;
mod words;

pub use line::{AsmKind, Catch, Instruction, Line, Member, Operand};
pub use parse::meanings;
