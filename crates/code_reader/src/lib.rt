//! Reads the instructions of a method's code (JVMS 4.7.3, 4.9.1, 6.5), or names its first fault.
#![tactic(auto)]

mod branch_targets;
mod error;
mod instructions;
mod laws;
mod operands;
mod read;
mod switches;
mod targets;

pub use error::CodeError;
pub use jx_base::{CodeFault, CodeKind};
pub use laws::one_reading;
pub use read::read_code;
