//! Assembles class files (JVMS 4) from a text, or names its first faulty line (docs/assembler.md).
#![tactic(auto)]

mod assembler;
mod fault;

pub use asm_lines::AsmKind;
pub use assembler::assemble;
pub use fault::{AsmError, AsmFault};
