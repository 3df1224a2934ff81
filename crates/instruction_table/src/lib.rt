//! The table of opcodes: of each one its mnemonic, how its operands lie behind it, and what it does
//! (JVMS 6).
#![tactic(auto)]

mod forms;
mod opcodes;

pub use forms::{form_of, row_of, wide_form_of};
pub use opcodes::{Opcode, opcode_of};
