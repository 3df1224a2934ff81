//! The faults of an assembler text.

use asm_lines::AsmKind;
use jx_base::Error;

/// The first faulty line, counted from 1, and its fault. Where the text ends too early, it is the
/// line behind the last one.
#[derive(Clone, Copy)]
pub struct AsmFault {
    pub line: u32,
    pub kind: AsmKind,
}

/// Why a text isn't assembled: it has a fault, or memory was refused.
pub type AsmError = Error<AsmFault>;
