//! What assembling answers, in a form that can be compared, and texts that are put together.

use class_asm::{AsmError, AsmKind, assemble};
use jx_base::OutOfMemory;
use std::alloc::Global;

/// The line of the first fault, and the number of its kind; none where the text is assembled, and
/// line 0 where there is no answer.
pub type Told = Option<(u32, u8)>;

fn number_of(kind: AsmKind) -> u8 {
    match kind {
        AsmKind::Word => 1,
        AsmKind::Operand => 2,
        AsmKind::Label => 3,
        AsmKind::Twice => 4,
        AsmKind::Place => 5,
        AsmKind::Limit => 6,
    }
}

pub fn told(alloc: Global, text: &[u8]) -> Told {
    if text.len() > 1 << 31 {
        return Some((0, 0));
    }
    match assemble(alloc, text) {
        Ok(_) => None,
        Err(AsmError::Bad(fault)) => Some((fault.line, number_of(fault.kind))),
        Err(AsmError::OutOfMemory) => Some((0, 0)),
    }
}

/// The bytes of a text, where it is assembled.
pub fn assembled(alloc: Global, text: &[u8]) -> Option<Vec<u8>> {
    if text.len() > 1 << 31 {
        return None;
    }
    match assemble(alloc, text) {
        Ok(bytes) => Some(bytes),
        Err(_) => None,
    }
}

pub fn push(text: &mut Vec<u8>, more: &[u8]) -> Result<(), OutOfMemory> {
    text.extend_from_slice(more)
}

/// Puts a line at the end so many times.
pub fn push_times(text: &mut Vec<u8>, line: &[u8], times: u32) -> Result<(), OutOfMemory> {
    for _ in 0..times {
        push(text, line)?;
    }
    Ok(())
}

/// A class with one method of that body.
pub fn with_body(alloc: Global, body: &[u8]) -> Result<Vec<u8>, OutOfMemory> {
    let mut text = Vec::new(alloc);
    push(&mut text, b"class 0x0021 T java/lang/Object\n")?;
    push(&mut text, b"method 0x0009 m ()V 9 9\n")?;
    push(&mut text, body)?;
    push(&mut text, b"end\n")?;
    Ok(text)
}
