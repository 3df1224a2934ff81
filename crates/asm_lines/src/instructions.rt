//! Lines that are instructions.
ghost use Rattle.std.specs.Prelude.{◌≡◌, false};
ghost use Rattle.class_grammar.specs.Opcodes.{form_at, row_at};
ghost use Rattle.asm_lines.specs.Operands.{operands_of};
ghost use Rattle.asm_lines.specs.Lines.{opcode_named, with_operands, wide_instruction};
ghost use Rattle.asm_lines.specs.Readings.{Tells, texts};

use crate::error::{LineError, Malformed};
use crate::line::{Instruction, Line};
use crate::operands::operands_of;
use asm_words::is_text;
use instruction_table::{form_of, opcode_of, row_of, wide_form_of};
use jx_base::{Form, Listed};
use std::alloc::Global;

/// The number of the opcode of that mnemonic.
pub fn opcode_named(word: &[u16]) -> Option<u8>
    ensures { result ≡ opcode_named word.now }
{
    if word.is_empty() {
        return None;
    }
    for number in 0..202 {
        if is_text(word, opcode_of(number).mnemonic) {
            return Some(number);
        }
    }
    None
}

// The instruction of that opcode with the operands of that form that words say.
#[tactic(auto, unfolding(crate::specs::Lines::with_operands))]
fn with_operands(
    alloc: Global,
    opcode: u8,
    wide: bool,
    form: Form,
    words: &[&[u16]],
) -> Result<Line, LineError>
    ensures { Tells (λ line. line) result
        (with_operands opcode wide (operands_of form (row_at opcode) (texts words.now))) }
{
    let operands = operands_of(alloc, form, row_of(opcode), words)?;
    Ok(Line::Instruction(Instruction {
        opcode,
        wide,
        operands: Listed::from_vec(operands),
    }))
}

/// The instruction of that opcode with the operands that words say.
pub fn instruction(alloc: Global, opcode: u8, words: &[&[u16]]) -> Result<Line, LineError>
    ensures { Tells (λ line. line) result
        (with_operands opcode false
        (operands_of (form_at opcode) (row_at opcode) (texts words.now))) }
{
    with_operands(alloc, opcode, false, form_of(opcode), words)
}

/// What stands behind the word wide.
#[tactic(auto, unfolding(crate::specs::Lines::wide_instruction))]
pub fn wide_instruction(alloc: Global, words: &[&[u16]]) -> Result<Line, LineError>
    ensures { Tells (λ line. line) result (wide_instruction (texts words.now)) }
{
    match words {
        [word, words @ ..] => match opcode_named(word) {
            Some(opcode) => with_operands(alloc, opcode, true, wide_form_of(opcode), words),
            None => Err(LineError::Bad(Malformed)),
        },
        _ => Err(LineError::Bad(Malformed)),
    }
}
