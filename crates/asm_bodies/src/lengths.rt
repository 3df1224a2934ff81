//! The lengths of instructions.
ghost use Rattle.std.specs.Prelude.{◌≡◌, ◌+◌, IfOk};
ghost use Rattle.asm_bodies.specs.Needs.{line_length, opcode_length, operand_length};
ghost use Rattle.asm_bodies.specs.Needs.{instruction_length};

use asm_lines::{Instruction, Line, Operand};
use jx_base::OutOfMemory;
use std::alloc::AllocError;

// The bytes of an operand of the instruction at `pc`.
#[tactic(auto, unfolding(crate::specs::Needs::operand_length, class_grammar::specs::CodeGrammar::padding_length))]
fn operand_length(pc: usize, operand: &Operand) -> usize
    ensures { result ≡ operand_length pc operand.now }
{
    match operand {
        Operand::Byte(_) | Operand::ByteIndex(_) => 1,
        Operand::Short(_) | Operand::Index(_) | Operand::Target(_) => 2,
        Operand::Int(_) | Operand::FarTarget(_) => 4,
        Operand::Padding => 3 - pc % 4,
    }
}

// The bytes of an opcode, with wide in front of it where it is a wide one.
#[tactic(auto, unfolding(crate::specs::Needs::opcode_length))]
fn opcode_length(wide: bool) -> usize
    ensures { result ≡ opcode_length wide }
{
    if wide { 2 } else { 1 }
}

/// The sum of two lengths. Bytes that can't be counted have no room in memory.
pub fn sum(length: usize, more: usize) -> Result<usize, OutOfMemory>
    ensures { IfOk result (λ n. n ≡ length + more) }
{
    match length.checked_add(more) {
        Some(sum) => Ok(sum),
        None => Err(AllocError),
    }
}

// The bytes of an instruction at `pc`.
fn instruction_length(pc: usize, instruction: &Instruction) -> Result<usize, OutOfMemory>
    ensures { IfOk result (λ n. n ≡ instruction_length pc instruction.now) }
{
    let mut length = opcode_length(instruction.wide);
    for operand in instruction.operands.as_slice() {
        length = sum(length, operand_length(pc, operand))?;
    }
    Ok(length)
}

/// The bytes of code that a line says at `pc`.
#[tactic(auto, unfolding(crate::specs::Needs::line_length))]
pub fn line_length(pc: usize, line: &Line) -> Result<usize, OutOfMemory>
    ensures { IfOk result (λ n. n ≡ line_length pc line.now) }
{
    match line {
        Line::Instruction(instruction) => instruction_length(pc, instruction),
        _ => Ok(0),
    }
}
