//! The code of bodies.
ghost use Rattle.std.specs.Prelude.{◌≡◌, ◌++◌, replicate, flat_map, OnOk, IfOk};
ghost use Rattle.class_grammar.specs.CodeGrammar.{padding_length};
ghost use Rattle.asm_bytes.specs.Files.{pc_of, distance, operand_bytes, opcode_bytes};
ghost use Rattle.asm_bytes.specs.Files.{instruction_bytes, line_bytes, code_from};

use crate::numbers::{push_four, push_two};
use asm_bodies::{Marks, line_length, sum};
use asm_constants::Pool;
use asm_lines::{Instruction, Line, Operand};
use jx_base::{OutOfMemory, Text};
use std::alloc::Global;

const WIDE: u8 = 0xc4;

const ZEROS: [u8; 3] = [0; 3];

/// The pc of a label, and 0 where it isn't there.
#[tactic(auto, unfolding(crate::specs::Files::pc_of))]
pub fn pc_of(marks: &Marks, label: &Text) -> usize
    ensures { result ≡ pc_of marks.now label.now }
{
    marks.pc_of(label).unwrap_or(0)
}

// The distance from one pc to another, in two's complement.
#[tactic(auto, unfolding(crate::specs::Files::distance))]
fn distance(pc: usize, to: usize) -> usize
    ensures { result ≡ distance pc to }
{
    to.wrapping_sub(pc)
}

// Zeros up to the next pc that is a multiple of 4.
fn push_padding(bytes: &mut Vec<u8>, pc: usize) -> Result<(), OutOfMemory>
    ensures { OnOk result (bytes.new.items ≡ bytes.old.items ++ replicate (padding_length pc) 0) }
{
    bytes.extend_from_slice(&ZEROS[pc % 4..])
}

// An operand of the instruction at `pc`.
#[tactic(auto, unfolding(crate::specs::Files::operand_bytes))]
fn push_operand(
    bytes: &mut Vec<u8>,
    pool: &Pool,
    marks: &Marks,
    pc: usize,
    operand: &Operand,
) -> Result<(), OutOfMemory>
    ensures { OnOk result (bytes.new.items
        ≡ bytes.old.items ++ operand_bytes pool.now marks.now pc operand.now) }
{
    match operand {
        Operand::Byte(number) => bytes.extend_from_slice(&[*number]),
        Operand::Short(number) => push_two(bytes, usize::from(*number)),
        Operand::Int(number) => bytes.extend_from_slice(&number.to_be_bytes()),
        Operand::ByteIndex(content) => {
            bytes.extend_from_slice(&[(pool.index(content) % 256) as u8])
        }
        Operand::Index(content) => push_two(bytes, pool.index(content)),
        Operand::Target(label) => push_two(bytes, distance(pc, pc_of(marks, label))),
        Operand::FarTarget(label) => push_four(bytes, distance(pc, pc_of(marks, label))),
        Operand::Padding => push_padding(bytes, pc),
    }
}

fn push_operands(
    bytes: &mut Vec<u8>,
    pool: &Pool,
    marks: &Marks,
    pc: usize,
    operands: &[Operand],
) -> Result<(), OutOfMemory>
    ensures { OnOk result (bytes.new.items
        ≡ bytes.old.items ++ flat_map (operand_bytes pool.now marks.now pc) operands.now) }
{
    for operand in operands {
        push_operand(bytes, pool, marks, pc, operand)?;
    }
    Ok(())
}

#[tactic(auto, unfolding(crate::specs::Files::opcode_bytes))]
fn push_opcode(bytes: &mut Vec<u8>, instruction: &Instruction) -> Result<(), OutOfMemory>
    ensures { OnOk result (bytes.new.items ≡ bytes.old.items ++ opcode_bytes instruction.now) }
{
    if instruction.wide {
        bytes.extend_from_slice(&[WIDE, instruction.opcode])
    } else {
        bytes.extend_from_slice(&[instruction.opcode])
    }
}

fn push_instruction(
    bytes: &mut Vec<u8>,
    pool: &Pool,
    marks: &Marks,
    pc: usize,
    instruction: &Instruction,
) -> Result<(), OutOfMemory>
    ensures { OnOk result (bytes.new.items
        ≡ bytes.old.items ++ instruction_bytes pool.now marks.now pc instruction.now) }
{
    push_opcode(bytes, instruction)?;
    push_operands(bytes, pool, marks, pc, instruction.operands.as_slice())
}

// The code that the line at `pc` says.
#[tactic(auto, unfolding(crate::specs::Files::line_bytes))]
fn push_line(
    bytes: &mut Vec<u8>,
    pool: &Pool,
    marks: &Marks,
    pc: usize,
    line: &Line,
) -> Result<(), OutOfMemory>
    ensures { OnOk result (bytes.new.items
        ≡ bytes.old.items ++ line_bytes pool.now marks.now pc line.now) }
{
    match line {
        Line::Instruction(instruction) => push_instruction(bytes, pool, marks, pc, instruction),
        _ => Ok(()),
    }
}

/// The code of a body with those labels.
pub fn code_of(
    alloc: Global,
    pool: &Pool,
    marks: &Marks,
    body: &[Line],
) -> Result<Vec<u8>, OutOfMemory>
    ensures { IfOk result (λ bytes. bytes.items ≡ code_from pool.now marks.now 0 body.now) }
{
    let mut bytes = Vec::new(alloc);
    let mut pc = 0;
    for line in body {
        push_line(&mut bytes, pool, marks, pc, line)?;
        pc = sum(pc, line_length(pc, line)?)?;
    }
    Ok(bytes)
}
