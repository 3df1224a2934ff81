//! Branches that are too far from their labels.
ghost use Rattle.std.specs.Prelude.{◌≡◌, ◌<◌, length, IfOk, IfSome};
ghost use Rattle.std.specs.List.{list_any};
ghost use Rattle.asm_bodies.specs.Bodies.{is_near, is_far_operand, is_far, first_far_from};
ghost use Rattle.asm_bodies.specs.Bodies.{first_far_in, first_far};
ghost use Rattle.asm_bodies.specs.Lines.{is_method};

use crate::lengths::{line_length, sum};
use crate::marks::{Marks, body_of, marks_of};
use asm_lines::{Line, Operand};
use jx_base::OutOfMemory;
use std::alloc::Global;

// Whether two bytes say the distance from the instruction at `pc`.
#[tactic(auto, unfolding(crate::specs::Bodies::is_near))]
fn is_near(pc: usize, to: usize) -> bool
    ensures { result ≡ is_near pc to }
{
    if to < pc {
        pc - to <= 32_768
    } else {
        to - pc <= 32_767
    }
}

#[tactic(auto, unfolding(crate::specs::Bodies::is_far_operand))]
fn is_far_operand(marks: &Marks, pc: usize, operand: &Operand) -> bool
    ensures { result ≡ is_far_operand marks.now pc operand.now }
{
    match operand {
        Operand::Target(label) => match marks.pc_of(label) {
            Some(to) => !is_near(pc, to),
            None => false,
        },
        _ => false,
    }
}

fn has_far_operand(marks: &Marks, pc: usize, operands: &[Operand]) -> bool
    ensures { result ≡ list_any (is_far_operand marks.now pc) operands.now }
{
    operands
        .iter()
        .any(|operand| is_far_operand(marks, pc, operand))
}

// Whether a label is too far from the line at `pc`.
#[tactic(auto, unfolding(crate::specs::Bodies::is_far))]
fn is_far(marks: &Marks, pc: usize, line: &Line) -> bool
    ensures { result ≡ is_far marks.now pc line.now }
{
    match line {
        Line::Instruction(instruction) => {
            has_far_operand(marks, pc, instruction.operands.as_slice())
        }
        _ => false,
    }
}

// The place of the first line of a body with those labels that is too far from one of them.
fn first_far_from(marks: &Marks, body: &[Line]) -> Result<Option<usize>, OutOfMemory>
    ensures place { IfOk result (λ place. place ≡ first_far_from marks.now 0 body.now) }
    ensures within { IfOk result (λ place. IfSome place (λ i. i < length body.now)) }
{
    let mut pc = 0;
    for (i, line) in body.iter().enumerate() {
        if is_far(marks, pc, line) {
            return Ok(Some(i));
        }
        pc = sum(pc, line_length(pc, line)?)?;
    }
    Ok(None)
}

// The place of the first line of a body that is too far from one of its labels.
fn first_far_in(alloc: Global, body: &[Line]) -> Result<Option<usize>, OutOfMemory>
    ensures place { IfOk result (λ place. place ≡ first_far_in body.now) }
    ensures within { IfOk result (λ place. IfSome place (λ i. i < length body.now)) }
{
    first_far_from(&marks_of(alloc, body)?, body)
}

#[tactic(auto, unfolding(crate::specs::Lines::is_method))]
fn is_method(line: &Line) -> bool
    ensures { result ≡ is_method line.now }
{
    matches!(line, Line::Method(..))
}

/// The place of the first line that is too far from a label of its body.
pub fn first_far(alloc: Global, lines: &[Line]) -> Result<Option<usize>, OutOfMemory>
    ensures { IfOk result (λ place. place ≡ first_far lines.now) }
{
    for (i, line) in lines.iter().enumerate() {
        if is_method(line) {
            let behind = i + 1;
            if let Some(place) = first_far_in(alloc, body_of(&lines[behind..]))? {
                return Ok(Some(behind + place));
            }
        }
    }
    Ok(None)
}
