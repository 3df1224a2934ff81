//! What lines take up of the limits of a class file.
ghost use Rattle.std.specs.Prelude.{◌≡◌, ◌+◌, IfOk, if◌then◌else◌};
ghost use Rattle.asm_checks.specs.Faults.{is_too_much};

use asm_bodies::{line_length, sum};
use asm_lines::Line;
use jx_base::OutOfMemory;

const MOST: usize = 65_535;

/// The pc and the catches of the open body, and the interfaces, fields and members so far.
#[derive(Clone, Copy)]
pub struct Counts {
    pub pc: usize,
    pub catches: usize,
    pub interfaces: usize,
    pub fields: usize,
    pub members: usize,
}

/// One more, where it is counted.
pub fn counted(count: usize, is_one: bool) -> Result<usize, OutOfMemory>
    ensures { IfOk result (λ n. n ≡ count + (if is_one then 1 else 0)) }
{
    sum(count, usize::from(is_one))
}

/// Whether a line behind so many goes past a limit.
#[tactic(auto, unfolding(crate::specs::Faults::is_too_much, asm_bodies::specs::Needs::line_length))]
pub fn is_too_much(counts: Counts, line: &Line) -> Result<bool, OutOfMemory>
    ensures { IfOk result (λ much. much ≡ is_too_much counts line.now) }
{
    match line {
        Line::Implements(_) => Ok(counts.interfaces >= MOST),
        Line::Field(_) => Ok(counts.fields >= MOST),
        Line::Abstract(_) | Line::Method(..) => Ok(counts.members >= MOST),
        Line::Instruction(_) => Ok(sum(counts.pc, line_length(counts.pc, line)?)? > MOST),
        Line::Catch(_) => Ok(counts.catches >= MOST),
        Line::End => Ok(counts.pc == 0),
        Line::Skipped | Line::Class { .. } | Line::Label(_) | Line::Faulty { .. } => Ok(false),
    }
}
