//! What is asked of the operands of a line.
ghost use Rattle.std.specs.Prelude.{◌≡◌};
ghost use Rattle.std.specs.List.{list_all, list_any};
ghost use Rattle.std.specs.HashSet.{contains};
ghost use Rattle.std.specs.Str.{bytes_eq};
ghost use Rattle.asm_checks.specs.Faults.{is_index_over, has_index_over, target_labels};
ghost use Rattle.asm_checks.specs.Faults.{used_labels};

use asm_constants::Pool;
use asm_lines::{Line, Operand};
use jx_base::Text;
use std::collections::HashSet;

// Whether the operand's constant has an index above what a byte says.
#[tactic(auto, unfolding(crate::specs::Faults::is_index_over))]
fn is_index_over(pool: &Pool, operand: &Operand) -> bool
    ensures { result ≡ is_index_over pool.now operand.now }
{
    match operand {
        Operand::ByteIndex(content) => pool.index(content) > 255,
        _ => false,
    }
}

fn any_index_over(pool: &Pool, operands: &[Operand]) -> bool
    ensures { result ≡ list_any (is_index_over pool.now) operands.now }
{
    operands.iter().any(|operand| is_index_over(pool, operand))
}

/// Whether a constant of the line has an index above what a byte says.
#[tactic(auto, unfolding(crate::specs::Faults::has_index_over))]
pub fn has_index_over(pool: &Pool, line: &Line) -> bool
    ensures { result ≡ has_index_over pool.now line.now }
{
    match line {
        Line::Instruction(instruction) => any_index_over(pool, instruction.operands.as_slice()),
        _ => false,
    }
}

// Whether the operand's label, if it has one, is among those.
#[tactic(auto, unfolding(crate::specs::Faults::target_labels))]
fn is_among(labels: &HashSet<Text>, operand: &Operand) -> bool
    ensures { result ≡ list_all (contains bytes_eq labels.now) (target_labels operand.now) }
{
    match operand {
        Operand::Target(label) | Operand::FarTarget(label) => labels.contains(label),
        _ => true,
    }
}

fn are_among(labels: &HashSet<Text>, operands: &[Operand]) -> bool
    ensures { result ≡ list_all
        (λ operand. list_all (contains bytes_eq labels.now) (target_labels operand)) operands.now }
{
    operands.iter().all(|operand| is_among(labels, operand))
}

/// Whether all labels that the line uses are among those.
#[tactic(auto, using(crate::proofs::Lists::all_joined), unfolding(crate::specs::Faults::used_labels))]
pub fn uses_only(labels: &HashSet<Text>, line: &Line) -> bool
    ensures { result ≡ list_all (contains bytes_eq labels.now) (used_labels line.now) }
{
    match line {
        Line::Instruction(instruction) => are_among(labels, instruction.operands.as_slice()),
        Line::Catch(catch) => {
            labels.contains(&catch.start)
                && labels.contains(&catch.end)
                && labels.contains(&catch.handler)
        }
        _ => true,
    }
}
