//! Targets at the front of bytes.
ghost use Rattle.std.specs.Prelude.{◌≡◌, ◌<◌, ◌∷◌, [], ◌^◌, pos, ◌+ℤ◌};
ghost use Rattle.std.specs.Int.{w16, w32, int_wrap};
ghost use Rattle.class_grammar.specs.CodeGrammar.{target_operand};
ghost use Rattle.code_reader.specs.Readings.{IsNoLonger};
ghost use Rattle.jx_base.specs.Answers.{Gives};

use crate::error::{Front, past_end};
use class_grammar::{u16_at, u32_at};

// The place of a target, which counts from the instruction.
#[tactic(auto, using(std::proofs::lemmas::Int::wraps))]
fn target_from(pc: u32, offset: i32) -> i32
    requires { pc < 2 ^ 31 }
    ensures { result ≡ int_wrap w32 (pos pc +ℤ offset) }
{
    (pc as i32).wrapping_add(offset)
}

/// A target of two bytes.
#[tactic(auto, unfolding(class_grammar::specs::CodeGrammar::target_operand))]
pub fn target_at(pc: u32, bytes: &[u8]) -> Front<'_, i32>
    requires { pc < 2 ^ 31 }
    ensures read { Gives (λ x. (x.0 ∷ [], x.1.now)) result
        ((target_operand w16 pc).reads bytes.now) }
    ensures shorter { IsNoLonger bytes.now result }
{
    let (offset, rest) = u16_at(past_end(pc), bytes)?;
    Ok((target_from(pc, i32::from(offset.cast_signed())), rest))
}

/// A target of four bytes.
#[tactic(auto, unfolding(class_grammar::specs::CodeGrammar::target_operand))]
pub fn far_target_at(pc: u32, bytes: &[u8]) -> Front<'_, i32>
    requires { pc < 2 ^ 31 }
    ensures read { Gives (λ x. (x.0 ∷ [], x.1.now)) result
        ((target_operand w32 pc).reads bytes.now) }
    ensures shorter { IsNoLonger bytes.now result }
{
    let (offset, rest) = u32_at(past_end(pc), bytes)?;
    Ok((target_from(pc, offset.cast_signed()), rest))
}
