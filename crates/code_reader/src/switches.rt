//! The operands of tableswitch and lookupswitch.
ghost use Rattle.std.specs.Prelude.{◌≡◌, ◌<◌, ◌≤◌, ◌≤ℤ◌, ◌-ℤ◌, ◌+◌, ◌∷◌, [], ◌^◌, length, IfOk};
ghost use Rattle.std.specs.Prelude.{unsigned_abs, int_lt};
ghost use Rattle.std.specs.Int.{w32};
ghost use Rattle.class_grammar.specs.Parts.{repeated};
ghost use Rattle.class_grammar.specs.CodeGrammar.{target_operand, key_operands, keys_rise};
ghost use Rattle.class_grammar.specs.CodeGrammar.{table_operands, lookup_operands, padding_length};
ghost use Rattle.code_reader.specs.Readings.{AddsNumbers, IsNoLonger, ReadsNumbers};
ghost use Rattle.jx_base.specs.Answers.{Gives};

use crate::branch_targets::far_target_at;
use crate::error::{Front, fault, past_end};
use crate::targets::number_at;
use class_grammar::{bytes_at, u32_at};
use jx_base::CodeKind;
use std::alloc::Global;

/// The operands of tableswitch.
#[tactic(auto, unfolding(class_grammar::specs::CodeGrammar::table_operands))]
pub fn table(alloc: Global, pc: u32, bytes: &[u8]) -> Front<'_, Vec<i32>>
    requires { pc < 2 ^ 31 }
    ensures read { ReadsNumbers (table_operands pc) bytes.now result }
    ensures shorter { IsNoLonger bytes.now result }
{
    let (_, rest) = bytes_at(past_end(pc), padding(pc), bytes)?;
    let (default, rest) = far_target_at(pc, rest)?;
    let (low, rest) = u32_at(past_end(pc), rest)?;
    let (high, rest) = u32_at(past_end(pc), rest)?;
    let low = low.cast_signed();
    let high = high.cast_signed();
    if low > high {
        return Err(fault(pc, CodeKind::BadRange));
    }
    let operands = Vec::from_slice(alloc, &[default, low, high])?;
    with_targets(operands, span(low, high), pc, rest)
}

// The bytes up to the next multiple of 4 in the code.
#[tactic(auto, unfolding(class_grammar::specs::CodeGrammar::padding_length))]
fn padding(pc: u32) -> usize
    ensures { result ≡ padding_length pc }
{
    3 - pc as usize % 4
}

// How many keys lie from the lowest to the highest.
fn span(low: i32, high: i32) -> u64
    requires { low ≤ℤ high }
    ensures { result ≡ unsigned_abs (high -ℤ low) + 1 }
{
    (i64::from(high) - i64::from(low)) as u64 + 1
}

// The operands, and so many targets behind them.
fn with_targets(mut operands: Vec<i32>, count: u64, pc: u32, bytes: &[u8]) -> Front<'_, Vec<i32>>
    requires { pc < 2 ^ 31 }
    ensures read { AddsNumbers operands.items
        (repeated count (target_operand w32 pc)) bytes.now result }
    ensures shorter { IsNoLonger bytes.now result }
{
    let mut rest = bytes;
    for _ in 0..count {
        let (target, after) = far_target_at(pc, rest)?;
        operands.push(target)?;
        rest = after;
    }
    Ok((operands, rest))
}

/// The operands of lookupswitch.
#[tactic(auto, unfolding(class_grammar::specs::CodeGrammar::lookup_operands))]
pub fn lookup(alloc: Global, pc: u32, bytes: &[u8]) -> Front<'_, Vec<i32>>
    requires { pc < 2 ^ 31 }
    ensures read { ReadsNumbers (lookup_operands pc) bytes.now result }
    ensures shorter { IsNoLonger bytes.now result }
{
    let (_, rest) = bytes_at(past_end(pc), padding(pc), bytes)?;
    let (default, rest) = far_target_at(pc, rest)?;
    let (count, rest) = u32_at(past_end(pc), rest)?;
    let count = count.cast_signed();
    if count < 0 {
        return Err(fault(pc, CodeKind::BadRange));
    }
    let operands = Vec::from_slice(alloc, &[default, count])?;
    let (operands, rest) = with_keys(operands, count.unsigned_abs(), pc, rest)?;
    if !rises(&operands[2..]) {
        return Err(fault(pc, CodeKind::BadRange));
    }
    Ok((operands, rest))
}

// The operands, and so many keys behind them, each with its target.
fn with_keys(mut operands: Vec<i32>, count: u32, pc: u32, bytes: &[u8]) -> Front<'_, Vec<i32>>
    requires { pc < 2 ^ 31 }
    ensures read { AddsNumbers operands.items (repeated count (key_operands pc)) bytes.now result }
    ensures shorter { IsNoLonger bytes.now result }
{
    let mut rest = bytes;
    for _ in 0..count {
        let ((key, target), after) = key_at(pc, rest)?;
        operands.extend_from_slice(&[key, target])?;
        rest = after;
    }
    Ok((operands, rest))
}

// A key, and its target.
#[tactic(auto, unfolding(class_grammar::specs::CodeGrammar::key_operands, class_grammar::specs::CodeGrammar::signed_operand))]
fn key_at(pc: u32, bytes: &[u8]) -> Front<'_, (i32, i32)>
    requires { pc < 2 ^ 31 }
    ensures read { Gives (λ x. (x.0.0 ∷ x.0.1 ∷ [], x.1.now)) result
        ((key_operands pc).reads bytes.now) }
    ensures shorter { IsNoLonger bytes.now result }
{
    let (key, rest) = u32_at(past_end(pc), bytes)?;
    let (target, rest) = far_target_at(pc, rest)?;
    Ok(((key.cast_signed(), target), rest))
}

// Whether each key is above the one before it.
#[tactic(auto, using(crate::proofs::Rises::rises))]
fn rises(pairs: &[i32]) -> bool
    ensures { result ≡ keys_rise pairs.now }
{
    let mut i = 0;
    while i < pairs.len() && pairs.len() - i > 2 {
        if !is_below(number_at(pairs, i), number_at(pairs, i + 2)) {
            return false;
        }
        i += 2;
    }
    true
}

fn is_below(a: i32, b: i32) -> bool
    ensures { result ≡ int_lt a b }
{
    a < b
}
