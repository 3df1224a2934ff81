//! The operands of an instruction.
ghost use Rattle.std.specs.Prelude.{◌<◌, ◌≤◌, ◌∷◌, [], ◌^◌, length, IfOk};
ghost use Rattle.std.specs.Int.{w8, w16};
ghost use Rattle.class_grammar.specs.Parts.{done};
ghost use Rattle.class_grammar.specs.CodeGrammar.{interface_operands, array_type_operand};
ghost use Rattle.class_grammar.specs.CodeGrammar.{dimensions_operands, increment_operands};
ghost use Rattle.class_grammar.specs.CodeGrammar.{operands_part};
ghost use Rattle.code_reader.specs.Readings.{IsNoLonger, ReadsNumbers};

use crate::branch_targets::{far_target_at, target_at};
use crate::error::{Front, fault, past_end};
use crate::switches::{lookup, table};
use class_grammar::{bytes_at, u8_at, u16_at};
use jx_base::{CodeKind, Form};
use std::alloc::Global;

/// The operands of a form; `missing` is found at an opcode that the table doesn't have.
#[tactic(auto, unfolding(class_grammar::specs::CodeGrammar::operands_part, class_grammar::specs::CodeGrammar::signed_operand, class_grammar::specs::CodeGrammar::unsigned_operand))]
pub fn operands_of(
    alloc: Global,
    missing: CodeKind,
    form: Form,
    pc: u32,
    bytes: &[u8],
) -> Front<'_, Vec<i32>>
    requires { pc < 2 ^ 31 }
    ensures read { ReadsNumbers (operands_part missing pc form) bytes.now result }
    ensures shorter { IsNoLonger bytes.now result }
{
    match form {
        Form::Plain => Ok((Vec::new(alloc), bytes)),
        Form::SignedByte => {
            let (n, rest) = u8_at(past_end(pc), bytes)?;
            one(alloc, i32::from(n.cast_signed()), rest)
        }
        Form::SignedShort => {
            let (n, rest) = u16_at(past_end(pc), bytes)?;
            one(alloc, i32::from(n.cast_signed()), rest)
        }
        Form::Byte => {
            let (n, rest) = u8_at(past_end(pc), bytes)?;
            one(alloc, i32::from(n), rest)
        }
        Form::Index => {
            let (n, rest) = u16_at(past_end(pc), bytes)?;
            one(alloc, i32::from(n), rest)
        }
        Form::Interface => interface(alloc, pc, bytes),
        Form::ArrayType => array_type(alloc, pc, bytes),
        Form::Dimensions => dimensions(alloc, pc, bytes),
        Form::Increment => increment(alloc, pc, bytes),
        Form::WideIncrement => wide_increment(alloc, pc, bytes),
        Form::Branch => {
            let (target, rest) = target_at(pc, bytes)?;
            one(alloc, target, rest)
        }
        Form::FarBranch => {
            let (target, rest) = far_target_at(pc, bytes)?;
            one(alloc, target, rest)
        }
        Form::TableSwitch => table(alloc, pc, bytes),
        Form::LookupSwitch => lookup(alloc, pc, bytes),
        Form::LeftOut => Err(fault(pc, CodeKind::LeftOut)),
        Form::Wide | Form::Unassigned => Err(fault(pc, missing)),
    }
}

fn one(alloc: Global, operand: i32, rest: &[u8]) -> Front<'_, Vec<i32>>
    ensures read { ReadsNumbers (done (operand ∷ [])) rest.now result }
    ensures shorter { IsNoLonger rest.now result }
{
    Ok((Vec::from_slice(alloc, &[operand])?, rest))
}

#[tactic(auto, unfolding(class_grammar::specs::CodeGrammar::interface_operands))]
fn interface(alloc: Global, pc: u32, bytes: &[u8]) -> Front<'_, Vec<i32>>
    ensures read { ReadsNumbers (interface_operands pc) bytes.now result }
    ensures shorter { IsNoLonger bytes.now result }
{
    let (index, rest) = u16_at(past_end(pc), bytes)?;
    let (_, rest) = bytes_at(past_end(pc), 2, rest)?;
    one(alloc, i32::from(index), rest)
}

#[tactic(auto, unfolding(class_grammar::specs::CodeGrammar::array_type_operand))]
fn array_type(alloc: Global, pc: u32, bytes: &[u8]) -> Front<'_, Vec<i32>>
    ensures read { ReadsNumbers (array_type_operand pc) bytes.now result }
    ensures shorter { IsNoLonger bytes.now result }
{
    let (number, rest) = u8_at(past_end(pc), bytes)?;
    if number < 4 || number > 11 {
        return Err(fault(pc, CodeKind::Opcode));
    }
    if number == 6 || number == 7 {
        return Err(fault(pc, CodeKind::LeftOut));
    }
    one(alloc, i32::from(number), rest)
}

#[tactic(auto, unfolding(class_grammar::specs::CodeGrammar::dimensions_operands))]
fn dimensions(alloc: Global, pc: u32, bytes: &[u8]) -> Front<'_, Vec<i32>>
    ensures read { ReadsNumbers (dimensions_operands pc) bytes.now result }
    ensures shorter { IsNoLonger bytes.now result }
{
    let (index, rest) = u16_at(past_end(pc), bytes)?;
    let (count, rest) = u8_at(past_end(pc), rest)?;
    if count == 0 {
        return Err(fault(pc, CodeKind::Opcode));
    }
    two(alloc, i32::from(index), i32::from(count), rest)
}

#[tactic(auto, unfolding(class_grammar::specs::CodeGrammar::increment_operands))]
fn increment(alloc: Global, pc: u32, bytes: &[u8]) -> Front<'_, Vec<i32>>
    ensures read { ReadsNumbers (increment_operands w8 pc) bytes.now result }
    ensures shorter { IsNoLonger bytes.now result }
{
    let (local, rest) = u8_at(past_end(pc), bytes)?;
    let (by, rest) = u8_at(past_end(pc), rest)?;
    two(alloc, i32::from(local), i32::from(by.cast_signed()), rest)
}

#[tactic(auto, unfolding(class_grammar::specs::CodeGrammar::increment_operands))]
fn wide_increment(alloc: Global, pc: u32, bytes: &[u8]) -> Front<'_, Vec<i32>>
    ensures read { ReadsNumbers (increment_operands w16 pc) bytes.now result }
    ensures shorter { IsNoLonger bytes.now result }
{
    let (local, rest) = u16_at(past_end(pc), bytes)?;
    let (by, rest) = u16_at(past_end(pc), rest)?;
    two(alloc, i32::from(local), i32::from(by.cast_signed()), rest)
}

fn two(alloc: Global, first: i32, second: i32, rest: &[u8]) -> Front<'_, Vec<i32>>
    ensures read { ReadsNumbers (done (first ∷ second ∷ [])) rest.now result }
    ensures shorter { IsNoLonger rest.now result }
{
    Ok((Vec::from_slice(alloc, &[first, second])?, rest))
}
