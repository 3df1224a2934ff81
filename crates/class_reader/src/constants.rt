//! One constant (JVMS 4.4).
ghost use Rattle.std.specs.Prelude.{◌≡◌, ◌≤◌, ◌<◌, ◌^◌, ◌+◌, length, IfOk};
ghost use Rattle.jx_base.specs.Answers.{Gives};
ghost use Rattle.class_grammar.specs.Constants.{tag_of, index_pair, utf8_body, skipped_body};
ghost use Rattle.class_grammar.specs.Constants.{constant_body, constant_part, constant_length};
ghost use Rattle.class_grammar.specs.Constants.{is_double_width, skipped_length};

use crate::error::{ReadFault, bad, cut_off};
use class_grammar::{bytes_at, place, u8_at, u16_at, u32_at, u64_at};
use class_texts::{utf8_length, utf8_read};
use jx_base::{ClassKind, Constant, ConstantTag};
use std::alloc::Global;

// By number, from 0 on.
static TAGS: [Option<ConstantTag>; 19] = [
    None,
    Some(ConstantTag::Utf8),
    None,
    Some(ConstantTag::Integer),
    Some(ConstantTag::Float),
    Some(ConstantTag::Long),
    Some(ConstantTag::Double),
    Some(ConstantTag::Class),
    Some(ConstantTag::Str),
    Some(ConstantTag::Field),
    Some(ConstantTag::Method),
    Some(ConstantTag::InterfaceMethod),
    Some(ConstantTag::NameAndType),
    None,
    None,
    Some(ConstantTag::MethodHandle),
    Some(ConstantTag::MethodType),
    None,
    Some(ConstantTag::InvokeDynamic),
];

#[tactic(auto, unfolding(class_grammar::specs::Constants::tag_of, class_grammar::specs::Constants::constant_tags))]
fn tag_numbered(number: u8) -> Option<ConstantTag>
    ensures { result ≡ tag_of number }
{
    match TAGS.get(number as usize) {
        Some(tag) => *tag,
        None => None,
    }
}

#[tactic(auto, unfolding(class_grammar::specs::Constants::index_pair))]
fn index_pair_at(size: u32, bytes: &[u8]) -> Result<(u16, u16, &[u8]), ReadFault>
    ensures read { Gives (λ x. ((x.0, x.1), x.2.now)) result ((index_pair size).reads bytes.now) }
    ensures long { IfOk result (λ x. length bytes.now ≡ 4 + length x.2.now) }
{
    let (first, rest) = u16_at(cut_off(size), bytes)?;
    let (second, rest) = u16_at(cut_off(size), rest)?;
    Ok((first, second, rest))
}

#[tactic(auto, unfolding(class_grammar::specs::Constants::utf8_body, class_grammar::specs::Constants::constant_length))]
fn utf8_at(alloc: Global, size: u32, at: u32, bytes: &[u8]) -> Result<(Constant, &[u8]), ReadFault>
    ensures read { Gives (λ x. (x.0, x.1.now)) result ((utf8_body size at).reads bytes.now) }
    ensures long { IfOk result (λ x. 1 + length bytes.now ≡ constant_length x.0 + length x.1.now) }
{
    let (n, rest) = u16_at(cut_off(size), bytes)?;
    let (bytes, rest) = bytes_at(cut_off(size), n as usize, rest)?;
    match utf8_read(alloc, bytes)? {
        Some(text) => Ok((Constant::Utf8(text), rest)),
        None => Err(bad(at, ClassKind::Utf8)),
    }
}

#[tactic(auto, unfolding(class_grammar::specs::Constants::skipped_body))]
fn skipped_at(size: u32, number: u8, n: usize, bytes: &[u8]) -> Result<(Constant, &[u8]), ReadFault>
    ensures read { Gives (λ x. (x.0, x.1.now)) result
        ((skipped_body size number n).reads bytes.now) }
    ensures long { IfOk result (λ x. length bytes.now ≡ n + length x.1.now) }
    ensures skipped { IfOk result (λ x. x.0 ≡ Constant.Skipped number) }
{
    let (_, rest) = bytes_at(cut_off(size), n, bytes)?;
    Ok((Constant::Skipped(number), rest))
}

// What stands behind a tag, which is at a place.
#[tactic(auto, unfolding(class_grammar::specs::Constants::constant_body, class_grammar::specs::Constants::constant_length, class_grammar::specs::Constants::skipped_length))]
fn body_at(
    alloc: Global,
    size: u32,
    at: u32,
    tag: ConstantTag,
    bytes: &[u8],
) -> Result<(Constant, &[u8]), ReadFault>
    ensures read { Gives (λ x. (x.0, x.1.now)) result
        ((constant_body size at tag).reads bytes.now) }
    ensures long { IfOk result (λ x. 1 + length bytes.now ≡ constant_length x.0 + length x.1.now) }
{
    match tag {
        ConstantTag::Utf8 => utf8_at(alloc, size, at, bytes),
        ConstantTag::Integer => {
            let (n, rest) = u32_at(cut_off(size), bytes)?;
            Ok((Constant::Integer(n.cast_signed()), rest))
        }
        ConstantTag::Float => skipped_at(size, 4, 4, bytes),
        ConstantTag::Long => {
            let (n, rest) = u64_at(cut_off(size), bytes)?;
            Ok((Constant::Long(n.cast_signed()), rest))
        }
        ConstantTag::Double => skipped_at(size, 6, 8, bytes),
        ConstantTag::Class => {
            let (n, rest) = u16_at(cut_off(size), bytes)?;
            Ok((Constant::Class(n), rest))
        }
        ConstantTag::Str => {
            let (n, rest) = u16_at(cut_off(size), bytes)?;
            Ok((Constant::Str(n), rest))
        }
        ConstantTag::Field => {
            let (class, member, rest) = index_pair_at(size, bytes)?;
            Ok((Constant::Field(class, member), rest))
        }
        ConstantTag::Method => {
            let (class, member, rest) = index_pair_at(size, bytes)?;
            Ok((Constant::Method(class, member), rest))
        }
        ConstantTag::InterfaceMethod => {
            let (class, member, rest) = index_pair_at(size, bytes)?;
            Ok((Constant::InterfaceMethod(class, member), rest))
        }
        ConstantTag::NameAndType => {
            let (name, descriptor, rest) = index_pair_at(size, bytes)?;
            Ok((Constant::NameAndType(name, descriptor), rest))
        }
        ConstantTag::MethodHandle => skipped_at(size, 15, 3, bytes),
        ConstantTag::MethodType => skipped_at(size, 16, 2, bytes),
        ConstantTag::InvokeDynamic => skipped_at(size, 18, 4, bytes),
    }
}

/// A constant: its tag, and what stands behind it.
#[tactic(auto, unfolding(class_grammar::specs::Constants::constant_part))]
pub fn constant_at(alloc: Global, size: u32, bytes: &[u8]) -> Result<(Constant, &[u8]), ReadFault>
    requires { length bytes.now ≤ size }
    ensures read { Gives (λ x. (x.0, x.1.now)) result ((constant_part size).reads bytes.now) }
    ensures long { IfOk result (λ x. length bytes.now ≡ constant_length x.0 + length x.1.now) }
{
    let at = place(size, bytes);
    let (number, rest) = u8_at(cut_off(size), bytes)?;
    match tag_numbered(number) {
        Some(tag) => body_at(alloc, size, at, tag, rest),
        None => Err(bad(at, ClassKind::Tag)),
    }
}

/// Whether a constant takes up two indices.
#[tactic(auto, unfolding(class_grammar::specs::Constants::is_double_width))]
pub fn is_wide(constant: &Constant) -> bool
    ensures { result ≡ is_double_width constant.now }
{
    match constant {
        Constant::Long(_) => true,
        Constant::Skipped(number) => *number == 6,
        _ => false,
    }
}

#[tactic(auto, unfolding(class_grammar::specs::Constants::skipped_length))]
fn length_of_skipped(number: u8) -> u32
    ensures { result ≡ skipped_length number }
{
    match number {
        6 => 9,
        15 => 4,
        16 => 3,
        _ => 5,
    }
}

/// How many bytes a constant takes up, its tag included.
#[tactic(auto, unfolding(class_grammar::specs::Constants::constant_length))]
pub fn length_of(constant: &Constant) -> u32
    requires { constant_length constant.now < 2 ^ 32 }
    ensures { result ≡ constant_length constant.now }
{
    match constant {
        Constant::Unusable => 0,
        Constant::Utf8(text) => 3 + utf8_length(text.as_slice()),
        Constant::Long(_) => 9,
        Constant::Class(_) | Constant::Str(_) => 3,
        Constant::Integer(_)
        | Constant::Field(_, _)
        | Constant::Method(_, _)
        | Constant::InterfaceMethod(_, _)
        | Constant::NameAndType(_, _) => 5,
        Constant::Skipped(number) => length_of_skipped(*number),
    }
}
