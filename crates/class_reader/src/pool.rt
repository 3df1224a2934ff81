//! The constants of a class (JVMS 4.1, 4.4), and what they name.
ghost use Rattle.std.specs.Prelude.{◌≡◌, ◌≤◌, ◌<◌, ◌^◌, ◌+◌, ◌++◌, ◌∷◌, drop, length, IfOk, OnOk};
ghost use Rattle.class_reader.specs.Pools.{index_count, entries, constants_length};
ghost use Rattle.jx_base.specs.Answers.{Gives};
ghost use Rattle.class_grammar.specs.ClassGrammar.{pool_part};
ghost use Rattle.class_grammar.specs.Constants.{constants_part, names_rightly, misnaming_fault};

use crate::constants::{constant_at, is_wide, length_of};
use crate::error::{ReadFault, bad, class_fault, cut_off};
use class_grammar::{names_member, names_text, place, u16_at};
use jx_base::{ClassFault, ClassKind, Constant, Listed, OutOfMemory};
use std::alloc::Global;

// How many indices a constant takes up.
#[tactic(auto, unfolding(crate::specs::Pools::index_count))]
fn index_count(constant: &Constant) -> u16
    ensures count { result ≡ index_count constant.now }
    ensures positive { 0 < result }
{
    if is_wide(constant) { 2 } else { 1 }
}

// Puts a constant at the end, with what stands at its other index.
#[tactic(auto, unfolding(crate::specs::Pools::entries))]
fn push_entries(constants: &mut Vec<Constant>, constant: Constant) -> Result<(), OutOfMemory>
    ensures { OnOk result (constants.new.items ≡ constants.old.items ++ entries constant) }
{
    let wide = is_wide(&constant);
    constants.push(constant)?;
    if wide {
        constants.push(Constant::Unusable)?;
    }
    Ok(())
}

// Constants that take up so many indices, behind the unusable one at index 0.
#[tactic(auto, using(crate::proofs::Pools::pools))]
fn constants_at(
    alloc: Global,
    size: u32,
    count: u16,
    bytes: &[u8],
) -> Result<(Vec<Constant>, &[u8]), ReadFault>
    requires { length bytes.now ≤ size }
    ensures read { Gives (λ x. (drop 1 x.0.items, x.1.now)) result
        ((constants_part size count).reads bytes.now) }
    ensures first { IfOk result (λ x. x.0.items ≡ Constant.Unusable ∷ drop 1 x.0.items) }
    ensures long { IfOk result
        (λ x. length bytes.now ≡ constants_length (drop 1 x.0.items) + length x.1.now) }
{
    let mut constants = vec![in alloc; Constant::Unusable]?;
    let mut rest = bytes;
    let mut left = count;
    while left > 0 {
        let at = place(size, rest);
        let (constant, after) = constant_at(alloc, size, rest)?;
        let taken = index_count(&constant);
        if left < taken {
            return Err(bad(at, ClassKind::Index));
        }
        push_entries(&mut constants, constant)?;
        left -= taken;
        rest = after;
    }
    Ok((constants, rest))
}

// Whether a constant names constants of the tags that it needs.
#[tactic(auto, unfolding(class_grammar::specs::Constants::names_rightly))]
fn is_rightly_naming(constants: &[Constant], constant: &Constant) -> bool
    ensures { result ≡ names_rightly constants.now constant.now }
{
    match constant {
        Constant::Class(name) | Constant::Str(name) => names_text(constants, *name),
        Constant::Field(class, member)
        | Constant::Method(class, member)
        | Constant::InterfaceMethod(class, member) => names_member(constants, *class, *member),
        Constant::NameAndType(name, descriptor) => {
            names_text(constants, *name) && names_text(constants, *descriptor)
        }
        _ => true,
    }
}

// The fault of the first of some constants, which stand at a place, that does not name rightly.
#[tactic(auto, unfolding(class_grammar::specs::Constants::misnaming_fault), using(crate::proofs::Pools::names))]
fn misnaming(all: &[Constant], at: u32, constants: &[Constant]) -> Option<ClassFault>
    requires { at + constants_length constants.now < 2 ^ 32 }
    ensures { result ≡ misnaming_fault all.now at constants.now }
{
    let mut place = at;
    for constant in constants {
        if !is_rightly_naming(all, constant) {
            return Some(class_fault(place, ClassKind::Index));
        }
        place += length_of(constant);
    }
    None
}

/// The constants by index, with their number in front.
#[tactic(auto, unfolding(class_grammar::specs::ClassGrammar::pool_part))]
pub fn pool_at(
    alloc: Global,
    size: u32,
    bytes: &[u8],
) -> Result<(Listed<Constant>, &[u8]), ReadFault>
    requires fits { length bytes.now ≤ size }
    requires small { size ≤ 2 ^ 31 }
    ensures read { Gives (λ x. (x.0, x.1.now)) result ((pool_part size).reads bytes.now) }
    ensures shorter { IfOk result (λ x. length x.1.now ≤ length bytes.now) }
{
    let (count, rest) = u16_at(cut_off(size), bytes)?;
    if count == 0 {
        return Err(bad(8, ClassKind::Index));
    }
    let (constants, rest) = constants_at(alloc, size, count - 1, rest)?;
    match misnaming(constants.as_slice(), 10, &constants.as_slice()[1..]) {
        Some(fault) => Err(ReadFault::Bad(fault)),
        None => Ok((Listed::from_vec(constants), rest)),
    }
}
