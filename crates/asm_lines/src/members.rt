//! Lines that are a class, or a part of one but for code.
ghost use Rattle.std.specs.Prelude.{Some, None, if◌then◌else◌, codes};
ghost use Rattle.std.specs.Str.{bytes_eq};
ghost use Rattle.asm_words.specs.Numbers.{flags_of};
ghost use Rattle.asm_lines.specs.Operands.{is_name};
ghost use Rattle.asm_lines.specs.Lines.{class_line, implements_line, member_of, field_line};
ghost use Rattle.asm_lines.specs.Lines.{abstract_line, method_line, catch_line};
ghost use Rattle.asm_lines.specs.Readings.{Tells, texts};

use crate::error::{LineError, Malformed};
use crate::line::{Catch, Line, Member};
use crate::words::{name, unsigned};
use asm_words::{flags, is_text};
use class_texts::{argument_slots, is_field_descriptor};
use jx_base::Text;
use std::alloc::Global;

// The flags that the word says.
fn flags_of(word: &[u16]) -> Result<u16, LineError>
    ensures { Tells (λ flags. flags) result (flags_of word.now) }
{
    match flags(word) {
        Some(flags) => Ok(flags),
        None => Err(LineError::Bad(Malformed)),
    }
}

/// The flags, the name and the superclass of the class.
#[tactic(auto, unfolding(crate::specs::Lines::class_line))]
pub fn class_line(alloc: Global, words: &[&[u16]]) -> Result<Line, LineError>
    ensures { Tells (λ line. line) result (class_line (texts words.now)) }
{
    match words {
        [flags, class, super_class] => {
            let class = name(alloc, class)?;
            let super_class = name(alloc, super_class)?;
            Ok(Line::Class {
                flags: flags_of(flags)?,
                name: class,
                super_class,
            })
        }
        _ => Err(LineError::Bad(Malformed)),
    }
}

/// An interface that the class implements.
#[tactic(auto, unfolding(crate::specs::Lines::implements_line))]
pub fn implements_line(alloc: Global, words: &[&[u16]]) -> Result<Line, LineError>
    ensures { Tells (λ line. line) result (implements_line (texts words.now)) }
{
    match words {
        [interface] => Ok(Line::Implements(name(alloc, interface)?)),
        _ => Err(LineError::Bad(Malformed)),
    }
}

// A member, where the descriptor is one.
#[tactic(auto, unfolding(crate::specs::Lines::member_of))]
fn member_of(
    alloc: Global,
    described: bool,
    flags: &[u16],
    member: &[u16],
    descriptor: &[u16],
) -> Result<Member, LineError>
    ensures { Tells (λ member. member) result
        (member_of described flags.now member.now descriptor.now) }
{
    if !described {
        return Err(LineError::Bad(Malformed));
    }
    Ok(Member {
        flags: flags_of(flags)?,
        name: name(alloc, member)?,
        descriptor: Text::from_slice(alloc, descriptor)?,
    })
}

/// A field: its flags, its name and its descriptor.
#[tactic(auto, unfolding(crate::specs::Lines::field_line))]
pub fn field_line(alloc: Global, words: &[&[u16]]) -> Result<Line, LineError>
    ensures { Tells (λ line. line) result (field_line (texts words.now)) }
{
    match words {
        [flags, name, descriptor] => {
            let described = is_field_descriptor(descriptor);
            Ok(Line::Field(member_of(alloc, described, flags, name, descriptor)?))
        }
        _ => Err(LineError::Bad(Malformed)),
    }
}

/// A method without code: its flags, its name and its descriptor.
#[tactic(auto, unfolding(crate::specs::Lines::abstract_line))]
pub fn abstract_line(alloc: Global, words: &[&[u16]]) -> Result<Line, LineError>
    ensures { Tells (λ line. line) result (abstract_line (texts words.now)) }
{
    match words {
        [flags, name, descriptor] => {
            let described = argument_slots(descriptor).is_some();
            Ok(Line::Abstract(member_of(alloc, described, flags, name, descriptor)?))
        }
        _ => Err(LineError::Bad(Malformed)),
    }
}

/// A method with code: its flags, its name, its descriptor, its greatest stack and its locals.
#[tactic(auto, unfolding(crate::specs::Lines::method_line, crate::specs::Lines::method_with, crate::specs::Lines::slots))]
pub fn method_line(alloc: Global, words: &[&[u16]]) -> Result<Line, LineError>
    ensures { Tells (λ line. line) result (method_line (texts words.now)) }
{
    match words {
        [flags, name, descriptor, max_stack, max_locals] => {
            let described = argument_slots(descriptor).is_some();
            let method = member_of(alloc, described, flags, name, descriptor)?;
            Ok(Line::Method(method, unsigned(max_stack)?, unsigned(max_locals)?))
        }
        _ => Err(LineError::Bad(Malformed)),
    }
}

// The class that is caught, none where it is any.
fn catch_class(alloc: Global, class: &[u16]) -> Result<Option<Text>, LineError>
    ensures { Tells (λ caught. caught) result
        (if is_name class.now
        then Some (if bytes_eq class.now (codes "any") then None else Some class.now) else None) }
{
    let caught = name(alloc, class)?;
    if is_text(class, "any") {
        Ok(None)
    } else {
        Ok(Some(caught))
    }
}

/// An entry of an exception table: from where, up to where, the handler, and the class or any.
#[tactic(auto, unfolding(crate::specs::Lines::catch_line))]
pub fn catch_line(alloc: Global, words: &[&[u16]]) -> Result<Line, LineError>
    ensures { Tells (λ line. line) result (catch_line (texts words.now)) }
{
    match words {
        [start, end, handler, class] => Ok(Line::Catch(Catch {
            start: name(alloc, start)?,
            end: name(alloc, end)?,
            handler: name(alloc, handler)?,
            class: catch_class(alloc, class)?,
        })),
        _ => Err(LineError::Bad(Malformed)),
    }
}
