//! The operands of an instruction.
ghost use Rattle.std.specs.Prelude.{◌≡◌, ◌∷◌, [], Some, None, option_map, is_some};
ghost use Rattle.class_grammar.specs.Descriptors.{field_type_of, method_type_of};
ghost use Rattle.asm_lines.specs.Operands.{signed_byte, signed_short, unsigned_byte};
ghost use Rattle.asm_lines.specs.Operands.{unsigned_short, increment, wide_increment};
ghost use Rattle.asm_lines.specs.Operands.{class_operand, member_operand, field_operand};
ghost use Rattle.asm_lines.specs.Operands.{method_operand, count_operands, interface_operand};
ghost use Rattle.asm_lines.specs.Operands.{byte_constant, short_constant, long_constant};
ghost use Rattle.asm_lines.specs.Operands.{element_type, array_type, dimensions, target};
ghost use Rattle.asm_lines.specs.Operands.{far_target, nothing, index_operand, byte_operand};
ghost use Rattle.asm_lines.specs.Operands.{operands_of};
ghost use Rattle.asm_lines.specs.declared.line.Operand.TheVariants.{Byte};
ghost use Rattle.asm_lines.specs.Readings.{Tells, texts};

use crate::error::{LineError, Malformed};
use crate::line::Operand;
use crate::switches::{lookup, table};
use crate::words::{byte_from, constant, name, short, small, unsigned};
use asm_constants::{Content, Reference};
use asm_words::{is_text, number};
use class_texts::{argument_slots, is_field_descriptor};
use jx_base::{Form, Row, Text};
use std::alloc::Global;

/// The operands that words say.
pub type Operands = Result<Vec<Operand>, LineError>;

/// The operands of an opcode of that form, which does what the row says.
#[tactic(auto, unfolding(crate::specs::Operands::operands_of))]
pub fn operands_of(alloc: Global, form: Form, row: Row, words: &[&[u16]]) -> Operands
    ensures { Tells (λ v. v.items) result (operands_of form row (texts words.now)) }
{
    match form {
        Form::Plain => nothing(alloc, words),
        Form::SignedByte => signed_byte(alloc, words),
        Form::SignedShort => signed_short(alloc, words),
        Form::Byte => byte_operand(alloc, row, words),
        Form::Index => index_operand(alloc, row, words),
        Form::Interface => interface_operand(alloc, words),
        Form::ArrayType => array_type(alloc, words),
        Form::Dimensions => dimensions(alloc, words),
        Form::Increment => increment(alloc, words),
        Form::WideIncrement => wide_increment(alloc, words),
        Form::Branch => target(alloc, words),
        Form::FarBranch => far_target(alloc, words),
        Form::TableSwitch => table(alloc, words),
        Form::LookupSwitch => lookup(alloc, words),
        Form::Wide | Form::LeftOut | Form::Unassigned => Err(LineError::Bad(Malformed)),
    }
}

// A byte: the index of a constant, or a local.
#[tactic(auto, unfolding(crate::specs::Operands::byte_operand))]
fn byte_operand(alloc: Global, row: Row, words: &[&[u16]]) -> Operands
    ensures { Tells (λ v. v.items) result (byte_operand row (texts words.now)) }
{
    match row {
        Row::PushConstant => byte_constant(alloc, words),
        _ => unsigned_byte(alloc, words),
    }
}

// An index: what it names goes by what the opcode does.
#[tactic(auto, unfolding(crate::specs::Operands::index_operand))]
fn index_operand(alloc: Global, row: Row, words: &[&[u16]]) -> Operands
    ensures { Tells (λ v. v.items) result (index_operand row (texts words.now)) }
{
    match row {
        Row::PushConstant => short_constant(alloc, words),
        Row::PushLong => long_constant(alloc, words),
        Row::GetStatic | Row::PutStatic | Row::GetField | Row::PutField => {
            field_operand(alloc, words)
        }
        Row::Invoke(_) => method_operand(alloc, words),
        Row::New | Row::NewReferenceArray | Row::CheckCast | Row::InstanceOf => {
            class_operand(alloc, words)
        }
        _ => unsigned_short(alloc, words),
    }
}

// One operand.
fn one(alloc: Global, operand: Operand) -> Operands
    ensures { Tells (λ v. v.items) result (Some (operand ∷ [])) }
{
    let mut operands = Vec::new(alloc);
    operands.push(operand)?;
    Ok(operands)
}

// Two operands.
fn two(alloc: Global, first: Operand, second: Operand) -> Operands
    ensures { Tells (λ v. v.items) result (Some (first ∷ second ∷ [])) }
{
    let mut operands = Vec::new(alloc);
    operands.push(first)?;
    operands.push(second)?;
    Ok(operands)
}

#[tactic(auto, unfolding(crate::specs::Operands::nothing))]
fn nothing(alloc: Global, words: &[&[u16]]) -> Operands
    ensures { Tells (λ v. v.items) result (nothing (texts words.now)) }
{
    if words.is_empty() {
        Ok(Vec::new(alloc))
    } else {
        Err(LineError::Bad(Malformed))
    }
}

#[tactic(auto, unfolding(crate::specs::Operands::signed_byte, crate::specs::Operands::number_operand))]
fn signed_byte(alloc: Global, words: &[&[u16]]) -> Operands
    ensures { Tells (λ v. v.items) result (signed_byte (texts words.now)) }
{
    match words {
        [word] => one(alloc, Operand::Byte(small(word)?.cast_unsigned())),
        _ => Err(LineError::Bad(Malformed)),
    }
}

#[tactic(auto, unfolding(crate::specs::Operands::signed_short, crate::specs::Operands::number_operand))]
fn signed_short(alloc: Global, words: &[&[u16]]) -> Operands
    ensures { Tells (λ v. v.items) result (signed_short (texts words.now)) }
{
    match words {
        [word] => one(alloc, Operand::Short(short(word)?.cast_unsigned())),
        _ => Err(LineError::Bad(Malformed)),
    }
}

#[tactic(auto, unfolding(crate::specs::Operands::unsigned_byte, crate::specs::Operands::number_operand))]
fn unsigned_byte(alloc: Global, words: &[&[u16]]) -> Operands
    ensures { Tells (λ v. v.items) result (unsigned_byte (texts words.now)) }
{
    match words {
        [word] => one(alloc, Operand::Byte(byte_from(word, 0)?)),
        _ => Err(LineError::Bad(Malformed)),
    }
}

#[tactic(auto, unfolding(crate::specs::Operands::unsigned_short, crate::specs::Operands::number_operand))]
fn unsigned_short(alloc: Global, words: &[&[u16]]) -> Operands
    ensures { Tells (λ v. v.items) result (unsigned_short (texts words.now)) }
{
    match words {
        [word] => one(alloc, Operand::Short(unsigned(word)?)),
        _ => Err(LineError::Bad(Malformed)),
    }
}

// A local, and what is added to it.
#[tactic(auto, unfolding(crate::specs::Operands::increment, crate::specs::Operands::then_operand, crate::specs::Operands::unsigned_byte, crate::specs::Operands::signed_byte, crate::specs::Operands::number_operand))]
fn increment(alloc: Global, words: &[&[u16]]) -> Operands
    ensures { Tells (λ v. v.items) result (increment (texts words.now)) }
{
    match words {
        [local, by] => {
            let local = Operand::Byte(byte_from(local, 0)?);
            two(alloc, local, Operand::Byte(small(by)?.cast_unsigned()))
        }
        _ => Err(LineError::Bad(Malformed)),
    }
}

#[tactic(auto, unfolding(crate::specs::Operands::wide_increment, crate::specs::Operands::then_operand, crate::specs::Operands::unsigned_short, crate::specs::Operands::signed_short, crate::specs::Operands::number_operand))]
fn wide_increment(alloc: Global, words: &[&[u16]]) -> Operands
    ensures { Tells (λ v. v.items) result (wide_increment (texts words.now)) }
{
    match words {
        [local, by] => {
            let local = Operand::Short(unsigned(local)?);
            two(alloc, local, Operand::Short(short(by)?.cast_unsigned()))
        }
        _ => Err(LineError::Bad(Malformed)),
    }
}

#[tactic(auto, unfolding(crate::specs::Operands::class_operand))]
fn class_operand(alloc: Global, words: &[&[u16]]) -> Operands
    ensures { Tells (λ v. v.items) result (class_operand (texts words.now)) }
{
    match words {
        [class] => one(alloc, Operand::Index(Content::Class(name(alloc, class)?))),
        _ => Err(LineError::Bad(Malformed)),
    }
}

// The reference to a member of a class, where the descriptor is one.
#[tactic(auto, unfolding(crate::specs::Operands::member_operand))]
fn member_operand(
    alloc: Global,
    kind: Reference,
    described: bool,
    class: &[u16],
    member: &[u16],
    descriptor: &[u16],
) -> Result<Operand, LineError>
    ensures { Tells (λ operand. operand ∷ []) result
        (member_operand kind described class.now member.now descriptor.now) }
{
    let class = name(alloc, class)?;
    let member = name(alloc, member)?;
    if !described {
        return Err(LineError::Bad(Malformed));
    }
    let descriptor = Text::from_slice(alloc, descriptor)?;
    Ok(Operand::Index(Content::Member(kind, class, member, descriptor)))
}

#[tactic(auto, unfolding(crate::specs::Operands::field_operand))]
fn field_operand(alloc: Global, words: &[&[u16]]) -> Operands
    ensures { Tells (λ v. v.items) result (field_operand (texts words.now)) }
{
    match words {
        [class, name, descriptor] => {
            let described = is_field_descriptor(descriptor);
            let member = member_operand(
                alloc,
                Reference::Field,
                described,
                class,
                name,
                descriptor,
            )?;
            one(alloc, member)
        }
        _ => Err(LineError::Bad(Malformed)),
    }
}

#[tactic(auto, unfolding(crate::specs::Operands::method_operand))]
fn method_operand(alloc: Global, words: &[&[u16]]) -> Operands
    ensures { Tells (λ v. v.items) result (method_operand (texts words.now)) }
{
    match words {
        [class, name, descriptor] => {
            let described = argument_slots(descriptor).is_some();
            let member = member_operand(
                alloc,
                Reference::Method,
                described,
                class,
                name,
                descriptor,
            )?;
            one(alloc, member)
        }
        _ => Err(LineError::Bad(Malformed)),
    }
}

// The count of the arguments' slots with that of the receiver.
#[tactic(auto, unfolding(crate::specs::Operands::count_operands))]
fn argument_count(descriptor: &[u16]) -> Result<u8, LineError>
    ensures { Tells (λ count. Byte count ∷ Byte 0 ∷ []) result
        (count_operands (method_type_of descriptor.now)) }
{
    match argument_slots(descriptor) {
        Some(slots) => {
            if slots < 255 {
                Ok(slots as u8 + 1)
            } else {
                Err(LineError::Bad(Malformed))
            }
        }
        None => Err(LineError::Bad(Malformed)),
    }
}

#[tactic(auto, unfolding(crate::specs::Operands::interface_operand, crate::specs::Operands::then_operand))]
fn interface_operand(alloc: Global, words: &[&[u16]]) -> Operands
    ensures { Tells (λ v. v.items) result (interface_operand (texts words.now)) }
{
    match words {
        [class, name, descriptor] => {
            let count = argument_count(descriptor)?;
            let method = member_operand(
                alloc,
                Reference::InterfaceMethod,
                true,
                class,
                name,
                descriptor,
            )?;
            let mut operands = Vec::new(alloc);
            operands.push(method)?;
            operands.push(Operand::Byte(count))?;
            operands.push(Operand::Byte(0))?;
            Ok(operands)
        }
        _ => Err(LineError::Bad(Malformed)),
    }
}

#[tactic(auto, unfolding(crate::specs::Operands::byte_constant))]
fn byte_constant(alloc: Global, words: &[&[u16]]) -> Operands
    ensures { Tells (λ v. v.items) result (byte_constant (texts words.now)) }
{
    one(alloc, Operand::ByteIndex(constant(alloc, words)?))
}

#[tactic(auto, unfolding(crate::specs::Operands::short_constant))]
fn short_constant(alloc: Global, words: &[&[u16]]) -> Operands
    ensures { Tells (λ v. v.items) result (short_constant (texts words.now)) }
{
    one(alloc, Operand::Index(constant(alloc, words)?))
}

#[tactic(auto, unfolding(crate::specs::Operands::long_constant))]
fn long_constant(alloc: Global, words: &[&[u16]]) -> Operands
    ensures { Tells (λ v. v.items) result (long_constant (texts words.now)) }
{
    match words {
        [kind, word] => {
            if !is_text(kind, "long") {
                return Err(LineError::Bad(Malformed));
            }
            match number(word, i64::MIN, i64::MAX) {
                Some(n) => one(alloc, Operand::Index(Content::Long(n))),
                None => Err(LineError::Bad(Malformed)),
            }
        }
        _ => Err(LineError::Bad(Malformed)),
    }
}

// The number of the type of an array's elements.
#[tactic(auto, unfolding(crate::specs::Operands::element_type))]
fn element_type(word: &[u16]) -> Result<u8, LineError>
    ensures { Tells (λ n. n) result (element_type word.now) }
{
    if is_text(word, "boolean") {
        Ok(4)
    } else if is_text(word, "char") {
        Ok(5)
    } else if is_text(word, "byte") {
        Ok(8)
    } else if is_text(word, "short") {
        Ok(9)
    } else if is_text(word, "int") {
        Ok(10)
    } else if is_text(word, "long") {
        Ok(11)
    } else {
        Err(LineError::Bad(Malformed))
    }
}

#[tactic(auto, unfolding(crate::specs::Operands::array_type))]
fn array_type(alloc: Global, words: &[&[u16]]) -> Operands
    ensures { Tells (λ v. v.items) result (array_type (texts words.now)) }
{
    match words {
        [word] => one(alloc, Operand::Byte(element_type(word)?)),
        _ => Err(LineError::Bad(Malformed)),
    }
}

// A class, and one dimension or more.
#[tactic(auto, unfolding(crate::specs::Operands::dimensions, crate::specs::Operands::then_operand, crate::specs::Operands::class_operand, crate::specs::Operands::number_operand))]
fn dimensions(alloc: Global, words: &[&[u16]]) -> Operands
    ensures { Tells (λ v. v.items) result (dimensions (texts words.now)) }
{
    match words {
        [class, word] => {
            let count = byte_from(word, 1)?;
            let class = Operand::Index(Content::Class(name(alloc, class)?));
            two(alloc, class, Operand::Byte(count))
        }
        _ => Err(LineError::Bad(Malformed)),
    }
}

#[tactic(auto, unfolding(crate::specs::Operands::target))]
fn target(alloc: Global, words: &[&[u16]]) -> Operands
    ensures { Tells (λ v. v.items) result (target (texts words.now)) }
{
    match words {
        [label] => one(alloc, Operand::Target(name(alloc, label)?)),
        _ => Err(LineError::Bad(Malformed)),
    }
}

#[tactic(auto, unfolding(crate::specs::Operands::far_target))]
fn far_target(alloc: Global, words: &[&[u16]]) -> Operands
    ensures { Tells (λ v. v.items) result (far_target (texts words.now)) }
{
    match words {
        [label] => one(alloc, Operand::FarTarget(name(alloc, label)?)),
        _ => Err(LineError::Bad(Malformed)),
    }
}
