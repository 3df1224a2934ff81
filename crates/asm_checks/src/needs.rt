//! The constants that lines need.
ghost use Rattle.std.specs.Prelude.{◌≡◌, ◌∷◌, [], OnOk, flat_map};
ghost use Rattle.asm_constants.specs.Pools.{with_needed};
ghost use Rattle.asm_constants.specs.declared.content.Content.TheVariants.{Class, Utf8};
ghost use Rattle.asm_bodies.specs.Needs.{line_contents, member_contents, method_contents};
ghost use Rattle.asm_bodies.specs.Needs.{caught_contents, operand_contents, with_all_needed};

use asm_constants::{Content, Pool};
use asm_lines::{Line, Member, Operand};
use jx_base::{OutOfMemory, Text};
use std::alloc::Global;

const CODE: [u16; 4] = [0x43, 0x6f, 0x64, 0x65];

/// Adds the constants that a line needs.
#[tactic(auto, unfolding(asm_bodies::specs::Needs::line_contents, asm_bodies::specs::Needs::with_all_needed))]
pub fn add_needed(pool: &mut Pool, alloc: Global, line: &Line) -> Result<(), OutOfMemory>
    ensures { OnOk result (pool.new ≡ with_all_needed pool.old (line_contents line.now)) }
{
    match line {
        Line::Class {
            name,
            super_class,
            ..
        } => {
            add_class(pool, alloc, name)?;
            add_class(pool, alloc, super_class)
        }
        Line::Implements(name) => add_class(pool, alloc, name),
        Line::Field(member) | Line::Abstract(member) => add_member(pool, alloc, member),
        Line::Method(member, _, _) => add_method(pool, alloc, member),
        Line::Instruction(instruction) => {
            add_operands(pool, alloc, instruction.operands.as_slice())
        }
        Line::Catch(catch) => add_caught(pool, alloc, &catch.class),
        Line::Skipped | Line::Label(_) | Line::End | Line::Faulty { .. } => Ok(()),
    }
}

fn add_class(pool: &mut Pool, alloc: Global, name: &Text) -> Result<(), OutOfMemory>
    ensures { OnOk result (pool.new ≡ with_needed pool.old (Class name.now)) }
{
    let name = name.copy(alloc)?;
    pool.add(alloc, &Content::Class(name))
}

fn add_text(pool: &mut Pool, alloc: Global, text: &[u16]) -> Result<(), OutOfMemory>
    ensures { OnOk result (pool.new ≡ with_needed pool.old (Utf8 text.now)) }
{
    let text = Text::from_slice(alloc, text)?;
    pool.add(alloc, &Content::Utf8(text))
}

#[tactic(auto, unfolding(asm_bodies::specs::Needs::member_contents, asm_bodies::specs::Needs::with_all_needed))]
fn add_member(pool: &mut Pool, alloc: Global, member: &Member) -> Result<(), OutOfMemory>
    ensures { OnOk result (pool.new ≡ with_all_needed pool.old (member_contents member.now)) }
{
    add_text(pool, alloc, member.name.as_slice())?;
    add_text(pool, alloc, member.descriptor.as_slice())
}

// A method with code has an attribute of that name.
#[tactic(auto, unfolding(asm_bodies::specs::Needs::method_contents, asm_bodies::specs::Needs::with_all_needed))]
fn add_method(pool: &mut Pool, alloc: Global, member: &Member) -> Result<(), OutOfMemory>
    ensures { OnOk result (pool.new ≡ with_all_needed pool.old (method_contents member.now)) }
{
    add_text(pool, alloc, member.name.as_slice())?;
    add_text(pool, alloc, member.descriptor.as_slice())?;
    add_text(pool, alloc, &CODE)
}

// The class that a catch names, if it names one.
#[tactic(auto, unfolding(asm_bodies::specs::Needs::caught_contents, asm_bodies::specs::Needs::with_all_needed))]
fn add_caught(pool: &mut Pool, alloc: Global, class: &Option<Text>) -> Result<(), OutOfMemory>
    ensures { OnOk result (pool.new ≡ with_all_needed pool.old (caught_contents class.now)) }
{
    match class {
        Some(class) => add_class(pool, alloc, class),
        None => Ok(()),
    }
}

#[tactic(auto, unfolding(asm_bodies::specs::Needs::operand_contents, asm_bodies::specs::Needs::with_all_needed))]
fn add_operand(pool: &mut Pool, alloc: Global, operand: &Operand) -> Result<(), OutOfMemory>
    ensures { OnOk result (pool.new ≡ with_all_needed pool.old (operand_contents operand.now)) }
{
    match operand {
        Operand::ByteIndex(content) | Operand::Index(content) => pool.add(alloc, content),
        _ => Ok(()),
    }
}

fn add_operands(pool: &mut Pool, alloc: Global, operands: &[Operand]) -> Result<(), OutOfMemory>
    ensures { OnOk result (pool.new
        ≡ with_all_needed pool.old (flat_map operand_contents operands.now)) }
{
    for operand in operands {
        add_operand(pool, alloc, operand)?;
    }
    Ok(())
}
