//! Class files.
ghost use Rattle.std.specs.Prelude.{◌≡◌, ◌++◌, flat_map, OnOk, IfOk};
ghost use Rattle.asm_constants.specs.Pools.{two_bytes};
ghost use Rattle.asm_bodies.specs.Lines.{count_of, is_implements};
ghost use Rattle.asm_bytes.specs.Files.{version_bytes, constants_bytes, heading_bytes};
ghost use Rattle.asm_bytes.specs.Files.{interface_bytes, file_with};

use crate::counts::interface_count;
use crate::indices::push_class;
use crate::members::push_fields;
use crate::methods::push_methods;
use crate::numbers::{push_four, push_two};
use asm_constants::Pool;
use asm_lines::Line;
use jx_base::OutOfMemory;
use std::alloc::Global;

const MAGIC: usize = 0xcafe_babe;

const MAJOR_VERSION: usize = 52;

#[tactic(auto, unfolding(crate::specs::Files::version_bytes))]
fn push_version(bytes: &mut Vec<u8>) -> Result<(), OutOfMemory>
    ensures { OnOk result (bytes.new.items ≡ bytes.old.items ++ version_bytes) }
{
    push_four(bytes, MAGIC)?;
    push_two(bytes, 0)?;
    push_two(bytes, MAJOR_VERSION)
}

#[tactic(auto, unfolding(crate::specs::Files::constants_bytes))]
fn push_constants(alloc: Global, bytes: &mut Vec<u8>, pool: &Pool) -> Result<(), OutOfMemory>
    ensures { OnOk result (bytes.new.items ≡ bytes.old.items ++ constants_bytes pool.now) }
{
    let constants = pool.bytes(alloc)?;
    push_two(bytes, pool.count())?;
    bytes.extend_from_slice(constants.as_slice())
}

// The flags of the class, the class and its superclass, where the line says them.
#[tactic(auto, unfolding(crate::specs::Files::heading_bytes))]
fn push_heading(
    alloc: Global,
    bytes: &mut Vec<u8>,
    pool: &Pool,
    line: &Line,
) -> Result<(), OutOfMemory>
    ensures { OnOk result (bytes.new.items ≡ bytes.old.items ++ heading_bytes pool.now line.now) }
{
    match line {
        Line::Class {
            flags,
            name,
            super_class,
        } => {
            push_two(bytes, usize::from(*flags))?;
            push_class(alloc, bytes, pool, name)?;
            push_class(alloc, bytes, pool, super_class)
        }
        _ => Ok(()),
    }
}

fn push_headings(
    alloc: Global,
    bytes: &mut Vec<u8>,
    pool: &Pool,
    lines: &[Line],
) -> Result<(), OutOfMemory>
    ensures { OnOk result (bytes.new.items
        ≡ bytes.old.items ++ flat_map (heading_bytes pool.now) lines.now) }
{
    for line in lines {
        push_heading(alloc, bytes, pool, line)?;
    }
    Ok(())
}

// The interface that the line says, if it says one.
#[tactic(auto, unfolding(crate::specs::Files::interface_bytes))]
fn push_interface(
    alloc: Global,
    bytes: &mut Vec<u8>,
    pool: &Pool,
    line: &Line,
) -> Result<(), OutOfMemory>
    ensures { OnOk result (bytes.new.items ≡ bytes.old.items ++ interface_bytes pool.now line.now) }
{
    match line {
        Line::Implements(name) => push_class(alloc, bytes, pool, name),
        _ => Ok(()),
    }
}

fn push_interfaces(
    alloc: Global,
    bytes: &mut Vec<u8>,
    pool: &Pool,
    lines: &[Line],
) -> Result<(), OutOfMemory>
    ensures { OnOk result (bytes.new.items
        ≡ bytes.old.items ++ two_bytes (count_of is_implements lines.now)
        ++ flat_map (interface_bytes pool.now) lines.now) }
{
    push_two(bytes, interface_count(lines))?;
    for line in lines {
        push_interface(alloc, bytes, pool, line)?;
    }
    Ok(())
}

/// The class file of lines that have no fault, with the constants that they need.
pub fn file_bytes(alloc: Global, pool: &Pool, lines: &[Line]) -> Result<Vec<u8>, OutOfMemory>
    ensures { IfOk result (λ bytes. bytes.items ≡ file_with pool.now lines.now) }
{
    let mut bytes = Vec::new(alloc);
    push_version(&mut bytes)?;
    push_constants(alloc, &mut bytes, pool)?;
    push_headings(alloc, &mut bytes, pool, lines)?;
    push_interfaces(alloc, &mut bytes, pool, lines)?;
    push_fields(alloc, &mut bytes, pool, lines)?;
    push_methods(alloc, &mut bytes, pool, lines)?;
    push_two(&mut bytes, 0)?;
    Ok(bytes)
}
