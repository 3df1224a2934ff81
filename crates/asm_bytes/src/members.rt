//! Fields, and what fields and methods begin with.
ghost use Rattle.std.specs.Prelude.{◌≡◌, ◌++◌, flat_map, OnOk};
ghost use Rattle.asm_constants.specs.Pools.{two_bytes};
ghost use Rattle.asm_bodies.specs.Lines.{count_of, is_field};
ghost use Rattle.asm_bytes.specs.Files.{member_bytes, field_bytes};

use crate::counts::field_count;
use crate::indices::push_text;
use crate::numbers::push_two;
use asm_constants::Pool;
use asm_lines::{Line, Member};
use jx_base::OutOfMemory;
use std::alloc::Global;

/// Puts the flags, the name and the descriptor of a member behind the others.
pub fn push_member(
    alloc: Global,
    bytes: &mut Vec<u8>,
    pool: &Pool,
    member: &Member,
) -> Result<(), OutOfMemory>
    ensures { OnOk result (bytes.new.items ≡ bytes.old.items ++ member_bytes pool.now member.now) }
{
    push_two(bytes, usize::from(member.flags))?;
    push_text(alloc, bytes, pool, member.name.as_slice())?;
    push_text(alloc, bytes, pool, member.descriptor.as_slice())
}

/// Puts a member that has no attributes behind the others.
pub fn push_bare(
    alloc: Global,
    bytes: &mut Vec<u8>,
    pool: &Pool,
    member: &Member,
) -> Result<(), OutOfMemory>
    ensures { OnOk result (bytes.new.items
        ≡ bytes.old.items ++ member_bytes pool.now member.now ++ two_bytes 0) }
{
    push_member(alloc, bytes, pool, member)?;
    push_two(bytes, 0)
}

// The field that the line says, if it says one.
#[tactic(auto, unfolding(crate::specs::Files::field_bytes))]
fn push_field(
    alloc: Global,
    bytes: &mut Vec<u8>,
    pool: &Pool,
    line: &Line,
) -> Result<(), OutOfMemory>
    ensures { OnOk result (bytes.new.items ≡ bytes.old.items ++ field_bytes pool.now line.now) }
{
    match line {
        Line::Field(member) => push_bare(alloc, bytes, pool, member),
        _ => Ok(()),
    }
}

/// Puts the fields behind the others, with their count in front of them.
pub fn push_fields(
    alloc: Global,
    bytes: &mut Vec<u8>,
    pool: &Pool,
    lines: &[Line],
) -> Result<(), OutOfMemory>
    ensures { OnOk result (bytes.new.items
        ≡ bytes.old.items ++ two_bytes (count_of is_field lines.now)
        ++ flat_map (field_bytes pool.now) lines.now) }
{
    push_two(bytes, field_count(lines))?;
    for line in lines {
        push_field(alloc, bytes, pool, line)?;
    }
    Ok(())
}
