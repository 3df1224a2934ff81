//! Exception tables.
ghost use Rattle.std.specs.Prelude.{◌≡◌, ◌++◌, flat_map, OnOk};
ghost use Rattle.asm_constants.specs.Pools.{two_bytes};
ghost use Rattle.asm_lines.specs.declared.line.Line.TheVariants as line;
ghost use Rattle.asm_bodies.specs.Lines.{count_of, is_catch};
ghost use Rattle.asm_bytes.specs.Files.{class_index, catch_bytes};

use crate::code::pc_of;
use crate::counts::catch_count;
use crate::indices::push_class;
use crate::numbers::push_two;
use asm_bodies::Marks;
use asm_constants::Pool;
use asm_lines::{Catch, Line};
use jx_base::{OutOfMemory, Text};
use std::alloc::Global;

// The index of the class that is caught, and 0 where all are.
#[tactic(auto, unfolding(crate::specs::Files::class_index))]
fn push_caught(
    alloc: Global,
    bytes: &mut Vec<u8>,
    pool: &Pool,
    class: &Option<Text>,
) -> Result<(), OutOfMemory>
    ensures { OnOk result (bytes.new.items
        ≡ bytes.old.items ++ two_bytes (class_index pool.now class.now)) }
{
    match class {
        Some(name) => push_class(alloc, bytes, pool, name),
        None => push_two(bytes, 0),
    }
}

fn push_catch(
    alloc: Global,
    bytes: &mut Vec<u8>,
    pool: &Pool,
    marks: &Marks,
    catch: &Catch,
) -> Result<(), OutOfMemory>
    ensures { OnOk result (bytes.new.items
        ≡ bytes.old.items ++ catch_bytes pool.now marks.now (line.Catch catch.now)) }
{
    push_two(bytes, pc_of(marks, &catch.start))?;
    push_two(bytes, pc_of(marks, &catch.end))?;
    push_two(bytes, pc_of(marks, &catch.handler))?;
    push_caught(alloc, bytes, pool, &catch.class)
}

// The entry that the line says, if it says one.
#[tactic(auto, unfolding(crate::specs::Files::catch_bytes))]
fn push_catch_line(
    alloc: Global,
    bytes: &mut Vec<u8>,
    pool: &Pool,
    marks: &Marks,
    line: &Line,
) -> Result<(), OutOfMemory>
    ensures { OnOk result (bytes.new.items
        ≡ bytes.old.items ++ catch_bytes pool.now marks.now line.now) }
{
    match line {
        Line::Catch(catch) => push_catch(alloc, bytes, pool, marks, catch),
        _ => Ok(()),
    }
}

/// Puts the exception table of a body with those labels behind the others, with its count of
/// entries in front of it.
pub fn push_catches(
    alloc: Global,
    bytes: &mut Vec<u8>,
    pool: &Pool,
    marks: &Marks,
    body: &[Line],
) -> Result<(), OutOfMemory>
    ensures { OnOk result (bytes.new.items
        ≡ bytes.old.items ++ two_bytes (count_of is_catch body.now)
        ++ flat_map (catch_bytes pool.now marks.now) body.now) }
{
    push_two(bytes, catch_count(body))?;
    for line in body {
        push_catch_line(alloc, bytes, pool, marks, line)?;
    }
    Ok(())
}
