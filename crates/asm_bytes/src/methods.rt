//! Methods, with their code.
ghost use Rattle.std.specs.Prelude.{◌≡◌, ◌++◌, OnOk, IfOk};
ghost use Rattle.asm_constants.specs.Pools.{two_bytes};
ghost use Rattle.asm_bodies.specs.Lines.{count_of, is_member};
ghost use Rattle.asm_bytes.specs.Files.{code_attribute, code_bytes, method_bytes, methods_bytes};

use crate::catches::push_catches;
use crate::code::code_of;
use crate::counts::method_count;
use crate::indices::push_text;
use crate::members::{push_bare, push_member};
use crate::numbers::{push_counted, push_two};
use asm_bodies::{body_of, marks_of};
use asm_constants::Pool;
use asm_lines::Line;
use jx_base::OutOfMemory;
use std::alloc::Global;

const CODE: [u16; 4] = [0x43, 0x6f, 0x64, 0x65];

// What Code holds.
fn code_attribute(
    alloc: Global,
    pool: &Pool,
    max_stack: u16,
    max_locals: u16,
    body: &[Line],
) -> Result<Vec<u8>, OutOfMemory>
    ensures { IfOk result (λ bytes. bytes.items
        ≡ code_attribute pool.now max_stack max_locals body.now) }
{
    let marks = marks_of(alloc, body)?;
    let code = code_of(alloc, pool, &marks, body)?;
    let mut bytes = Vec::new(alloc);
    push_two(&mut bytes, usize::from(max_stack))?;
    push_two(&mut bytes, usize::from(max_locals))?;
    push_counted(&mut bytes, code.as_slice())?;
    push_catches(alloc, &mut bytes, pool, &marks, body)?;
    push_two(&mut bytes, 0)?;
    Ok(bytes)
}

// The count of attributes, and the one, which is Code.
fn push_code(
    alloc: Global,
    bytes: &mut Vec<u8>,
    pool: &Pool,
    attribute: &[u8],
) -> Result<(), OutOfMemory>
    ensures { OnOk result (bytes.new.items ≡ bytes.old.items ++ code_bytes pool.now attribute.now) }
{
    push_two(bytes, 1)?;
    push_text(alloc, bytes, pool, &CODE)?;
    push_counted(bytes, attribute)
}

// The method that the line says, if it says one, with the lines behind it.
#[tactic(auto, unfolding(crate::specs::Files::method_bytes))]
fn push_method(
    alloc: Global,
    bytes: &mut Vec<u8>,
    pool: &Pool,
    line: &Line,
    after: &[Line],
) -> Result<(), OutOfMemory>
    ensures { OnOk result (bytes.new.items
        ≡ bytes.old.items ++ method_bytes pool.now line.now after.now) }
{
    match line {
        Line::Abstract(member) => push_bare(alloc, bytes, pool, member),
        Line::Method(member, max_stack, max_locals) => {
            let attribute = code_attribute(alloc, pool, *max_stack, *max_locals, body_of(after))?;
            push_member(alloc, bytes, pool, member)?;
            push_code(alloc, bytes, pool, attribute.as_slice())
        }
        _ => Ok(()),
    }
}

/// Puts the methods behind the others, with their count in front of them.
pub fn push_methods(
    alloc: Global,
    bytes: &mut Vec<u8>,
    pool: &Pool,
    lines: &[Line],
) -> Result<(), OutOfMemory>
    ensures { OnOk result (bytes.new.items
        ≡ bytes.old.items ++ two_bytes (count_of is_member lines.now)
        ++ methods_bytes pool.now lines.now) }
{
    push_two(bytes, method_count(lines))?;
    for (i, line) in lines.iter().enumerate() {
        push_method(alloc, bytes, pool, line, &lines[i + 1..])?;
    }
    Ok(())
}
