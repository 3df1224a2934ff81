//! Indices of constants behind other bytes.
ghost use Rattle.std.specs.Prelude.{◌≡◌, ◌++◌, OnOk};
ghost use Rattle.asm_constants.specs.Pools.{index_of, two_bytes};
ghost use Rattle.asm_constants.specs.declared.content.Content.TheVariants.{Class, Utf8};

use crate::numbers::push_two;
use asm_constants::{Content, Pool};
use jx_base::{OutOfMemory, Text};
use std::alloc::Global;

/// Puts the index of a class behind the others.
pub fn push_class(
    alloc: Global,
    bytes: &mut Vec<u8>,
    pool: &Pool,
    name: &Text,
) -> Result<(), OutOfMemory>
    ensures { OnOk result (bytes.new.items
        ≡ bytes.old.items ++ two_bytes (index_of pool.now (Class name.now))) }
{
    let name = name.copy(alloc)?;
    push_two(bytes, pool.index(&Content::Class(name)))
}

/// Puts the index of a text behind the others.
pub fn push_text(
    alloc: Global,
    bytes: &mut Vec<u8>,
    pool: &Pool,
    text: &[u16],
) -> Result<(), OutOfMemory>
    ensures { OnOk result (bytes.new.items
        ≡ bytes.old.items ++ two_bytes (index_of pool.now (Utf8 text.now))) }
{
    let text = Text::from_slice(alloc, text)?;
    push_two(bytes, pool.index(&Content::Utf8(text)))
}
