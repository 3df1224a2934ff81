//! Texts in units of UTF-16.
ghost use Rattle.std.specs.Prelude.{◌≡◌, IfOk, option_map};
ghost use Rattle.asm_words.specs.Words.{units_of};

use jx_base::OutOfMemory;
use std::alloc::Global;
use std::str;

/// The units of a line of UTF-8, or none where it isn't UTF-8.
pub fn units_of(alloc: Global, line: &[u8]) -> Result<Option<Vec<u16>>, OutOfMemory>
    ensures { IfOk result (λ units. option_map (λ v. v.items) units ≡ units_of line.now) }
{
    let Ok(text) = str::from_utf8(line) else {
        return Ok(None);
    };
    let mut units = Vec::with_capacity(alloc, line.len())?;
    for unit in text.encode_utf16() {
        units.push(unit)?;
    }
    Ok(Some(units))
}
