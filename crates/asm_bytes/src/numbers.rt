//! Numbers behind other bytes.
ghost use Rattle.std.specs.Prelude.{◌≡◌, ◌++◌, length, OnOk};
ghost use Rattle.asm_constants.specs.Pools.{two_bytes};
ghost use Rattle.asm_bytes.specs.Files.{four_bytes};

use asm_constants::{four_bytes, two_bytes};
use jx_base::OutOfMemory;

/// Puts the last two bytes of a number behind the others.
pub fn push_two(bytes: &mut Vec<u8>, number: usize) -> Result<(), OutOfMemory>
    ensures { OnOk result (bytes.new.items ≡ bytes.old.items ++ two_bytes number) }
{
    bytes.extend_from_slice(&two_bytes(number))
}

/// Puts the last four bytes of a number behind the others.
pub fn push_four(bytes: &mut Vec<u8>, number: usize) -> Result<(), OutOfMemory>
    ensures { OnOk result (bytes.new.items ≡ bytes.old.items ++ four_bytes number) }
{
    bytes.extend_from_slice(&four_bytes(number))
}

/// Puts a part behind the others, with its length in front of it.
pub fn push_counted(bytes: &mut Vec<u8>, part: &[u8]) -> Result<(), OutOfMemory>
    ensures { OnOk result (bytes.new.items
        ≡ bytes.old.items ++ four_bytes (length part.now) ++ part.now) }
{
    push_four(bytes, part.len())?;
    bytes.extend_from_slice(part)
}
