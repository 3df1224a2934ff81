//! The array classes that code names or makes.
ghost use Rattle.std.specs.Prelude.{◌≡◌, ◌≤◌, OnOk, length};
ghost use Rattle.std.specs.Str.{bytes_eq};
ghost use Rattle.jx_base.specs.Basics.{all_added};
ghost use Rattle.link_model.specs.ClassFiles.{arrays_of_name};
ghost use Rattle.link_model.specs.LinkFaults.{dimensions_of};

use indexmap::IndexSet;
use jx_base::{Listed, OutOfMemory, Text};
use std::alloc::Global;

pub const MARK: u16 = b'[' as u16;

// How many dimensions a class has.
fn dimensions(class: &[u16]) -> usize
    ensures count { result ≡ dimensions_of class.now }
    ensures within { result ≤ length class.now }
{
    let mut count = 0;
    while let Some(unit) = class.get(count) {
        if *unit != MARK {
            break;
        }
        count += 1;
    }
    count
}

/// Adds the array classes of a class name, the innermost first: none of a class that is no array.
pub fn add_arrays_of(
    alloc: Global,
    names: &mut IndexSet<Text>,
    class: &[u16],
) -> Result<(), OutOfMemory>
    ensures { OnOk result (names.new.keys
        ≡ all_added bytes_eq names.old.keys (arrays_of_name class.now)) }
{
    let mut left = dimensions(class);
    while left > 0 {
        left -= 1;
        names.insert(Listed::from_slice(alloc, &class[left..])?)?;
    }
    Ok(())
}
