//! Texts as the cells of Strings have them.
ghost use Rattle.std.specs.Prelude.{◌≡◌, ◌++◌, pos, map, IfNone, IfOk, OnOk, All};
ghost use Rattle.std.specs.Option.{option_map};
ghost use Rattle.interp_core.specs.Cores.{store_of};
ghost use Rattle.machine_model.specs.BuiltInMethods as Spec;
ghost use Rattle.machine_model.specs.Conditions.{IsUnit};
ghost use Rattle.machine_model.specs.State.{new_object};
ghost use Rattle.program_model.specs.BuiltIn.{string_class};
ghost use Rattle.std.specs.Str.{bytes_eq};

use interp_core::{Contents, Core, make_object};
use jx_base::{Listed, OutOfMemory, Text, Value};
use program_types::STRING;
use std::alloc::Global;

/// The unit that a cell holds.
#[tactic(auto, unfolding(machine_model::specs::BuiltInMethods::unit_of, jx_base::specs::Basics::not_below_zero))]
pub fn unit_of(cell: Value) -> i32
    ensures { result ≡ pos (Spec.unit_of cell) }
{
    match cell {
        Value::Int(unit) => unit.max(0),
        _ => 0,
    }
}

/// Puts the units of these cells behind others.
#[tactic(auto, unfolding(machine_model::specs::BuiltInMethods::text_cells))]
pub fn push_cells(cells: &mut Vec<Value>, more: &[Value]) -> Result<(), OutOfMemory>
    ensures { OnOk result
        (cells.new.items ≡ cells.old.items ++ Spec.text_cells (map Spec.unit_of more.now)) }
{
    for cell in more {
        cells.push(Value::Int(unit_of(*cell)))?;
    }
    Ok(())
}

/// Puts units of ASCII behind others.
#[tactic(auto, unfolding(machine_model::specs::BuiltInMethods::text_cells))]
pub fn push_ascii(cells: &mut Vec<Value>, ascii: &str) -> Result<(), OutOfMemory>
    ensures { OnOk result (cells.new.items ≡ cells.old.items ++ Spec.text_cells ascii.now) }
{
    for byte in ascii.as_bytes() {
        cells.push(Value::Int(i32::from(*byte)))?;
    }
    Ok(())
}

/// Makes a String of these cells, where it has room.
#[tactic(auto, unfolding(program_model::specs::BuiltIn::string_class))]
pub fn make_string(core: &mut Core, cells: &[Value]) -> Option<u32>
    ensures made { new_object (store_of core.old) string_class cells.now
        ≡ option_map (λ r. (store_of core.new, r)) result }
    ensures unchanged { IfNone result (store_of core.new ≡ store_of core.old) }
    ensures frames { core.new.frames ≡ core.old.frames }
{
    make_object(core, STRING, Contents::Values(cells))
}

/// The text that these cells hold.
#[tactic(auto, using(crate::proofs::TextSteps::unit_small))]
pub fn text_of(alloc: Global, cells: &[Value]) -> Result<Text, OutOfMemory>
    requires { All IsUnit cells.now }
    ensures { IfOk result (λ text. text ≡ map Spec.unit_of cells.now) }
{
    let mut units = Vec::with_capacity(alloc, cells.len())?;
    for cell in cells {
        units.push(unit_of(*cell) as u16)?;
    }
    Ok(Listed::from_vec(units))
}

/// Whether the units are those of a text in ASCII.
pub fn is_ascii_text(units: &[u16], ascii: &str) -> bool
    ensures { result ≡ bytes_eq ascii.now units.now }
{
    let bytes = ascii.as_bytes();
    if units.len() != bytes.len() {
        return false;
    }
    for (i, byte) in bytes.iter().enumerate() {
        if units[i] != u16::from(*byte) {
            return false;
        }
    }
    true
}
