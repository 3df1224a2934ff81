//! The objects of a core.
ghost use Rattle.std.specs.Prelude.{◌≡◌, option_map};
ghost use Rattle.std.specs.Option.{option_map};
ghost use Rattle.machine_model.specs.State as Spec;
ghost use Rattle.program_types.specs.Shapes.{shape_state};
ghost use Rattle.interp_core.specs.Cores.{store_of};

use crate::cores::Core;
use jx_base::{ClassId, Value};
use program_types::{MEMORY, Shape};

/// The class of an object. `None` where there is no such object.
#[tactic(auto, unfolding(machine_model::specs::State::class_of_object))]
pub fn class_of_object(core: &Core, object: u32) -> Option<ClassId>
    ensures { option_map (λ c. c.0) result
        ≡ Spec.class_of_object (store_of core.now) object }
{
    if core.heap.has_object(object) {
        Some(core.heap.class_of(object))
    } else {
        None
    }
}

/// What decides which types a value fits.
#[tactic(auto, unfolding(machine_model::specs::State::shape_of, program_model::specs::BuiltIn::memory_class))]
pub fn shape_of(core: &Core, value: Value) -> Shape
    ensures { shape_state result ≡ Spec.shape_of (store_of core.now) value }
{
    match value {
        Value::Int(number) => Shape::Int(number),
        Value::Long(_) => Shape::Long,
        Value::Null => Shape::Null,
        Value::Portal(_, iface) => Shape::Portal(iface.0),
        Value::Mem(_) => Shape::Object(MEMORY.0),
        Value::Ref(object) => match class_of_object(core, object) {
            Some(class) => Shape::Object(class.0),
            None => Shape::Unknown,
        },
    }
}

/// The cells of an object. There are none where there is no such object.
#[tactic(auto, unfolding(machine_model::specs::State::cells_of))]
pub fn cells_of(core: &Core, object: u32) -> &[Value]
    ensures { result.now ≡ Spec.cells_of (store_of core.now) object }
{
    if core.heap.has_object(object) {
        core.heap.cells(object)
    } else {
        &[]
    }
}

/// Puts the value into a cell of an object, where there is such a cell.
pub fn put_cell(core: &mut Core, object: u32, cell: u32, value: Value)
    ensures store { store_of core.new ≡ Spec.with_cell (store_of core.old) object cell value }
    ensures frames { core.new.frames ≡ core.old.frames }
{
    if (cell as usize) < cells_of(core, object).len() {
        core.heap.put(object, cell, value);
    }
}
