//! Fields of objects (JVMS 6.5, getfield, putfield).
ghost use Rattle.std.specs.Prelude.{◌≡◌, ◌∷◌, drop, slice_get, if◌then◌else◌};
ghost use Rattle.std.specs.Option.{option_and_then, option_map};
ghost use Rattle.jx_base.specs.declared.value.Value.TheVariants as value;
ghost use Rattle.machine_model.specs.ObjectRows as Spec;
ghost use Rattle.machine_model.specs.ObjectRows.{BadCode, leaves};
ghost use Rattle.machine_model.specs.State.{with_cell};
ghost use Rattle.interp_core.specs.Cores.{IsRunnable, core_state, running_stack, store_of};
ghost use Rattle.interp_core.specs.Steps.{Gives};
ghost use Rattle.interp_access.specs.Rows.{Runs};

use crate::taking::{Receiver, receiver_at};
use interp_core::{
    Core, ObjStep, cells_of, class_of_object, kept_value, leave, peek, put_cell, shape_of,
};
use jx_base::{System, Value};
use program_types::{NULL_POINTER_EXCEPTION, Shape, shape_fits, shape_fits_class};

// Whether the object is of the class or below it.
#[tactic(auto, unfolding(machine_model::specs::ObjectRows::is_object_of, program_model::specs::Lookup::class_fits, jx_base::specs::Basics::passes))]
pub(crate) fn is_object_of(system: &System, core: &Core, class: u32, object: u32) -> bool
    ensures { result ≡ Spec.is_object_of system.now (store_of core.now) class object }
{
    match class_of_object(core, object) {
        Some(own) => shape_fits_class(system, false, Shape::Object(own.0), class as usize),
        None => false,
    }
}

// The value as a field of that type keeps it, where it fits the type loosely.
#[tactic(auto, unfolding(machine_model::specs::ObjectRows::fitting_value))]
pub(crate) fn fitting_value(
    system: &System,
    core: &Core,
    value: Value,
    kind: &[u16],
) -> Option<Value>
    ensures { result ≡ Spec.fitting_value system.now (store_of core.now) value kind.now }
{
    if shape_fits(system, true, shape_of(core, value), kind) {
        Some(kept_value(kind, value))
    } else {
        None
    }
}

// The type of the field at a place of the class's layout.
#[tactic(auto, unfolding(machine_model::specs::ObjectRows::field_type, program_model::specs::Lookup::class_at))]
fn field_type(system: &System, class: u32, place: u32) -> Option<&[u16]>
    ensures { option_map (λ x. x.now) result ≡ Spec.field_type system.now class place }
{
    match system.program.classes.as_slice().get(class as usize) {
        Some(found) => match found.fields.as_slice().get(place as usize) {
            Some(field) => Some(field.descriptor.as_slice()),
            None => None,
        },
        None => None,
    }
}

// Pushes the field of an object, which is on the top.
#[tactic(auto, using(crate::proofs::Tops::gives_left), unfolding(machine_model::specs::ObjectRows::get_field_row, machine_model::specs::ObjectRows::given, machine_model::specs::ObjectRows::with_result))]
fn get_field_of(system: &System, core: &mut Core, class: u32, place: u32, object: u32) -> ObjStep
    requires { IsRunnable system.now (core_state core.old) }
    ensures { Gives result (core_state core.old) (core_state core.new)
        (Spec.get_field_row system.now (core_state core.old) class place
        (value.Ref object ∷ drop 1 (running_stack (core_state core.old)))) }
{
    if !is_object_of(system, core, class, object) {
        return ObjStep::BadCode;
    }
    match cells_of(core, object).get(place as usize).copied() {
        Some(value) => leave(system, core, 1, Some(value)),
        None => ObjStep::BadCode,
    }
}

/// Takes an object, and pushes its field.
#[tactic(auto, using(crate::proofs::RowForms::get_field_is), unfolding(program_model::specs::BuiltIn::null_pointer_exception))]
pub fn get_field_row(system: &System, core: &mut Core, class: u32, place: u32) -> ObjStep
    requires { IsRunnable system.now (core_state core.old) }
    ensures { Runs result core.old core.new
        (λ state. Spec.get_field_row system.now state class place) }
{
    match receiver_at(core, 0) {
        Receiver::Null => ObjStep::Raise(NULL_POINTER_EXCEPTION),
        Receiver::Object(object) => get_field_of(system, core, class, place, object),
        Receiver::Other => ObjStep::BadCode,
    }
}

// The value for the field that is on the top, as the field keeps it.
fn value_for(system: &System, core: &Core, class: u32, place: u32) -> Option<Value>
    ensures { result ≡ option_and_then (λ v. option_and_then
        (Spec.fitting_value system.now (store_of core.now) v)
        (Spec.field_type system.now class place))
        (slice_get (running_stack (core_state core.now)) 0) }
{
    let value = peek(core, 0)?;
    fitting_value(system, core, value, field_type(system, class, place)?)
}

// Puts the value into the field of an object, which is the second value.
fn put_field_of(
    system: &System,
    core: &mut Core,
    class: u32,
    place: u32,
    value: Value,
    object: u32,
) -> ObjStep
    requires { IsRunnable system.now (core_state core.old) }
    ensures { Gives result (core_state core.old) (core_state core.new)
        (if Spec.is_object_of system.now (store_of core.old) class object
        then leaves system.now (core_state core.old)
        (with_cell (store_of core.old) object place value)
        (drop 2 (running_stack (core_state core.old))) else BadCode) }
{
    if !is_object_of(system, core, class, object) {
        return ObjStep::BadCode;
    }
    put_cell(core, object, place, value);
    leave(system, core, 2, None)
}

/// Takes a value and an object, and puts the value into the field.
#[tactic(auto, using(crate::proofs::RowForms::put_field_is), unfolding(machine_model::specs::ObjectRows::given, program_model::specs::BuiltIn::null_pointer_exception))]
pub fn put_field_row(system: &System, core: &mut Core, class: u32, place: u32) -> ObjStep
    requires { IsRunnable system.now (core_state core.old) }
    ensures { Runs result core.old core.new
        (λ state. Spec.put_field_row system.now state class place) }
{
    let Some(value) = value_for(system, core, class, place) else {
        return ObjStep::BadCode;
    };
    match receiver_at(core, 1) {
        Receiver::Null => ObjStep::Raise(NULL_POINTER_EXCEPTION),
        Receiver::Object(object) => put_field_of(system, core, class, place, value, object),
        Receiver::Other => ObjStep::BadCode,
    }
}
