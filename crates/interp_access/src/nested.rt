//! Arrays of arrays (JVMS 6.5, multianewarray).
ghost use Rattle.std.specs.Prelude.{◌≡◌, ◌<◌, ◌^◌, drop, slice_get};
ghost use Rattle.std.specs.Option.{option_and_then};
ghost use Rattle.machine_model.specs.ObjectRows as Spec;
ghost use Rattle.machine_model.specs.State.{default_of, new_array};
ghost use Rattle.program_model.specs.Lookup.{class_count, class_named};
ghost use Rattle.interp_core.specs.Cores.{IsRunnable, core_state, running_stack, store_of};
ghost use Rattle.interp_access.specs.Nested as Lengths;
ghost use Rattle.interp_access.specs.Nested.{MakesWhole, nested_lengths};
ghost use Rattle.interp_access.specs.Rows.{Runs};

use crate::array_names::class_of_name;
use crate::leaving::OUT_OF_MEMORY_ERROR;
use interp_core::{Core, ObjStep, default_of, leave, make_array, peek, put_cell};
use jx_base::{System, Value};
use program_types::NEGATIVE_SIZE_EXCEPTION;

#[tactic(auto, unfolding(crate::specs::Nested::is_int))]
fn is_int(value: Option<Value>) -> bool
    ensures { result ≡ Lengths.is_int value }
{
    matches!(value, Some(Value::Int(_)))
}

#[tactic(auto, unfolding(crate::specs::Nested::is_negative))]
fn is_negative(value: Option<Value>) -> bool
    ensures { result ≡ Lengths.is_negative value }
{
    match value {
        Some(Value::Int(number)) => number < 0,
        _ => false,
    }
}

// Whether the uppermost values, so many, are there and ints.
fn are_ints(core: &Core, count: u32) -> bool
    ensures { result ≡ Lengths.are_ints (running_stack (core_state core.now)) 0 count }
{
    for above in 0..count {
        if !is_int(peek(core, above as usize)) {
            return false;
        }
    }
    true
}

// Whether one of the uppermost values, so many, is an int below 0.
fn has_negative(core: &Core, count: u32) -> bool
    ensures { result ≡ Lengths.has_negative (running_stack (core_state core.now)) 0 count }
{
    for above in 0..count {
        if is_negative(peek(core, above as usize)) {
            return true;
        }
    }
    false
}

// The length that has so many values above it.
#[tactic(auto, unfolding(crate::specs::Nested::length_of, jx_base::specs::Basics::not_below_zero))]
fn length_at(core: &Core, above: u32) -> u32
    ensures { result ≡ Lengths.length_of (slice_get (running_stack (core_state core.now)) above) }
{
    match peek(core, above as usize) {
        Some(Value::Int(number)) if number >= 0 => number as u32,
        _ => 0,
    }
}

// The type of the elements of the arrays of that type.
fn element_of(kind: &[u16]) -> &[u16]
    ensures { result.now ≡ drop 1 kind.now }
{
    match kind {
        [_, element @ ..] => element,
        [] => kind,
    }
}

// Makes an array of the class of that name, alone.
fn make_alone(system: &System, core: &mut Core, name: &[u16], count: u32) -> Option<u32>
    requires { class_count system.now < 2 ^ 32 }
    ensures made { MakesWhole result (store_of core.new) (Spec.making_of (store_of core.old)
        (option_and_then
        (λ c. new_array (store_of core.old) c count (default_of (drop 1 name.now)))
        (class_named system.now name.now))) }
    ensures frames { core.new.frames ≡ core.old.frames }
{
    let class = class_of_name(system, name)?;
    make_array(core, class, count, default_of(element_of(name)))
}

// Makes an array of the class of that name, with as many of its dimensions as there are lengths on the
// top. Each element is made whole before the next one. `None` where one had no room; what was made
// stays.
fn make_nested(system: &System, core: &mut Core, name: &[u16], dimensions: u32) -> Option<u32>
    requires { class_count system.now < 2 ^ 32 }
    ensures made { MakesWhole result (store_of core.new) (Spec.nested_arrays system.now
        (nested_lengths (running_stack (core_state core.old)) dimensions) name.now
        (store_of core.old)) }
    ensures frames { core.new.frames ≡ core.old.frames }
{
    if dimensions == 0 {
        return None;
    }
    let inner = dimensions - 1;
    let count = length_at(core, inner);
    let array = make_alone(system, core, name, count)?;
    if inner == 0 {
        return Some(array);
    }
    for place in 0..count {
        let element = make_nested(system, core, element_of(name), inner)?;
        put_cell(core, array, place, Value::Ref(element));
    }
    Some(array)
}

/// Takes as many lengths as dimensions, and pushes an array of arrays of the class of that name. Where
/// there is no room for all of it object 0 is thrown, and what was made stays.
pub fn multi_array_row(system: &System, core: &mut Core, name: &[u16], dimensions: u32) -> ObjStep
    requires { IsRunnable system.now (core_state core.old) }
    ensures { Runs result core.old core.new
        (λ state. Spec.multi_array_row system.now state name.now dimensions) }
{
    if !are_ints(core, dimensions) {
        return ObjStep::BadCode;
    }
    if has_negative(core, dimensions) {
        return ObjStep::Raise(NEGATIVE_SIZE_EXCEPTION);
    }
    match make_nested(system, core, name, dimensions) {
        Some(array) => leave(system, core, dimensions as usize, Some(Value::Ref(array))),
        None => ObjStep::Raised(OUT_OF_MEMORY_ERROR),
    }
}
