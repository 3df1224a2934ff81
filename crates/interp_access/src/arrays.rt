//! Arrays (JVMS 6.5, newarray, anewarray, arraylength, the loads and stores of elements).
ghost use Rattle.std.specs.Prelude.{◌≡◌, ◌<◌, ◌≤◌, ◌∷◌, [], ℕ, List, IfSome, pos, drop, length};
ghost use Rattle.std.specs.Option.{option_and_then, option_map};
ghost use Rattle.std.specs.Str.{bytes_eq};
ghost use Rattle.jx_base.specs.declared.value.Value.TheVariants as value;
ghost use Rattle.machine_laws.specs.Values.{cell_limit};
ghost use Rattle.machine_model.specs.ObjectRows as Spec;
ghost use Rattle.machine_model.specs.State as StateSpec;
ghost use Rattle.program_model.specs.Lookup.{class_named, type_of_name};
ghost use Rattle.interp_core.specs.Cores.{IsRunnable, core_state, running_stack, store_of};
ghost use Rattle.interp_core.specs.Steps.{Gives};
ghost use Rattle.interp_access.specs.Rows.{Runs};

use crate::array_names::{array_class, reference_array_class};
use crate::leaving::leave_new;
use crate::taking::{Receiver, as_length, int_at, kind_at, receiver_at};
use interp_core::{
    Core, ObjStep, cells_of, class_of_object, default_of, kept_value, leave, make_array, put_cell,
    shape_of,
};
use jx_base::{ClassId, Element, Kind, System, Value};
use program_types::{
    ARRAY_INDEX_EXCEPTION, ARRAY_STORE_EXCEPTION, NEGATIVE_SIZE_EXCEPTION, NULL_POINTER_EXCEPTION,
    is_reference_type, shape_fits,
};

// The type of one letter.
fn is_type(kind: &[u16], letter: u8) -> bool
    ensures { result ≡ bytes_eq kind.now (letter ∷ []) }
{
    kind == [u16::from(letter)].as_slice()
}

// Whether arrays of that component hold such elements.
#[tactic(auto, unfolding(machine_model::specs::ObjectRows::is_element_type))]
fn is_element_type(element: Element, kind: &[u16]) -> bool
    ensures { result ≡ Spec.is_element_type element kind.now }
{
    match element {
        Element::Int => is_type(kind, b'I'),
        Element::Long => is_type(kind, b'J'),
        Element::Reference => is_reference_type(kind),
        Element::Byte => is_type(kind, b'B') || is_type(kind, b'Z'),
        Element::Char => is_type(kind, b'C'),
        Element::Short => is_type(kind, b'S'),
    }
}

// The kind of value that such an element is.
#[tactic(auto, unfolding(machine_model::specs::ObjectRows::kind_of))]
fn kind_of(element: Element) -> Kind
    ensures { result ≡ Spec.kind_of element }
{
    match element {
        Element::Long => Kind::Long,
        Element::Reference => Kind::Reference,
        _ => Kind::Int,
    }
}

// The type of an array object's elements.
#[tactic(auto, unfolding(machine_model::specs::ObjectRows::component_of, program_model::specs::Lookup::class_at))]
fn component_of<'s>(system: &'s System, core: &Core, object: u32) -> Option<&'s [u16]>
    ensures { option_map (λ x. x.now) result
        ≡ Spec.component_of system.now (store_of core.now) object }
{
    let class = class_of_object(core, object)?;
    let found = system.program.classes.as_slice().get(class.0 as usize)?;
    match &found.component {
        Some(component) => Some(component.as_slice()),
        None => None,
    }
}

// The type of an array object's elements, where they are such elements.
#[tactic(auto, unfolding(machine_model::specs::ObjectRows::component_for))]
fn component_for<'s>(
    system: &'s System,
    core: &Core,
    element: Element,
    object: u32,
) -> Option<&'s [u16]>
    ensures { option_map (λ x. x.now) result
        ≡ Spec.component_for system.now (store_of core.now) element object }
{
    let kind = component_of(system, core, object)?;
    if is_element_type(element, kind) {
        Some(kind)
    } else {
        None
    }
}

// An index as a place among so many.
#[tactic(auto, unfolding(machine_model::specs::ObjectRows::place_in))]
fn place_in(index: i32, count: usize) -> Option<u32>
    ensures place { result ≡ Spec.place_in index count }
    ensures within { IfSome result (λ place. place < count) }
{
    if index >= 0 && (index as usize) < count {
        Some(index as u32)
    } else {
        None
    }
}

// Pushes an element of an array.
#[tactic(auto, using(crate::proofs::Tops::gives_left), unfolding(machine_model::specs::ObjectRows::load_row, machine_model::specs::ObjectRows::given, machine_model::specs::ObjectRows::at_index, machine_model::specs::ObjectRows::with_result, program_model::specs::BuiltIn::array_index_exception))]
fn load_from(system: &System, core: &mut Core, element: Element, index: i32, array: u32) -> ObjStep
    requires { IsRunnable system.now (core_state core.old) }
    ensures { Gives result (core_state core.old) (core_state core.new)
        (Spec.load_row system.now (core_state core.old) element
        (value.Int index ∷ value.Ref array ∷ drop 2 (running_stack (core_state core.old)))) }
{
    if component_for(system, core, element, array).is_none() {
        return ObjStep::BadCode;
    }
    let cells = cells_of(core, array);
    let Some(place) = place_in(index, cells.len()) else {
        return ObjStep::Raise(ARRAY_INDEX_EXCEPTION);
    };
    let value = cells[place as usize];
    leave(system, core, 2, Some(value))
}

/// Takes an index and an array, and pushes the element.
#[tactic(auto, using(crate::proofs::RowForms::load_is), unfolding(machine_model::specs::ObjectRows::given, program_model::specs::BuiltIn::null_pointer_exception))]
pub fn load_row(system: &System, core: &mut Core, element: Element) -> ObjStep
    requires { IsRunnable system.now (core_state core.old) }
    ensures { Runs result core.old core.new (λ state. Spec.load_row system.now state element) }
{
    let Some(index) = int_at(core, 0) else {
        return ObjStep::BadCode;
    };
    match receiver_at(core, 1) {
        Receiver::Null => ObjStep::Raise(NULL_POINTER_EXCEPTION),
        Receiver::Object(array) => load_from(system, core, element, index, array),
        Receiver::Other => ObjStep::BadCode,
    }
}

// Stores a value at an index of an array, if it fits the elements.
#[tactic(auto, using(crate::proofs::Tops::gives_left), unfolding(machine_model::specs::ObjectRows::store_in, machine_model::specs::ObjectRows::given, machine_model::specs::ObjectRows::at_index, machine_model::specs::ObjectRows::with_result, program_model::specs::BuiltIn::array_index_exception, program_model::specs::BuiltIn::array_store_exception))]
fn store_in(
    system: &System,
    core: &mut Core,
    element: Element,
    value: Value,
    index: i32,
    array: u32,
) -> ObjStep
    requires { IsRunnable system.now (core_state core.old) }
    ensures { Gives result (core_state core.old) (core_state core.new)
        (Spec.store_in system.now (core_state core.old) element value index array
        (drop 3 (running_stack (core_state core.old)))) }
{
    let Some(kind) = component_for(system, core, element, array) else {
        return ObjStep::BadCode;
    };
    let Some(place) = place_in(index, cells_of(core, array).len()) else {
        return ObjStep::Raise(ARRAY_INDEX_EXCEPTION);
    };
    if !shape_fits(system, false, shape_of(core, value), kind) {
        return ObjStep::Raise(ARRAY_STORE_EXCEPTION);
    }
    put_cell(core, array, place, kept_value(kind, value));
    leave(system, core, 3, None)
}

/// Takes a value, an index and an array, and stores the value.
#[tactic(auto, using(crate::proofs::RowForms::store_is), unfolding(machine_model::specs::ObjectRows::given, program_model::specs::BuiltIn::null_pointer_exception))]
pub fn store_row(system: &System, core: &mut Core, element: Element) -> ObjStep
    requires { IsRunnable system.now (core_state core.old) }
    ensures { Runs result core.old core.new (λ state. Spec.store_row system.now state element) }
{
    let Some(value) = kind_at(core, 0, kind_of(element)) else {
        return ObjStep::BadCode;
    };
    let Some(index) = int_at(core, 1) else {
        return ObjStep::BadCode;
    };
    match receiver_at(core, 2) {
        Receiver::Null => ObjStep::Raise(NULL_POINTER_EXCEPTION),
        Receiver::Object(array) => store_in(system, core, element, value, index, array),
        Receiver::Other => ObjStep::BadCode,
    }
}

// How many values those are.
fn count_of(cells: &[Value]) -> i32
    requires { length cells.now ≤ cell_limit }
    ensures { result ≡ pos (length cells.now) }
{
    cells.len() as i32
}

// Pushes the length of an array, which is on the top.
#[tactic(auto, using(crate::proofs::Tops::gives_left), unfolding(machine_model::specs::ObjectRows::length_row, machine_model::specs::ObjectRows::given, machine_model::specs::ObjectRows::with_result))]
fn length_of(system: &System, core: &mut Core, array: u32) -> ObjStep
    requires { IsRunnable system.now (core_state core.old) }
    ensures { Gives result (core_state core.old) (core_state core.new)
        (Spec.length_row system.now (core_state core.old)
        (value.Ref array ∷ drop 1 (running_stack (core_state core.old)))) }
{
    if component_of(system, core, array).is_none() {
        return ObjStep::BadCode;
    }
    let count = count_of(cells_of(core, array));
    leave(system, core, 1, Some(Value::Int(count)))
}

/// Takes an array, and pushes its length.
#[tactic(auto, using(crate::proofs::RowForms::length_is), unfolding(program_model::specs::BuiltIn::null_pointer_exception))]
pub fn length_row(system: &System, core: &mut Core) -> ObjStep
    requires { IsRunnable system.now (core_state core.old) }
    ensures { Runs result core.old core.new (Spec.length_row system.now) }
{
    match receiver_at(core, 0) {
        Receiver::Null => ObjStep::Raise(NULL_POINTER_EXCEPTION),
        Receiver::Object(array) => length_of(system, core, array),
        Receiver::Other => ObjStep::BadCode,
    }
}

// Takes a length, and pushes an array of that class, whose elements are all the same.
fn new_array(system: &System, core: &mut Core, class: Option<ClassId>, element: Value) -> ObjStep
    requires { IsRunnable system.now (core_state core.old) }
    ensures { (kind : List ℕ) → option_map (λ c. c.0) class ≡ class_named system.now (91 ∷ kind)
        → element ≡ StateSpec.default_of kind
        → Runs result core.old core.new (λ state. Spec.new_array_row system.now state kind) }
{
    let Some(count) = int_at(core, 0) else {
        return ObjStep::BadCode;
    };
    let Some(count) = as_length(count) else {
        return ObjStep::Raise(NEGATIVE_SIZE_EXCEPTION);
    };
    let Some(class) = class else {
        return ObjStep::BadCode;
    };
    let made = make_array(core, class, count, element);
    leave_new(system, core, 1, made)
}

/// Takes a length, and pushes an array of elements of that type.
pub fn new_array_row(system: &System, core: &mut Core, kind: &[u16]) -> ObjStep
    requires { IsRunnable system.now (core_state core.old) }
    ensures { Runs result core.old core.new
        (λ state. Spec.new_array_row system.now state kind.now) }
{
    new_array(system, core, array_class(system, kind), default_of(kind))
}

/// Takes a length, and pushes an array of objects of the class of that name.
pub fn new_reference_array_row(system: &System, core: &mut Core, name: &[u16]) -> ObjStep
    requires { IsRunnable system.now (core_state core.old) }
    ensures { Runs result core.old core.new
        (λ state. Spec.new_array_row system.now state (type_of_name name.now)) }
{
    let class = reference_array_class(system, name);
    new_array(system, core, class, Value::Null)
}
