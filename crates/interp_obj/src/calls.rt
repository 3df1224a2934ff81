//! Calls of methods (JVMS 6.5, invoke).
ghost use Rattle.std.specs.Prelude.{◌≡◌, ◌<◌, Some, IfOk, true};
ghost use Rattle.interp_core.specs.Cores.{IsRunnable, core_state, running_stack, store_of};
ghost use Rattle.interp_core.specs.Steps.{Gives};
ghost use Rattle.interp_obj.specs.Calls.{IsInstanceCall, instance_row, static_row, taken};
ghost use Rattle.machine_laws.specs.Sound.{IsSound};
ghost use Rattle.machine_model.specs.ObjectRows as Spec;
ghost use Rattle.machine_model.specs.State.{shape_of};
ghost use Rattle.machine_model.specs.State as State;
ghost use Rattle.program_model.specs.Lookup as Lookup;
ghost use Rattle.program_model.specs.Lookup.{shape_fits_class};
ghost use Rattle.program_types.specs.Shapes.{shape_state};

use crate::arguments::{all_fit, top_values};
use crate::lookup::{frame_place, method_at, selector_at};
use crate::portals::call_portal;
use crate::running::run_method;
use crate::selection::selected_method;
use interp_core::{Core, ObjStep, shape_of};
use interp_num::is_null;
use jx_base::{Invocation, Method, OutOfMemory, Selector, System, Value};
use program_types::{NULL_POINTER_EXCEPTION, Shape, parameter_count, shape_fits_class};
use std::alloc::Global;

// The class by which a method is selected: a portal's is its interface.
#[tactic(auto, unfolding(machine_model::specs::State::class_of_shape))]
fn class_of_shape(shape: Shape) -> Option<u32>
    ensures { result ≡ State.class_of_shape (shape_state shape) }
{
    match shape {
        Shape::Object(class) | Shape::Portal(class) => Some(class),
        Shape::Int(_) | Shape::Long | Shape::Null | Shape::Unknown => None,
    }
}

// The method of that selector that the object's class gives runs.
fn call_selected(
    alloc: Global,
    system: &System,
    core: &mut Core,
    method: &Method,
    object: Value,
    arguments: &[Value],
) -> Result<ObjStep, OutOfMemory>
    requires system { IsSound system.now }
    requires core { IsRunnable system.now (core_state core.old) }
    requires call { IsInstanceCall system.now (store_of core.old) method.now object arguments.now }
    ensures { IfOk result (λ step. Gives step (core_state core.old) (core_state core.new)
        (Spec.selected_row system.now (core_state core.old) method.now object
        (taken arguments.now (running_stack (core_state core.old))))) }
{
    let Some(class) = class_of_shape(shape_of(core, object)) else {
        return Ok(ObjStep::BadCode);
    };
    let Some(place) = selected_method(system, class, method.selector.0) else {
        return Ok(ObjStep::BadCode);
    };
    let place = frame_place(place)?;
    run_method(alloc, system, core, place, arguments)
}

// The method found runs, or the one selected, or the call goes through a portal.
fn call_at(
    alloc: Global,
    system: &System,
    core: &mut Core,
    kind: Invocation,
    place: u32,
    method: &Method,
    object: Value,
    arguments: &[Value],
) -> Result<ObjStep, OutOfMemory>
    requires system { IsSound system.now }
    requires core { IsRunnable system.now (core_state core.old) }
    requires call { IsInstanceCall system.now (store_of core.old) method.now object arguments.now }
    requires method { Lookup.method_at system.now place ≡ Some method.now }
    requires fit { shape_fits_class system.now true (shape_of (store_of core.old) object)
        method.now.class.0 ≡ true }
    ensures { IfOk result (λ step. Gives step (core_state core.old) (core_state core.new)
        (Spec.invoke_at system.now (core_state core.old) kind place method.now object
        (taken arguments.now (running_stack (core_state core.old))))) }
{
    match kind {
        Invocation::Special => run_method(alloc, system, core, place, arguments),
        Invocation::Interface => match object {
            Value::Portal(service, _) => {
                call_portal(alloc, core, service, method, &arguments[1..])
            }
            _ => call_selected(alloc, system, core, method, object, arguments),
        },
        Invocation::Virtual | Invocation::Static => {
            call_selected(alloc, system, core, method, object, arguments)
        }
    }
}

// The call on an object, which must fit the class that declares the method.
#[tactic(auto, unfolding(machine_model::specs::ObjectRows::invoke_on, program_model::specs::BuiltIn::null_pointer_exception))]
fn call_on(
    alloc: Global,
    system: &System,
    core: &mut Core,
    kind: Invocation,
    place: u32,
    method: &Method,
    object: Value,
    arguments: &[Value],
) -> Result<ObjStep, OutOfMemory>
    requires system { IsSound system.now }
    requires core { IsRunnable system.now (core_state core.old) }
    requires call { IsInstanceCall system.now (store_of core.old) method.now object arguments.now }
    requires method { Lookup.method_at system.now place ≡ Some method.now }
    ensures { IfOk result (λ step. Gives step (core_state core.old) (core_state core.new)
        (Spec.invoke_on system.now (core_state core.old) kind place method.now object
        (taken arguments.now (running_stack (core_state core.old))))) }
{
    let class = method.class.0 as usize;
    if !shape_fits_class(system, true, shape_of(core, object), class) {
        return Ok(ObjStep::BadCode);
    }
    if is_null(object) {
        return Ok(ObjStep::Raise(NULL_POINTER_EXCEPTION));
    }
    call_at(alloc, system, core, kind, place, method, object, arguments)
}

// The call of a method that has no object.
fn call_static(
    alloc: Global,
    system: &System,
    core: &mut Core,
    place: u32,
    method: &Method,
    selector: &Selector,
) -> Result<ObjStep, OutOfMemory>
    requires system { IsSound system.now }
    requires core { IsRunnable system.now (core_state core.old) }
    requires method { Lookup.method_at system.now place ≡ Some method.now }
    requires selector { Lookup.selector_at system.now method.now.selector.0 ≡ Some selector.now }
    ensures { IfOk result (λ step. Gives step (core_state core.old) (core_state core.new)
        (static_row system.now (core_state core.old) place selector.now)) }
{
    let descriptor = selector.descriptor.as_slice();
    let count = parameter_count(descriptor);
    let Some(arguments) = top_values(alloc, core, count)? else {
        return Ok(ObjStep::BadCode);
    };
    if !all_fit(system, core, true, arguments.as_slice(), descriptor) {
        return Ok(ObjStep::BadCode);
    }
    run_method(alloc, system, core, place, arguments.as_slice())
}

// The call of a method on the object below its arguments.
fn call_instance(
    alloc: Global,
    system: &System,
    core: &mut Core,
    kind: Invocation,
    place: u32,
    method: &Method,
    selector: &Selector,
) -> Result<ObjStep, OutOfMemory>
    requires system { IsSound system.now }
    requires core { IsRunnable system.now (core_state core.old) }
    requires method { Lookup.method_at system.now place ≡ Some method.now }
    requires selector { Lookup.selector_at system.now method.now.selector.0 ≡ Some selector.now }
    ensures { IfOk result (λ step. Gives step (core_state core.old) (core_state core.new)
        (instance_row system.now (core_state core.old) kind place method.now selector.now)) }
{
    let descriptor = selector.descriptor.as_slice();
    let count = parameter_count(descriptor);
    let Some(values) = top_values(alloc, core, count + 1)? else {
        return Ok(ObjStep::BadCode);
    };
    let [object, arguments @ ..] = values.as_slice() else {
        return Ok(ObjStep::BadCode);
    };
    if !all_fit(system, core, true, arguments, descriptor) {
        return Ok(ObjStep::BadCode);
    }
    call_on(
        alloc,
        system,
        core,
        kind,
        place,
        method,
        *object,
        values.as_slice(),
    )
}

/// The call of the method that linking found.
pub fn invoke(
    alloc: Global,
    system: &System,
    core: &mut Core,
    kind: Invocation,
    place: u32,
) -> Result<ObjStep, OutOfMemory>
    requires system { IsSound system.now }
    requires core { IsRunnable system.now (core_state core.old) }
    ensures { IfOk result (λ step. Gives step (core_state core.old) (core_state core.new)
        (Spec.invoke_row system.now (core_state core.old) kind place
        (running_stack (core_state core.old)))) }
{
    let Some(method) = method_at(system, place) else {
        return Ok(ObjStep::BadCode);
    };
    let Some(selector) = selector_at(system, method.selector.0) else {
        return Ok(ObjStep::BadCode);
    };
    match kind {
        Invocation::Static => call_static(alloc, system, core, place, method, selector),
        _ => call_instance(alloc, system, core, kind, place, method, selector),
    }
}
