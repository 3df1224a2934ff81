//! The run of a method that was found.
ghost use Rattle.std.specs.Prelude.{◌≡◌, ◌<◌, IfOk, IfSome, drop, false, length};
ghost use Rattle.std.specs.List.{All};
ghost use Rattle.interp_core.specs.Cores.{IsRunnable, core_state, running_stack, store_of};
ghost use Rattle.interp_core.specs.Steps.{Gives};
ghost use Rattle.interp_obj.specs.Calls.{CallsBuiltIn, taken, with_running_stack};
ghost use Rattle.machine_laws.specs.Sound.{IsSound};
ghost use Rattle.machine_model.specs.BuiltInMethods.{built_in_outcome};
ghost use Rattle.machine_model.specs.Conditions.{IsHeldBy};
ghost use Rattle.machine_model.specs.ObjectRows.{built_in_row, enter_row, run_row};
ghost use Rattle.program_model.specs.BuiltIn.{built_in_count};
ghost use Rattle.program_model.specs.Lookup.{is_interface};
ghost use Rattle.program_model.specs.Lookup as Lookup;

use crate::entering::{frame_of, is_overflow};
use crate::lookup::method_at;
use class_grammar::is_abstract;
use interp_built_in::{BuiltInAnswer, run_built_in};
use interp_core::{Core, ObjStep, leave, take};
use jx_base::{Method, OutOfMemory, System, Value};
use program_types::{BUILT_IN_COUNT, STACK_OVERFLOW_ERROR, is_interface};
use std::alloc::Global;

// Takes so many values off the running frame's stack.
fn take_arguments(core: &mut Core, count: usize)
    ensures { core_state core.new ≡ with_running_stack (core_state core.old)
        (drop count (running_stack (core_state core.old))) }
{
    if let Some(mut frame) = core.frames.pop() {
        take(&mut frame.stack, count);
        core.frames.push_reserved(frame);
    }
}

// A frame of the method runs, above the caller's, which stays at its call.
fn enter(
    alloc: Global,
    system: &System,
    core: &mut Core,
    method: u32,
    arguments: &[Value],
) -> Result<ObjStep, OutOfMemory>
    ensures { IfOk result (λ step. Gives step (core_state core.old) (core_state core.new)
        (enter_row system.now (core_state core.old) method
        (taken arguments.now (running_stack (core_state core.old))))) }
{
    if is_overflow(system, method, core.frames.as_slice()) {
        return Ok(ObjStep::Raise(STACK_OVERFLOW_ERROR));
    }
    let Some(frame) = frame_of(alloc, system, method, arguments)? else {
        return Ok(ObjStep::BadCode);
    };
    take_arguments(core, arguments.len());
    core.frames.push(frame)?;
    Ok(ObjStep::Next)
}

// A built-in method of a class has no frame.
fn call_class_method(
    alloc: Global,
    system: &System,
    core: &mut Core,
    method: &Method,
    arguments: &[Value],
) -> Result<ObjStep, OutOfMemory>
    requires system { IsSound system.now }
    requires core { IsRunnable system.now (core_state core.old) }
    requires arguments { All (IsHeldBy (store_of core.old)) arguments.now }
    requires call { CallsBuiltIn system.now (store_of core.old) arguments.now method.now }
    requires built_in { method.now.class.0 < built_in_count }
    requires class { is_interface system.now method.now.class.0 ≡ false }
    ensures { IfOk result (λ step. Gives step (core_state core.old) (core_state core.new)
        (built_in_row system.now (core_state core.old)
        (drop (length arguments.now) (running_stack (core_state core.old)))
        (built_in_outcome system.now (store_of core.old) method.now arguments.now))) }
{
    Ok(
        match run_built_in(alloc, core, system, method, arguments)? {
            BuiltInAnswer::Gives(value) => leave(system, core, arguments.len(), value),
            BuiltInAnswer::Performs(act) => ObjStep::Ask(act),
            BuiltInAnswer::Raises(class) => ObjStep::Raise(class),
            // Object 0 is thrown for want of room.
            BuiltInAnswer::HasNoRoom => ObjStep::Raised(0),
            BuiltInAnswer::Unfit => ObjStep::BadCode,
        },
    )
}

// A built-in method has no frame.
fn call_built_in(
    alloc: Global,
    system: &System,
    core: &mut Core,
    method: &Method,
    arguments: &[Value],
) -> Result<ObjStep, OutOfMemory>
    requires system { IsSound system.now }
    requires core { IsRunnable system.now (core_state core.old) }
    requires arguments { All (IsHeldBy (store_of core.old)) arguments.now }
    requires call { CallsBuiltIn system.now (store_of core.old) arguments.now method.now }
    requires built_in { method.now.class.0 < built_in_count }
    ensures { IfOk result (λ step. Gives step (core_state core.old) (core_state core.new)
        (built_in_row system.now (core_state core.old)
        (drop (length arguments.now) (running_stack (core_state core.old)))
        (built_in_outcome system.now (store_of core.old) method.now arguments.now))) }
{
    // The one interface that is built in declares no method.
    if is_interface(system, method.class.0 as usize) {
        return Ok(ObjStep::BadCode);
    }
    call_class_method(alloc, system, core, method, arguments)
}

/// The method of that place runs with these arguments, which lie on the top of the running frame's
/// stack, the object first.
pub fn run_method(
    alloc: Global,
    system: &System,
    core: &mut Core,
    place: u32,
    arguments: &[Value],
) -> Result<ObjStep, OutOfMemory>
    requires system { IsSound system.now }
    requires core { IsRunnable system.now (core_state core.old) }
    requires arguments { All (IsHeldBy (store_of core.old)) arguments.now }
    requires call { IfSome (Lookup.method_at system.now place)
        (CallsBuiltIn system.now (store_of core.old) arguments.now) }
    ensures { IfOk result (λ step. Gives step (core_state core.old) (core_state core.new)
        (run_row system.now (core_state core.old) place
        (taken arguments.now (running_stack (core_state core.old))))) }
{
    let Some(method) = method_at(system, place) else {
        return Ok(ObjStep::BadCode);
    };
    if is_abstract(method.flags) {
        Ok(ObjStep::BadCode)
    } else if (method.class.0 as usize) < BUILT_IN_COUNT {
        call_built_in(alloc, system, core, method, arguments)
    } else {
        enter(alloc, system, core, place, arguments)
    }
}
