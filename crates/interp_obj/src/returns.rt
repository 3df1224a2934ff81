//! Returns from methods (JVMS 6.5, return).
ghost use Rattle.std.specs.Prelude.{◌≡◌, option_map};
ghost use Rattle.std.specs.Option.{option_map};
ghost use Rattle.interp_core.specs.Cores.{IsRunnable, core_state, running_stack};
ghost use Rattle.interp_core.specs.Steps.{Gives};
ghost use Rattle.machine_model.specs.ObjectRows as Spec;

use crate::lookup::{method_at, selector_at};
use interp_core::{Core, ObjStep, leave, peek, running, shape_of};
use interp_num::as_kind;
use jx_base::{Kind, System, Value};
use program_types::{is_void, result_type, shape_fits};

// The type of the result of the running frame's method.
#[tactic(auto, using(crate::proofs::Returned::result_is), unfolding(program_model::specs::Lookup::selector_of_method))]
fn result_of<'a>(system: &'a System, core: &Core) -> Option<&'a [u16]>
    ensures { option_map (λ kind. kind.now) result
        ≡ Spec.result_of system.now (core_state core.now).frames }
{
    let frame = running(core)?;
    let method = method_at(system, frame.method)?;
    let selector = selector_at(system, method.selector.0)?;
    Some(result_type(selector.descriptor.as_slice()))
}

// The running frame goes; the one below goes on behind its call, with the result.
#[tactic(auto, unfolding(machine_model::specs::ObjectRows::return_row))]
fn return_to_caller(system: &System, core: &mut Core, value: Option<Value>) -> ObjStep
    requires { IsRunnable system.now (core_state core.old) }
    ensures { Gives result (core_state core.old) (core_state core.new)
        (Spec.return_row system.now (core_state core.old) value) }
{
    let Some(_returned) = core.frames.pop() else {
        return ObjStep::BadCode;
    };
    if core.frames.is_empty() {
        ObjStep::Finish(value)
    } else {
        leave(system, core, 0, value)
    }
}

/// A value of that kind is returned, where it fits the result loosely.
pub fn return_value(system: &System, core: &mut Core, kind: Kind) -> ObjStep
    requires { IsRunnable system.now (core_state core.old) }
    ensures { Gives result (core_state core.old) (core_state core.new)
        (Spec.return_value_row system.now (core_state core.old) kind
        (running_stack (core_state core.old))) }
{
    let Some(top) = peek(core, 0) else {
        return ObjStep::BadCode;
    };
    let Some(value) = as_kind(kind, top) else {
        return ObjStep::BadCode;
    };
    let Some(result) = result_of(system, core) else {
        return ObjStep::BadCode;
    };
    if shape_fits(system, true, shape_of(core, value), result) {
        return_to_caller(system, core, Some(value))
    } else {
        ObjStep::BadCode
    }
}

/// Nothing is returned.
pub fn return_void(system: &System, core: &mut Core) -> ObjStep
    requires { IsRunnable system.now (core_state core.old) }
    ensures { Gives result (core_state core.old) (core_state core.new)
        (Spec.return_void_row system.now (core_state core.old)) }
{
    let Some(result) = result_of(system, core) else {
        return ObjStep::BadCode;
    };
    if is_void(result) {
        return_to_caller(system, core, None)
    } else {
        ObjStep::BadCode
    }
}
