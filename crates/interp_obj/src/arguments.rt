//! The arguments of a call.
ghost use Rattle.std.specs.Prelude.{◌≡◌, IfOk};
ghost use Rattle.interp_core.specs.Cores.{core_state, running_stack, store_of};
ghost use Rattle.interp_obj.specs.Calls.{AreOnTop};
ghost use Rattle.machine_model.specs.ObjectRows as Spec;
ghost use Rattle.program_model.specs.Types.{parameter_types};

use interp_core::{Core, peek, running, shape_of};
use jx_base::{OutOfMemory, System, Value};
use program_types::{Parameters, shape_fits};
use std::alloc::Global;

/// The topmost values of the running frame's stack, the deepest first. `None` where there are not so
/// many.
pub fn top_values(
    alloc: Global,
    core: &Core,
    count: usize,
) -> Result<Option<Vec<Value>>, OutOfMemory>
    ensures { IfOk result (AreOnTop (running_stack (core_state core.now)) count) }
{
    let mut values = Vec::with_capacity(alloc, count)?;
    let mut above = count;
    while above > 0 {
        above -= 1;
        let Some(value) = peek(core, above) else {
            return Ok(None);
        };
        values.push(value)?;
    }
    Ok(Some(values))
}

/// Whether each value fits the type of its parameter, loosely or not, and there are as many.
pub fn all_fit(
    system: &System,
    core: &Core,
    loose: bool,
    values: &[Value],
    descriptor: &[u16],
) -> bool
    ensures { result ≡ Spec.all_fit system.now loose (store_of core.now) values.now
        (parameter_types descriptor.now) }
{
    let mut parameters = Parameters::of(descriptor);
    for value in values {
        let Some(kind) = parameters.next() else {
            return false;
        };
        if !shape_fits(system, loose, shape_of(core, *value), kind) {
            return false;
        }
    }
    parameters.next().is_none()
}
