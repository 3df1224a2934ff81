//! How a method begins in a thread without frames.
ghost use Rattle.std.specs.Prelude.{◌≡◌, [], IfOk};
ghost use Rattle.interp_core.specs.Cores.{core_state};
ghost use Rattle.machine_model.specs.MachineThreads.{after_begin};
ghost use Rattle.machine_replies.specs.Leaving.{Comes};

use crate::stage::Stage;
use crate::throwing::raise_at;
use interp_core::Core;
use interp_frames::{Begun, begin};
use jx_base::{OutOfMemory, System, Value};
use program_types::STACK_OVERFLOW_ERROR;
use std::alloc::Global;

/// The method begins with these arguments.
pub fn begin_method(
    alloc: Global,
    system: &System,
    core: &mut Core,
    method: u32,
    arguments: &[Value],
) -> Result<Stage, OutOfMemory>
    requires { (core_state core.old).frames ≡ [] }
    ensures { IfOk result (λ stage. Comes (core_state core.old) (core_state core.new) stage
        (λ st t x. after_begin system.now st t x method arguments.now)) }
{
    match begin(alloc, core, system, method, arguments)? {
        Begun::Going => Ok(Stage::Going),
        Begun::Overflow => Ok(raise_at(system, core, STACK_OVERFLOW_ERROR)),
        Begun::NoPlace => Ok(Stage::Bad),
    }
}
