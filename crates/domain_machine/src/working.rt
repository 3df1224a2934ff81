//! Running a thread up to its next act.
ghost use Rattle.std.specs.Prelude.{◌≡◌, [], ℕ, IfOk, reverse};
ghost use Rattle.interp_core.specs.Cores.{core_state, store_of};
ghost use Rattle.machine_model.specs.MachineThreads.{after_finish};
ghost use Rattle.machine_model.specs.State.{State, Thread as OneThread};
ghost use Rattle.machine_replies.specs.Leaving.{CanRun, HasCome, HasCoreOf};
ghost use Rattle.domain_machine.specs.Works.{CanWork, Finishes, RunsTo, working};

use crate::running::{Stop, run_frames};
use crate::threads::Thread;
use interp_core::Core;
use jx_base::{Act, OutOfMemory, System, Value};
use machine_calls::ending_act;
use machine_replies::{Stage, begin_method};
use machine_start::start_arguments;
use std::alloc::Global;

/// The thread, whose last frame returned, goes on with the next method that waits. Where none
/// waits, it has returned the value.
pub fn finish(
    alloc: Global,
    system: &System,
    core: &mut Core,
    waiting: &mut Vec<u32>,
    value: Option<Value>,
) -> Result<Stage, OutOfMemory>
    requires { (core_state core.old).frames ≡ [] }
    ensures { IfOk result (Finishes system.now (core_state core.old)
        (reverse waiting.old.items) value (core_state core.new) (reverse waiting.new.items)) }
{
    let Some(method) = waiting.pop() else {
        return Ok(Stage::Returned(value));
    };
    let arguments = start_arguments(alloc, system, method)?;
    begin_method(alloc, system, core, method, arguments.as_slice())
}

/// Runs the thread, whose frames are the core's, up to its next act. `None` where it met bad code:
/// what is left then is open.
pub fn run_thread(
    alloc: Global,
    system: &System,
    core: &mut Core,
    thread: &mut Thread,
    fuel: &mut u32,
) -> Result<Option<Act>, OutOfMemory>
    requires system { CanRun system.now }
    requires thread { CanWork system.now (store_of core.old) fuel.old
        (working core.old thread.old) }
    ensures { IfOk result (RunsTo system.now (store_of core.old) fuel.old
        (working core.old thread.old) (store_of core.new) fuel.new
        (working core.new thread.new)) }
{
    while let Stage::Going = thread.stage {
        match run_frames(alloc, system, core, fuel)? {
            Stop::Asks(act) => return Ok(Some(act)),
            Stop::Bad => return Ok(None),
            Stop::Threw(object) => thread.stage = Stage::Threw(object),
            Stop::Returned(value) => {
                thread.stage = finish(alloc, system, core, &mut thread.waiting, value)?;
                if let Stage::Bad = thread.stage {
                    return Ok(None);
                }
            }
        }
    }
    Ok(Some(ending_act(alloc, core, thread.call, thread.stage)?))
}
