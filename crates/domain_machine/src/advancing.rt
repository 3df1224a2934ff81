//! What a machine holds, up to its next act.
ghost use Rattle.std.specs.Prelude.{IfOk};
ghost use Rattle.domain_machine.specs.Advancing.{AreOne, Arrives, CanAdvance};
ghost use Rattle.domain_machine.specs.Entering.{held_state};
ghost use Rattle.domain_machine.specs.Works.{CanWork, RunsTo, thread_of};
ghost use Rattle.interp_core.specs.Cores.{store_of};
ghost use Rattle.machine_replies.specs.Leaving.{CanRun};

use crate::held::Held;
use crate::next::Next;
use crate::threads::{Thread, exchange_frames, put_thread, take_thread};
use crate::working::run_thread;
use interp_core::Core;
use jx_base::{Act, OutOfMemory, System};
use std::alloc::Global;

// An act of the code, or the end that it comes to. `None` where it met bad code.
fn next_of(act: Option<Act>) -> Option<Next>
    ensures { AreOne result act }
{
    match act {
        Some(Act::End(reason)) => Some(Next::End(reason)),
        Some(act) => Some(Next::Act(act)),
        None => None,
    }
}

// The same of a thread that has its frames.
fn run_own(
    alloc: Global,
    system: &System,
    core: &mut Core,
    thread: &mut Thread,
    fuel: &mut u32,
) -> Result<Option<Act>, OutOfMemory>
    requires system { CanRun system.now }
    requires thread { CanWork system.now (store_of core.old) fuel.old (thread_of thread.old) }
    ensures { IfOk result (RunsTo system.now (store_of core.old) fuel.old (thread_of thread.old)
        (store_of core.new) fuel.new (thread_of thread.new)) }
{
    exchange_frames(core, thread);
    let act = run_thread(alloc, system, core, thread, fuel)?;
    exchange_frames(core, thread);
    Ok(act)
}

/// Runs the running thread up to its next act. `None` where it met bad code: what is held then is
/// open.
pub fn run_held(
    alloc: Global,
    system: &System,
    held: &mut Held,
) -> Result<Option<Next>, OutOfMemory>
    requires system { CanRun system.now }
    requires held { CanAdvance system.now (held_state held.old) }
    ensures { IfOk result (Arrives system.now (held_state held.old) (held_state held.new)) }
{
    let Some(running) = held.running else {
        return Ok(Some(Next::Idle));
    };
    let place = running as usize;
    if place >= held.threads.len() {
        return Ok(None);
    }
    let mut thread = take_thread(alloc, &mut held.threads, place);
    let act = run_own(alloc, system, &mut held.core, &mut thread, &mut held.fuel)?;
    put_thread(&mut held.threads, place, thread);
    Ok(next_of(act))
}
