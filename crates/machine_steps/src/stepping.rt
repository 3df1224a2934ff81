//! One step.
ghost use Rattle.std.specs.Prelude.{IfOk};
ghost use Rattle.interp_core.specs.Cores.{IsRunnable, core_state};
ghost use Rattle.machine_laws.specs.Sound.{IsSound};
ghost use Rattle.machine_steps.specs.Stepping.{AreInstrsOf, AreListed, ComesFrom, SteppedAs};
ghost use Rattle.interp_obj.specs.ObjectSteps.{IsNextInstr};

use crate::instructions::next_instr;
use crate::numbers::step_running;
use crate::throwing::{raise, throw_object};
use interp_core::Core;
use interp_num::NumStep;
use interp_obj::{ObjStep, step_obj};
use jx_base::{Act, Instr, OutOfMemory, System, Value};
use std::alloc::Global;

/// What a step of a thread with frames comes to.
#[derive(Drop)]
pub enum Stepped {
    /// The thread goes on.
    Going,
    /// The object is thrown to a handler whose stack has no room for it.
    Overfull,
    /// Its last frame returned.
    Returned(Option<Value>),
    /// No frame catches the object.
    Threw(u32),
    /// The system is asked for the act.
    Asks(Act),
    /// The code breaks the rules.
    BadCode,
}

// Runs an instruction on objects.
fn step_objects(
    alloc: Global,
    system: &System,
    core: &mut Core,
    instr: &Instr,
) -> Result<Stepped, OutOfMemory>
    requires system { IsSound system.now }
    requires core { IsRunnable system.now (core_state core.old) }
    requires instr { IsNextInstr system.now (core_state core.old) instr.now }
    ensures { IfOk result (λ stepped.
        ComesFrom system.now instr.now (core_state core.old) (core_state core.new) stepped) }
{
    Ok(match step_obj(alloc, core, system, instr)? {
        ObjStep::Next => Stepped::Going,
        ObjStep::Raise(class) => raise(system, core, class),
        ObjStep::Raised(object) => throw_object(system, core, object),
        ObjStep::Ask(act) => Stepped::Asks(act),
        ObjStep::Finish(value) => Stepped::Returned(value),
        ObjStep::BadCode | ObjStep::NotMine => Stepped::BadCode,
    })
}

/// Runs the instruction that the running frame is at. After bad code, an overfull stack or want of
/// memory the core is open. Fuel is the caller's.
pub fn step_frames(alloc: Global, system: &System, core: &mut Core) -> Result<Stepped, OutOfMemory>
    requires system { IsSound system.now }
    requires core { IsRunnable system.now (core_state core.old) }
    requires listed { AreListed system.now }
    requires instructions { AreInstrsOf system.now (core_state core.old) }
    ensures { IfOk result (λ stepped.
        SteppedAs system.now (core_state core.old) (core_state core.new) stepped) }
{
    let Some(instr) = next_instr(system, core) else {
        return Ok(Stepped::BadCode);
    };
    match step_running(system, core, instr) {
        NumStep::Next | NumStep::Jump(_) => Ok(Stepped::Going),
        NumStep::Raise(class) => Ok(raise(system, core, class)),
        NumStep::BadCode => Ok(Stepped::BadCode),
        NumStep::NotMine => step_objects(alloc, system, core, instr),
    }
}
