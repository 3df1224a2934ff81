//! Running the frames of a thread.
ghost use Rattle.std.specs.Prelude.{IfOk};
ghost use Rattle.interp_core.specs.Cores.{core_state};
ghost use Rattle.machine_replies.specs.Leaving.{CanRun};
ghost use Rattle.domain_machine.specs.Works.{HasSpent, IsLiving, Stops};

use interp_core::Core;
use jx_base::{Act, OutOfMemory, Reason, System, Value};
use machine_steps::{Stepped, next_instr, step_frames};
use std::alloc::Global;

/// Where the frames of a thread stop.
#[derive(Drop)]
pub enum Stop {
    /// The next step asks for the act.
    Asks(Act),
    /// The last frame returned.
    Returned(Option<Value>),
    /// No frame catches the object.
    Threw(u32),
    /// The code breaks the rules.
    Bad,
}

// What a thread without fuel comes to: past its code that is bad code.
fn stop_without_fuel(system: &System, core: &Core) -> Stop
    requires system { CanRun system.now }
    requires core { IsLiving system.now (core_state core.now) 0 }
    ensures stops { Stops system.now (core_state core.now) 0 (core_state core.now) 0 result }
    ensures spent { HasSpent result 0 0 }
{
    match next_instr(system, core) {
        Some(_) => Stop::Asks(Act::End(Reason::Fuel)),
        None => Stop::Bad,
    }
}

/// Runs the instructions of a thread that goes on, up to its next act or to the end of its frames.
/// After bad code the core is open.
pub fn run_frames(
    alloc: Global,
    system: &System,
    core: &mut Core,
    fuel: &mut u32,
) -> Result<Stop, OutOfMemory>
    requires system { CanRun system.now }
    requires core { IsLiving system.now (core_state core.old) fuel.old }
    ensures stops { IfOk result (λ stop. Stops system.now (core_state core.old) fuel.old
        (core_state core.new) fuel.new stop) }
    ensures spent { IfOk result (λ stop. HasSpent stop fuel.old fuel.new) }
{
    while *fuel > 0 {
        match step_frames(alloc, system, core)? {
            Stepped::Going => *fuel -= 1,
            Stepped::Returned(value) => {
                *fuel -= 1;
                return Ok(Stop::Returned(value));
            }
            Stepped::Threw(object) => {
                *fuel -= 1;
                return Ok(Stop::Threw(object));
            }
            Stepped::Asks(act) => return Ok(Stop::Asks(act)),
            Stepped::Overfull | Stepped::BadCode => return Ok(Stop::Bad),
        }
    }
    Ok(stop_without_fuel(system, core))
}
