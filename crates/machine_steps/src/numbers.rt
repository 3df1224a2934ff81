//! Instructions that need the running frame alone.
ghost use Rattle.std.specs.List.{All};
ghost use Rattle.interp_core.specs.Cores.{HasShortCodes, core_state};
ghost use Rattle.machine_model.specs.Conditions.{IsFrameOf};
ghost use Rattle.machine_steps.specs.Stepping.{HasRun, IsAt};

use interp_core::{Core, pc_behind};
use interp_num::{NumStep, step_num};
use jx_base::{Instr, System};

/// Runs an instruction on numbers at the running frame, which goes on behind it or at its target.
pub fn step_running(system: &System, core: &mut Core, instr: &Instr) -> NumStep
    requires codes { HasShortCodes system.now }
    requires frames { All (IsFrameOf system.now) (core_state core.old).frames }
    requires instr { IsAt system.now (core_state core.old) instr.now }
    ensures { HasRun system.now instr.now (core_state core.old) (core_state core.new) result }
{
    let Some(mut frame) = core.frames.pop() else {
        return NumStep::NotMine;
    };
    let behind = pc_behind(system, &frame);
    let step = step_num(system, &mut frame, instr);
    match step {
        NumStep::Next => frame.pc = behind,
        NumStep::Jump(target) => frame.pc = target,
        NumStep::Raise(_) | NumStep::BadCode | NumStep::NotMine => {}
    }
    core.frames.push_reserved(frame);
    step
}
