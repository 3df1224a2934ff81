//! The result of the call that a frame is at.
ghost use Rattle.std.specs.Prelude.{◌≡◌, None};
ghost use Rattle.std.specs.List.{All};
ghost use Rattle.interp_core.specs.Cores.{HasShortCodes, core_state};
ghost use Rattle.machine_model.specs.AfterEntry.{after_result};
ghost use Rattle.machine_model.specs.Conditions.{IsFrameOf};
ghost use Rattle.machine_replies.specs.Leaving.{CanRun, GoesOn, HasPast, Leaves};
ghost use Rattle.machine_replies.specs.Sites as Spec;

use crate::sites::taken_first;
use crate::stage::Stage;
use interp_core::{Core, ObjStep, leave, running};
use jx_base::{System, Value};

// The running frame goes on behind a call that takes so many values, with its result.
pub(crate) fn come_back(
    system: &System,
    core: &mut Core,
    taken: usize,
    value: Option<Value>,
) -> Option<Stage>
    requires codes { HasShortCodes system.now }
    requires frames { All (IsFrameOf system.now) (core_state core.old).frames }
    requires taken { taken ≡ Spec.taken_first system.now (core_state core.old).frames }
    ensures left { Leaves (core_state core.old) (core_state core.new) result
        (λ st t x. after_result system.now st t x value) }
    ensures going { value ≡ None → GoesOn result }
{
    running(core)?;
    match leave(system, core, taken, value) {
        ObjStep::Next => Some(Stage::Going),
        _ => Some(Stage::Bad),
    }
}

/// The call that the running frame is at is done: its arguments go, its result comes, and the frame
/// goes on behind it. `None` where the thread has no frames. Takes no memory.
pub fn give_result(system: &System, core: &mut Core, value: Option<Value>) -> Option<Stage>
    requires system { CanRun system.now }
    requires core { HasPast system.now (core_state core.old) }
    ensures { Leaves (core_state core.old) (core_state core.new) result
        (λ st t x. after_result system.now st t x value) }
{
    let taken = taken_first(system, core);
    come_back(system, core, taken, value)
}

/// The same without a result, which never leaves the stack too deep.
pub fn go_behind(system: &System, core: &mut Core) -> Option<Stage>
    requires system { CanRun system.now }
    requires core { HasPast system.now (core_state core.old) }
    ensures left { Leaves (core_state core.old) (core_state core.new) result
        (λ st t x. after_result system.now st t x None) }
    ensures going { GoesOn result }
{
    let taken = taken_first(system, core);
    come_back(system, core, taken, None)
}
