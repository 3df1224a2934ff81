//! The end of an instruction that made an object.
ghost use Rattle.std.specs.Prelude.{◌≡◌, ℕ, Option, drop};
ghost use Rattle.std.specs.List.{All};
ghost use Rattle.machine_model.specs.Conditions.{IsFrameOf};
ghost use Rattle.machine_model.specs.ObjectRows.{leaves_new};
ghost use Rattle.machine_model.specs.State.{Core as State, Store};
ghost use Rattle.interp_core.specs.Cores.{HasShortCodes, core_state, running_stack, store_of};
ghost use Rattle.interp_core.specs.Making.{Makes};
ghost use Rattle.interp_core.specs.Steps.{Gives};

use interp_core::{Core, ObjStep, leave};
use jx_base::{System, Value};

// The object that is thrown where there is no room for another one.
pub(crate) const OUT_OF_MEMORY_ERROR: u32 = 0;

// Pushes the object that was made from a core, with so many values taken before. Where none was made
// object 0 is thrown.
pub(crate) fn leave_new(
    system: &System,
    core: &mut Core,
    taken: usize,
    made: Option<u32>,
) -> ObjStep
    requires codes { HasShortCodes system.now }
    requires frames { All (IsFrameOf system.now) (core_state core.old).frames }
    ensures { (before : State) (new : Option (Store × ℕ))
        → (core_state core.old).frames ≡ before.frames
        → Makes made before.store (store_of core.old) new
        → Gives result before (core_state core.new)
        (leaves_new system.now before (drop taken (running_stack before)) new) }
{
    match made {
        Some(object) => leave(system, core, taken, Some(Value::Ref(object))),
        None => ObjStep::Raised(OUT_OF_MEMORY_ERROR),
    }
}
