//! Objects that are thrown at the frames of a thread.
ghost use Rattle.std.specs.Prelude.{◌≡◌};
ghost use Rattle.std.specs.List.{All};
ghost use Rattle.interp_core.specs.Cores.{core_state, store_of};
ghost use Rattle.machine_model.specs.Conditions.{IsFrameOf};
ghost use Rattle.machine_steps.specs.Stepping.{Raises, Throws};

use crate::stepping::Stepped;
use interp_core::Core;
use interp_frames::{Caught, make_exception, throw};
use jx_base::{ClassId, System};

/// Throws the object.
pub fn throw_object(system: &System, core: &mut Core, object: u32) -> Stepped
    requires frames { All (IsFrameOf system.now) (core_state core.old).frames }
    ensures store { store_of core.new ≡ store_of core.old }
    ensures thrown { Throws system.now (core_state core.old) object (core_state core.new) result }
{
    match throw(core, system, object) {
        Caught::Here => Stepped::Going,
        Caught::Overfull => Stepped::Overfull,
        Caught::Nowhere => Stepped::Threw(object),
    }
}

/// Makes an exception of the class, and throws it.
pub fn raise(system: &System, core: &mut Core, class: ClassId) -> Stepped
    requires frames { All (IsFrameOf system.now) (core_state core.old).frames }
    ensures { Raises system.now (core_state core.old) class.0 (core_state core.new) result }
{
    let object = make_exception(core, system, class);
    throw_object(system, core, object)
}
