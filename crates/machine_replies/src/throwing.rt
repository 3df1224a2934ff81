//! Objects that are thrown at the frames of a thread.
ghost use Rattle.std.specs.List.{All};
ghost use Rattle.interp_core.specs.Cores.{core_state};
ghost use Rattle.machine_model.specs.Conditions.{IsFrameOf};
ghost use Rattle.machine_model.specs.MachineThreads.{after_raise, after_throw};
ghost use Rattle.machine_replies.specs.Leaving.{Comes, HasPast};

use crate::stage::Stage;
use interp_core::Core;
use interp_frames::{Caught, make_exception, throw};
use jx_base::{ClassId, System};

// Throws the object where all that is known is that the frames are those of their methods.
pub(crate) fn throw_at(system: &System, core: &mut Core, object: u32) -> Stage
    requires { All (IsFrameOf system.now) (core_state core.old).frames }
    ensures { Comes (core_state core.old) (core_state core.new) result
        (λ st t x. after_throw system.now st t x object) }
{
    match throw(core, system, object) {
        Caught::Here => Stage::Going,
        Caught::Overfull => Stage::Bad,
        Caught::Nowhere => Stage::Threw(object),
    }
}

// Raises the class where no more is known.
pub(crate) fn raise_at(system: &System, core: &mut Core, class: ClassId) -> Stage
    requires { All (IsFrameOf system.now) (core_state core.old).frames }
    ensures { Comes (core_state core.old) (core_state core.new) result
        (λ st t x. after_raise system.now st t x class.0) }
{
    let object = make_exception(core, system, class);
    throw_at(system, core, object)
}

/// Throws the object at the frames of a thread. Takes no memory.
pub fn throw_object(system: &System, core: &mut Core, object: u32) -> Stage
    requires { HasPast system.now (core_state core.old) }
    ensures { Comes (core_state core.old) (core_state core.new) result
        (λ st t x. after_throw system.now st t x object) }
{
    throw_at(system, core, object)
}

/// Makes an exception of the class and throws it. Takes no memory.
pub fn raise(system: &System, core: &mut Core, class: ClassId) -> Stage
    requires { HasPast system.now (core_state core.old) }
    ensures { Comes (core_state core.old) (core_state core.new) result
        (λ st t x. after_raise system.now st t x class.0) }
{
    raise_at(system, core, class)
}
