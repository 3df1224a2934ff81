//! How a thrown object unwinds the frames of its thread (JVMS 2.10).
ghost use Rattle.std.specs.Prelude.{◌≡◌, ◌<◌, true, nat_lt};
ghost use Rattle.std.specs.List.{All};
ghost use Rattle.std.specs.Option.{unwrap_or};
ghost use Rattle.machine_model.specs.Conditions.{IsFrameOf};
ghost use Rattle.machine_model.specs.State as Spec;
ghost use Rattle.interp_core.specs.Cores.{core_state, store_of};
ghost use Rattle.interp_frames.specs.Throwing.{Catches, at_handler};

use crate::handlers::handler_in;
use interp_core::{Core, class_of_object, code_of};
use jx_base::{Frame, System, Value};

/// Who catches a thrown object.
#[derive(Clone, Copy)]
pub enum Caught {
    /// The running frame, which is at its handler.
    Here,
    /// A frame whose stack has no room for the object.
    Overfull,
    /// None of the frames.
    Nowhere,
}

// Whether the stack of the frame's method has room for a value.
#[tactic(auto, unfolding(machine_model::specs::State::stack_limit))]
fn has_room(system: &System, frame: &Frame) -> bool
    ensures { result ≡ nat_lt 0 (Spec.stack_limit system.now frame.now) }
{
    match code_of(system, frame.method) {
        Some(code) => code.max_stack > 0,
        None => false,
    }
}

// The frame goes to the handler, with the object alone on its stack.
#[tactic(auto, unfolding(machine_model::specs::State::with_values))]
fn go_to_handler(frame: &mut Frame, handler: u32, object: u32)
    requires { 0 < frame.old.stack.room }
    ensures { frame.new ≡ at_handler handler object frame.old }
{
    frame.pc = handler;
    frame.stack.clear();
    frame.stack.push(Value::Ref(object));
}

// Drops frames up to the first that catches an object of that class.
fn unwind(core: &mut Core, system: &System, thrown: u32, object: u32) -> Caught
    requires frames { All (IsFrameOf system.now) (core_state core.old).frames }
    ensures store { store_of core.new ≡ store_of core.old }
    ensures frames { Catches system.now result (core_state core.new).frames
        (Spec.frames_at_handler system.now thrown object (core_state core.old).frames) }
{
    while let Some(mut frame) = core.frames.pop() {
        let Some(handler) = handler_in(system, thrown, &frame) else {
            continue;
        };
        if !has_room(system, &frame) {
            return Caught::Overfull;
        }
        go_to_handler(&mut frame, handler, object);
        core.frames.push_reserved(frame);
        return Caught::Here;
    }
    Caught::Nowhere
}

// The class of a thrown object.
fn thrown_class(core: &Core, object: u32) -> u32
    ensures { result ≡ unwrap_or (Spec.class_of_object (store_of core.now) object) 0 }
{
    match class_of_object(core, object) {
        Some(class) => class.0,
        None => 0,
    }
}

/// Drops frames up to the first that catches the object, which then is at its handler with the
/// object alone on its stack. Takes no memory.
pub fn throw(core: &mut Core, system: &System, object: u32) -> Caught
    requires frames { All (IsFrameOf system.now) (core_state core.old).frames }
    ensures store { store_of core.new ≡ store_of core.old }
    ensures frames { Catches system.now result (core_state core.new).frames
        (Spec.frames_at_handler system.now
        (unwrap_or (Spec.class_of_object (store_of core.old) object) 0) object
        (core_state core.old).frames) }
{
    let thrown = thrown_class(core, object);
    unwind(core, system, thrown, object)
}
