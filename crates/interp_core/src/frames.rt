//! The running frame of a thread: its stack, its code, its class and that class's constants.
ghost use Rattle.std.specs.Prelude.{◌≡◌, slice_get, option_map};
ghost use Rattle.machine_model.specs.State as Spec;
ghost use Rattle.program_model.specs.Lookup.{constant_at};
ghost use Rattle.interp_core.specs.Cores.{HasShortCodes, core_state, running_stack};

use crate::behind::place_behind;
use crate::cores::Core;
use jx_base::{Code, Frame, Resolved, System, Value};

/// The running frame, if the thread has any.
pub fn running(core: &Core) -> Option<&Frame>
    ensures { option_map (λ f. f.now) result ≡ slice_get (core_state core.now).frames 0 }
{
    core.frames.as_slice().last()
}

/// The value on the running frame's stack that has so many above it.
#[tactic(auto, unfolding(crate::specs::Cores::running_stack))]
pub fn peek(core: &Core, above: usize) -> Option<Value>
    ensures { result ≡ slice_get (running_stack (core_state core.now)) above }
{
    match running(core) {
        Some(frame) => frame.stack.get(above),
        None => None,
    }
}

/// The code of a method, if it has any.
#[tactic(auto, unfolding(machine_model::specs::State::code_of, program_model::specs::Lookup::method_at))]
pub fn code_of(system: &System, method: u32) -> Option<&Code>
    ensures { option_map (λ c. c.now) result ≡ Spec.code_of system.now method }
{
    match system.program.methods.as_slice().get(method as usize) {
        Some(found) => found.code.as_ref(),
        None => None,
    }
}

/// The class whose method the frame runs.
#[tactic(auto, unfolding(machine_model::specs::State::class_of_frame, program_model::specs::Lookup::method_at))]
pub fn class_of_frame(system: &System, frame: &Frame) -> u32
    ensures { result ≡ Spec.class_of_frame system.now frame.now }
{
    match system.program.methods.as_slice().get(frame.method as usize) {
        Some(found) => found.class.0,
        None => 0,
    }
}

/// The place behind the instruction that the frame is at.
#[tactic(auto, unfolding(machine_model::specs::State::pc_behind, machine_model::specs::State::code_bytes))]
pub fn pc_behind(system: &System, frame: &Frame) -> u32
    requires { HasShortCodes system.now }
    ensures { result ≡ Spec.pc_behind system.now frame.now }
{
    match code_of(system, frame.method) {
        Some(code) => place_behind(code.code.as_slice(), frame.pc).unwrap_or(frame.pc),
        None => frame.pc,
    }
}

/// What a constant of a class means.
#[tactic(auto, unfolding(program_model::specs::Lookup::constant_at, program_model::specs::Lookup::class_at))]
pub fn constant_at(system: &System, class: u32, index: u32) -> Option<&Resolved>
    ensures { option_map (λ x. x.now) result ≡ constant_at system.now class index }
{
    match system.program.classes.as_slice().get(class as usize) {
        Some(found) => found.constants.as_slice().get(index as usize),
        None => None,
    }
}
