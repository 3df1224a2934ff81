//! Entering a method: its frame, and the limits of a thread's frames (JVMS 2.6).
ghost use Rattle.std.specs.Prelude.{◌≡◌, ◌+◌, ◌*◌, ◌<◌, ◌≤◌, ◌^◌, Some, None, IfOk, if◌then◌else◌, length};
ghost use Rattle.std.specs.Prelude.{replicate, reverse, sum_by};
ghost use Rattle.std.specs.Option.{option_map};
ghost use Rattle.machine_model.specs.State as Spec;
ghost use Rattle.machine_model.specs.State.{code_of, frame_with, slots_of_method};

use interp_core::code_of;
use interp_num::{has_place, set_local, slots_of};
use jx_base::{Code, Frame, Locals, OperandStack, OutOfMemory, System, Value};
use std::alloc::Global;

// The most frames of a thread.
const MOST_FRAMES: usize = 256;

// The most slots that the frames of a thread fill.
const MOST_SLOTS: u64 = 65_536;

fn sum(locals: u32, stack: u32) -> u64
    ensures sum { result ≡ locals + stack }
    ensures small { result < 2 ^ 33 }
{
    u64::from(locals) + u64::from(stack)
}

// How many slots a frame of the method fills.
#[tactic(auto, unfolding(machine_model::specs::State::slots_of_method, program_model::specs::Lookup::method_at))]
fn slots_of_method(system: &System, method: u32) -> u64
    ensures slots { result ≡ Spec.slots_of_method system.now method }
    ensures small { result < 2 ^ 33 }
{
    match code_of(system, method) {
        Some(code) => sum(code.max_locals, code.max_stack),
        None => 0,
    }
}

// How many slots the frames fill.
fn slots_of_frames(system: &System, frames: &[Frame]) -> u64
    requires { length frames.now < 2 ^ 16 }
    ensures slots { result ≡ sum_by (λ f. slots_of_method system.now f.method) frames.now }
    ensures small { result ≤ 2 ^ 33 * length frames.now }
{
    let mut slots = 0;
    for frame in frames {
        slots += slots_of_method(system, frame.method);
    }
    slots
}

/// Whether a frame of the method above these, the running one last, is one too many or fills too
/// many slots.
#[tactic(auto, unfolding(machine_model::specs::State::is_overflow, machine_model::specs::State::frame_limit, machine_model::specs::State::slot_limit))]
pub fn is_overflow(system: &System, method: u32, frames: &[Frame]) -> bool
    ensures { result ≡ Spec.is_overflow system.now method (reverse frames.now) }
{
    frames.len() >= MOST_FRAMES
        || slots_of_method(system, method) + slots_of_frames(system, frames) > MOST_SLOTS
}

// Puts the arguments into the locals, each behind the one before it. Whether they have room.
fn put_arguments(locals: &mut Locals, arguments: &[Value]) -> bool
    requires { length locals.old < 2 ^ 32 }
    ensures { Spec.locals_with locals.old 0 arguments.now
        ≡ (if result then Some locals.new else None) }
{
    let mut place = 0;
    for argument in arguments {
        if !has_place(locals, place, *argument) {
            return false;
        }
        set_local(locals, place, *argument);
        place += slots_of(*argument);
    }
    true
}

// A frame at the start of the code, where its arguments have room in its locals.
fn frame_with(
    alloc: Global,
    method: u32,
    code: &Code,
    arguments: &[Value],
) -> Result<Option<Frame>, OutOfMemory>
    ensures { IfOk result (λ frame. frame ≡ option_map (frame_with method code.now)
        (Spec.locals_with (replicate code.now.max_locals None) 0 arguments.now)) }
{
    let mut locals = Locals::unset(alloc, code.max_locals)?;
    if !put_arguments(&mut locals, arguments) {
        return Ok(None);
    }
    Ok(Some(Frame {
        method,
        pc: 0,
        locals,
        stack: OperandStack::with_room(alloc, code.max_stack)?,
    }))
}

/// The first frame of a method. `None` where it has no code, or its arguments no room in its locals.
#[tactic(auto, unfolding(machine_model::specs::State::frame_of))]
pub fn frame_of(
    alloc: Global,
    system: &System,
    method: u32,
    arguments: &[Value],
) -> Result<Option<Frame>, OutOfMemory>
    ensures { IfOk result (λ frame. frame ≡ Spec.frame_of system.now method arguments.now) }
{
    match code_of(system, method) {
        Some(code) => frame_with(alloc, method, code, arguments),
        None => Ok(None),
    }
}
