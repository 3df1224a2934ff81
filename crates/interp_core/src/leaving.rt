//! The end of an instruction that goes on in its frame.
ghost use Rattle.std.specs.Prelude.{◌≡◌, true, Bool, not, drop, nat_lt};
ghost use Rattle.std.specs.List.{All};
ghost use Rattle.machine_model.specs.Conditions.{IsFrameOf};
ghost use Rattle.machine_model.specs.NumericRows.{depth_of};
ghost use Rattle.machine_model.specs.ObjectRows.{leaves, with_result};
ghost use Rattle.machine_model.specs.State.{frame_behind, stack_limit};
ghost use Rattle.interp_core.specs.Cores.{HasShortCodes, core_state, running_stack};
ghost use Rattle.interp_core.specs.Steps.{Leaves};

use crate::cores::Core;
use crate::frames::{code_of, pc_behind};
use crate::step::ObjStep;
use interp_num::{slots_left, slots_of};
use jx_base::{Frame, OperandStack, System, Value};

/// Takes so many values off. Takes no memory.
pub fn take(stack: &mut OperandStack, taken: usize)
    ensures { stack.new ≡ record stack.old { values = drop taken stack.old.values } }
{
    for _ in 0..taken {
        stack.pop();
    }
}

// How many slots the frame's stack has at most.
#[tactic(auto, unfolding(machine_model::specs::State::stack_limit))]
fn stack_limit(system: &System, frame: &Frame) -> u32
    ensures { result ≡ stack_limit system.now frame.now }
{
    match code_of(system, frame.method) {
        Some(code) => code.max_stack,
        None => 0,
    }
}

// The frame goes on behind its instruction, if its stack is not deeper then than it may be.
fn go_on(system: &System, frame: &mut Frame, taken: usize, pushed: Option<Value>) -> bool
    requires codes { HasShortCodes system.now }
    requires frame { IsFrameOf system.now frame.old }
    ensures fits { result ≡ not (nat_lt (stack_limit system.now frame.old)
        (depth_of (with_result pushed (drop taken frame.old.stack.values)))) }
    ensures frame { result ≡ true → frame.new
        ≡ frame_behind system.now (with_result pushed (drop taken frame.old.stack.values))
        frame.old }
{
    let most = stack_limit(system, frame);
    frame.pc = pc_behind(system, frame);
    take(&mut frame.stack, taken);
    let Some(value) = pushed else {
        return true;
    };
    if slots_left(&mut frame.stack, most) < slots_of(value) {
        return false;
    }
    frame.stack.push(value);
    true
}

/// The running frame goes on behind its instruction, with so many values taken off its stack, and
/// then one put on, if there is one. Takes no memory.
pub fn leave(system: &System, core: &mut Core, taken: usize, pushed: Option<Value>) -> ObjStep
    requires codes { HasShortCodes system.now }
    requires frames { All (IsFrameOf system.now) (core_state core.old).frames }
    ensures row { Leaves result (core_state core.new)
        (leaves system.now (core_state core.old) (core_state core.old).store
        (with_result pushed (drop taken (running_stack (core_state core.old))))) }
{
    let Some(mut frame) = core.frames.pop() else {
        return ObjStep::Next;
    };
    let fits = go_on(system, &mut frame, taken, pushed);
    core.frames.push_reserved(frame);
    if fits {
        ObjStep::Next
    } else {
        ObjStep::BadCode
    }
}
