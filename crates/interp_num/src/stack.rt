//! The operand stack, by kinds of values and by slots (JVMS 2.6.2).
ghost use Rattle.std.specs.Prelude.{◌≡◌, ◌+◌, ◌≤◌, ◌<◌, ◌∷◌, ℕ, IfSome, drop, length};
ghost use Rattle.machine_model.specs.NumericRows.{leaves};
ghost use Rattle.interp_num.specs.Steps.{Ran, Runs, IsSameCall, IsWithin};
ghost use Rattle.machine_model.specs.NumericRows as Spec;
ghost use Rattle.machine_model.specs.NumericRows.{depth_of, top, top_int, top_long, top_reference};

use crate::depth::slots_left;
use crate::step::NumStep;
use crate::values::{as_reference, slots_of};
use jx_base::{Frame, OperandStack, Value};

// Takes the value on the top.
#[tactic(auto, unfolding(machine_model::specs::NumericRows::top))]
pub(crate) fn pop(stack: &mut OperandStack) -> Option<Value>
    ensures value { result ≡ top stack.old.values }
    ensures rest { stack.new ≡ record stack.old { values = drop 1 stack.old.values } }
    ensures length { IfSome result (λ _. length stack.old.values ≡ length stack.new.values + 1) }
    ensures depth { IfSome result (λ v.
        depth_of stack.old.values ≡ depth_of stack.new.values + Spec.slots_of v) }
{
    stack.pop()
}

// Takes the int on the top, or another value.
#[tactic(auto, unfolding(machine_model::specs::NumericRows::top_int, machine_model::specs::NumericRows::int_of, machine_model::specs::NumericRows::slots_of))]
pub(crate) fn pop_int(stack: &mut OperandStack) -> Option<i32>
    ensures value { result ≡ top_int stack.old.values }
    ensures rest { stack.new ≡ record stack.old { values = drop 1 stack.old.values } }
    ensures length { IfSome result (λ _. length stack.old.values ≡ length stack.new.values + 1) }
    ensures depth { IfSome result (λ _.
        depth_of stack.old.values ≡ depth_of stack.new.values + 1) }
{
    match pop(stack) {
        Some(Value::Int(n)) => Some(n),
        _ => None,
    }
}

// Takes the long on the top, or another value.
#[tactic(auto, unfolding(machine_model::specs::NumericRows::top_long, machine_model::specs::NumericRows::long_of, machine_model::specs::NumericRows::slots_of))]
pub(crate) fn pop_long(stack: &mut OperandStack) -> Option<i64>
    ensures value { result ≡ top_long stack.old.values }
    ensures rest { stack.new ≡ record stack.old { values = drop 1 stack.old.values } }
    ensures length { IfSome result (λ _. length stack.old.values ≡ length stack.new.values + 1) }
    ensures depth { IfSome result (λ _.
        depth_of stack.old.values ≡ depth_of stack.new.values + 2) }
{
    match pop(stack) {
        Some(Value::Long(n)) => Some(n),
        _ => None,
    }
}

// Puts a value on the top, where there is room for it.
pub(crate) fn put(frame: &mut Frame, value: Value) -> NumStep
    requires { length frame.old.stack.values < frame.old.stack.room }
    ensures row { (most : ℕ) → depth_of frame.old.stack.values + Spec.slots_of value ≤ most →
        Ran result frame.old.locals frame.new
        (leaves most frame.old.locals (value ∷ frame.old.stack.values)) }
    ensures place { IsSameCall frame.old frame.new }
{
    frame.stack.push(value);
    NumStep::Next
}

// Puts a value on the top, unless the stack gets deeper than it may be.
pub(crate) fn grow(frame: &mut Frame, most: u32, value: Value) -> Option<NumStep>
    requires { IsWithin most frame.old }
    ensures row { Runs result frame.old.locals frame.new
        (leaves most frame.old.locals (value ∷ frame.old.stack.values)) }
    ensures place { IsSameCall frame.old frame.new }
{
    if slots_left(&mut frame.stack, most) < slots_of(value) {
        return None;
    }
    Some(put(frame, value))
}

// Takes the reference on the top, or another value.
#[tactic(auto, unfolding(machine_model::specs::NumericRows::top_reference))]
pub(crate) fn pop_reference(stack: &mut OperandStack) -> Option<Value>
    ensures value { result ≡ top_reference stack.old.values }
    ensures rest { stack.new ≡ record stack.old { values = drop 1 stack.old.values } }
{
    as_reference(pop(stack)?)
}
