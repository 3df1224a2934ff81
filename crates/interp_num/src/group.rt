//! The values that a form of the stack moves together: none, one slot, or two (JVMS 6.5, dup2).
ghost use Rattle.std.specs.Prelude.{◌≡◌, ◌+◌, ◌*◌, ◌≤◌, [], ◌∷◌, ◌++◌, drop, length};
ghost use Rattle.std.specs.Prelude.{None, Some, IfSome, MatchOption};
ghost use Rattle.machine_model.specs.NumericRows.{depth_of, group_of};
ghost use Rattle.interp_num.specs.Groups.{values_of};
ghost use Rattle.jx_base.specs.declared.row.Slots.TheVariants as slots;
ghost use Rattle.machine_model.specs.NumericRows as Spec;

use crate::stack::pop;
use crate::values::slots_of;
use jx_base::{OperandStack, Slots, Value};

// Of two values the upper one first, each of one slot.
#[derive(Clone, Copy)]
pub(crate) enum Group {
    Empty,
    Single(Value),
    Double(Value, Value),
}

impl Group {
    // How many slots the values fill.
    #[tactic(auto, unfolding(machine_model::specs::NumericRows::depth_of, machine_model::specs::NumericRows::slots_of))]
    pub(crate) fn slots(self) -> u32
        ensures { result ≡ depth_of (values_of self) }
    {
        match self {
            Group::Empty => 0,
            Group::Single(value) => slots_of(value),
            Group::Double(upper, lower) => slots_of(upper) + slots_of(lower),
        }
    }
}

// Takes a value of one slot from the top, or another value.
#[tactic(auto, unfolding(machine_model::specs::NumericRows::group_of, machine_model::specs::NumericRows::single, machine_model::specs::NumericRows::slots_of))]
pub(crate) fn pop_single(stack: &mut OperandStack) -> Option<Value>
    ensures value { MatchOption result (group_of slots.One stack.old.values ≡ None)
        (λ v. group_of slots.One stack.old.values ≡ Some (v ∷ [])) }
    ensures rest { stack.new ≡ record stack.old { values = drop 1 stack.old.values } }
    ensures slots { IfSome result (λ v. Spec.slots_of v ≡ 1) }
    ensures length { IfSome result (λ _. length stack.old.values ≡ length stack.new.values + 1) }
    ensures depth { IfSome result (λ _.
        depth_of stack.old.values ≡ depth_of stack.new.values + 1) }
{
    match pop(stack)? {
        Value::Long(_) => None,
        value => Some(value),
    }
}

// Takes the values that fill so many slots from the top, where they can be taken.
#[tactic(auto, unfolding(machine_model::specs::NumericRows::depth_of, machine_model::specs::NumericRows::slots_of, machine_model::specs::NumericRows::group_of, machine_model::specs::NumericRows::single, machine_model::specs::NumericRows::double))]
pub(crate) fn pop_group(stack: &mut OperandStack, slots: Slots) -> Option<Group>
    ensures value { MatchOption result (group_of slots stack.old.values ≡ None)
        (λ g. group_of slots stack.old.values ≡ Some (values_of g)) }
    ensures room { stack.new.room ≡ stack.old.room }
    ensures rest { IfSome result (λ g.
        stack.new.values ≡ drop (length (values_of g)) stack.old.values) }
    ensures length { IfSome result (λ g.
        length stack.old.values ≡ length (values_of g) + length stack.new.values) }
    ensures depth { IfSome result (λ g.
        depth_of stack.old.values ≡ depth_of (values_of g) + depth_of stack.new.values) }
    ensures few { IfSome result (λ g. depth_of (values_of g) ≤ 2) }
{
    match slots {
        Slots::Zero => Some(Group::Empty),
        Slots::One => Some(Group::Single(pop_single(stack)?)),
        Slots::Two => match pop(stack)? {
            Value::Long(n) => Some(Group::Single(Value::Long(n))),
            upper => Some(Group::Double(upper, pop_single(stack)?)),
        },
    }
}

// Puts the values of a group on the top.
pub(crate) fn push_group(stack: &mut OperandStack, group: Group)
    requires { length stack.old.values + length (values_of group) ≤ stack.old.room }
    ensures { stack.new ≡ record stack.old { values = values_of group ++ stack.old.values } }
{
    match group {
        Group::Empty => {}
        Group::Single(value) => stack.push(value),
        Group::Double(upper, lower) => {
            stack.push(lower);
            stack.push(upper);
        }
    }
}

// Puts a group on the top, another one over it, and the first one once more over both.
pub(crate) fn push_copied(stack: &mut OperandStack, copied: Group, under: Group)
    requires { length stack.old.values + (2 * length (values_of copied)
        + length (values_of under)) ≤ stack.old.room }
    ensures { stack.new ≡ record stack.old {
      values = values_of copied
          ++ (values_of under ++ (values_of copied ++ stack.old.values));
    } }
{
    push_group(stack, copied);
    push_group(stack, under);
    push_group(stack, copied);
}
