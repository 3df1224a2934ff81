//! Instructions that move values between locals and the stack, and on it (JVMS 2.11.2, 2.11.6).
ghost use Rattle.std.specs.Prelude.{◌≡◌, ◌<◌, ◌^◌, length};
ghost use Rattle.machine_model.specs.NumericRows.{load_row, store_row};
ghost use Rattle.machine_model.specs.NumericRows.{discard_row, copy_row, swap_row};
ghost use Rattle.interp_num.specs.Steps.{Runs, IsSameCall, IsWithin};

use crate::depth::slots_left;
use crate::group::{pop_group, pop_single, push_copied};
use crate::locals::{has_place, local_of, set_local};
use crate::stack::{grow, pop, put};
use crate::step::NumStep;
use crate::values::as_kind;
use jx_base::{Frame, Kind, Slots};

// A local of that kind is pushed.
#[tactic(auto, unfolding(machine_model::specs::NumericRows::load_row, machine_model::specs::NumericRows::given))]
pub(crate) fn load(frame: &mut Frame, most: u32, kind: Kind, n: u32) -> Option<NumStep>
    requires { IsWithin most frame.old }
    ensures row { Runs result frame.old.locals frame.new
        (load_row most kind n frame.old.locals frame.old.stack.values) }
    ensures place { IsSameCall frame.old frame.new }
{
    let value = as_kind(kind, local_of(&frame.locals, n)?)?;
    grow(frame, most, value)
}

// The value on the top, of that kind, goes to a local.
#[tactic(auto, unfolding(machine_model::specs::NumericRows::store_row, machine_model::specs::NumericRows::with_local, machine_model::specs::NumericRows::given))]
pub(crate) fn store(frame: &mut Frame, kind: Kind, n: u32) -> Option<NumStep>
    requires { length frame.old.locals < 2 ^ 32 }
    ensures row { Runs result frame.old.locals frame.new
        (store_row kind n frame.old.locals frame.old.stack.values) }
    ensures place { IsSameCall frame.old frame.new }
{
    let value = as_kind(kind, pop(&mut frame.stack)?)?;
    if !has_place(&frame.locals, n, value) {
        return None;
    }
    set_local(&mut frame.locals, n, value);
    Some(NumStep::Next)
}

// So many slots are taken off.
#[tactic(auto, unfolding(machine_model::specs::NumericRows::discard_row, machine_model::specs::NumericRows::given))]
pub(crate) fn discard(frame: &mut Frame, slots: Slots) -> Option<NumStep>
    ensures row { Runs result frame.old.locals frame.new
        (discard_row slots frame.old.locals frame.old.stack.values) }
    ensures place { IsSameCall frame.old frame.new }
{
    pop_group(&mut frame.stack, slots)?;
    Some(NumStep::Next)
}

// A group once more, below the group under it.
#[tactic(auto, unfolding(machine_model::specs::NumericRows::copy_row, machine_model::specs::NumericRows::given))]
pub(crate) fn copy(frame: &mut Frame, most: u32, copied: Slots, under: Slots) -> Option<NumStep>
    requires { IsWithin most frame.old }
    ensures row { Runs result frame.old.locals frame.new
        (copy_row most copied under frame.old.locals frame.old.stack.values) }
    ensures place { IsSameCall frame.old frame.new }
{
    let copied = pop_group(&mut frame.stack, copied)?;
    let under = pop_group(&mut frame.stack, under)?;
    let needed = 2 * copied.slots() + under.slots();
    if slots_left(&mut frame.stack, most) < needed {
        return None;
    }
    push_copied(&mut frame.stack, copied, under);
    Some(NumStep::Next)
}

// The two upper values change places.
#[tactic(auto, using(crate::proofs::Depths::drops), unfolding(machine_model::specs::NumericRows::swap_row, machine_model::specs::NumericRows::given))]
pub(crate) fn swap(frame: &mut Frame, most: u32) -> Option<NumStep>
    requires { IsWithin most frame.old }
    ensures row { Runs result frame.old.locals frame.new
        (swap_row most frame.old.locals frame.old.stack.values) }
    ensures place { IsSameCall frame.old frame.new }
{
    let upper = pop_single(&mut frame.stack)?;
    let lower = pop_single(&mut frame.stack)?;
    frame.stack.push(upper);
    Some(put(frame, lower))
}
