//! Branches by ints and references (JVMS 2.11.7).
ghost use Rattle.std.specs.Prelude.{◌≡◌};
ghost use Rattle.machine_model.specs.NumericRows.{if_zero_row, if_ints_row};
ghost use Rattle.machine_model.specs.NumericRows.{if_same_row, if_null_row};
ghost use Rattle.interp_num.specs.Steps.{Runs, IsSameCall};

use crate::numbers::is_met;
use crate::stack::{pop_int, pop_reference};
use crate::step::NumStep;
use crate::values::{is_null, is_same};
use jx_base::{Comparison, Frame};

// By an int against 0.
#[tactic(auto, unfolding(machine_model::specs::NumericRows::if_zero_row, machine_model::specs::NumericRows::given, machine_model::specs::NumericRows::branches))]
pub(crate) fn if_zero(frame: &mut Frame, comparison: Comparison, to: u32) -> Option<NumStep>
    ensures row { Runs result frame.old.locals frame.new
        (if_zero_row comparison to frame.old.locals frame.old.stack.values) }
    ensures place { IsSameCall frame.old frame.new }
{
    let a = pop_int(&mut frame.stack)?;
    if is_met(comparison, a, 0) {
        Some(NumStep::Jump(to))
    } else {
        Some(NumStep::Next)
    }
}

// By two ints.
#[tactic(auto, using(crate::proofs::Depths::drops), unfolding(machine_model::specs::NumericRows::if_ints_row, machine_model::specs::NumericRows::given, machine_model::specs::NumericRows::branches))]
pub(crate) fn if_ints(frame: &mut Frame, comparison: Comparison, to: u32) -> Option<NumStep>
    ensures row { Runs result frame.old.locals frame.new
        (if_ints_row comparison to frame.old.locals frame.old.stack.values) }
    ensures place { IsSameCall frame.old frame.new }
{
    let b = pop_int(&mut frame.stack)?;
    let a = pop_int(&mut frame.stack)?;
    if is_met(comparison, a, b) {
        Some(NumStep::Jump(to))
    } else {
        Some(NumStep::Next)
    }
}

// By two references, which are the same or not.
#[tactic(auto, using(crate::proofs::Depths::drops), unfolding(machine_model::specs::NumericRows::if_same_row, machine_model::specs::NumericRows::given, machine_model::specs::NumericRows::branches, machine_model::specs::NumericRows::is_wanted))]
pub(crate) fn if_same(frame: &mut Frame, wanted: bool, to: u32) -> Option<NumStep>
    ensures row { Runs result frame.old.locals frame.new
        (if_same_row wanted to frame.old.locals frame.old.stack.values) }
    ensures place { IsSameCall frame.old frame.new }
{
    let b = pop_reference(&mut frame.stack)?;
    let a = pop_reference(&mut frame.stack)?;
    if is_same(a, b) == wanted {
        Some(NumStep::Jump(to))
    } else {
        Some(NumStep::Next)
    }
}

// By a reference, which is null or not.
#[tactic(auto, unfolding(machine_model::specs::NumericRows::if_null_row, machine_model::specs::NumericRows::given, machine_model::specs::NumericRows::branches, machine_model::specs::NumericRows::is_wanted))]
pub(crate) fn if_null(frame: &mut Frame, wanted: bool, to: u32) -> Option<NumStep>
    ensures row { Runs result frame.old.locals frame.new
        (if_null_row wanted to frame.old.locals frame.old.stack.values) }
    ensures place { IsSameCall frame.old frame.new }
{
    let a = pop_reference(&mut frame.stack)?;
    if is_null(a) == wanted {
        Some(NumStep::Jump(to))
    } else {
        Some(NumStep::Next)
    }
}
