//! What an instruction takes from the stack.
ghost use Rattle.std.specs.Prelude.{◌≡◌, None, Some, pos, int_lt, slice_get, if◌then◌else◌};
ghost use Rattle.std.specs.Option.{option_and_then};
ghost use Rattle.jx_base.specs.Basics.{not_below_zero};
ghost use Rattle.machine_model.specs.NumericRows as NumericSpec;
ghost use Rattle.interp_core.specs.Cores.{core_state, running_stack};
ghost use Rattle.interp_access.specs.Takings.{receiver_of};

use interp_core::{Core, peek};
use interp_num::as_kind;
use jx_base::{Kind, Value};

/// What stands where an object is taken: null, an object, or nothing of the kind.
#[derive(Clone, Copy)]
pub(crate) enum Receiver {
    Null,
    Object(u32),
    Other,
}

// What stands where an object is taken that has so many values above it.
#[tactic(auto, unfolding(crate::specs::Takings::receiver_of))]
pub(crate) fn receiver_at(core: &Core, above: usize) -> Receiver
    ensures { result ≡ receiver_of (slice_get (running_stack (core_state core.now)) above) }
{
    match peek(core, above) {
        Some(Value::Null) => Receiver::Null,
        Some(Value::Ref(object)) => Receiver::Object(object),
        _ => Receiver::Other,
    }
}

// The value of that kind that has so many above it.
pub(crate) fn kind_at(core: &Core, above: usize, kind: Kind) -> Option<Value>
    ensures { result ≡ option_and_then (NumericSpec.as_kind kind)
        (slice_get (running_stack (core_state core.now)) above) }
{
    as_kind(kind, peek(core, above)?)
}

// The int that has so many values above it.
#[tactic(auto, unfolding(machine_model::specs::NumericRows::int_of))]
pub(crate) fn int_at(core: &Core, above: usize) -> Option<i32>
    ensures { result ≡ option_and_then NumericSpec.int_of
        (slice_get (running_stack (core_state core.now)) above) }
{
    match peek(core, above) {
        Some(Value::Int(number)) => Some(number),
        _ => None,
    }
}

// An int as a length, where it is not below 0.
#[tactic(auto, unfolding(jx_base::specs::Basics::not_below_zero))]
pub(crate) fn as_length(number: i32) -> Option<u32>
    ensures { result ≡ (if int_lt number (pos 0) then None else Some (not_below_zero number)) }
{
    if number < 0 {
        None
    } else {
        Some(number as u32)
    }
}
