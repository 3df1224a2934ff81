//! What fields and elements hold at first, and what they keep of a value.
ghost use Rattle.std.specs.Prelude.{◌≡◌};
ghost use Rattle.machine_model.specs.State as Spec;

use jx_base::Value;
use program_types::{cut_to_type, is_int_type, is_long_type};

/// The value of a field or an element that was never set.
#[tactic(auto, unfolding(machine_model::specs::State::default_of))]
pub fn default_of(kind: &[u16]) -> Value
    ensures { result ≡ Spec.default_of kind.now }
{
    if is_int_type(kind) {
        Value::Int(0)
    } else if is_long_type(kind) {
        Value::Long(0)
    } else {
        Value::Null
    }
}

/// What a field or an element of that type keeps of a value.
#[tactic(auto, unfolding(machine_model::specs::State::kept_value))]
pub fn kept_value(kind: &[u16], value: Value) -> Value
    ensures { result ≡ Spec.kept_value kind.now value }
{
    match value {
        Value::Int(number) => Value::Int(cut_to_type(kind, number)),
        value => value,
    }
}
