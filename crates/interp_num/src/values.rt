//! Values as the instructions on numbers and the stack see them (JVMS 2.6).
ghost use Rattle.std.specs.Prelude.{◌≡◌};
ghost use Rattle.machine_model.specs.NumericRows as Spec;

use jx_base::{Kind, Value};

/// How many slots a value fills.
#[tactic(auto, unfolding(machine_model::specs::NumericRows::slots_of))]
pub fn slots_of(value: Value) -> u32
    ensures { result ≡ Spec.slots_of value }
{
    match value {
        Value::Long(_) => 2,
        _ => 1,
    }
}

// The value, where it is null, an object, a portal or a memory object.
#[tactic(auto, unfolding(machine_model::specs::NumericRows::as_reference))]
pub(crate) fn as_reference(value: Value) -> Option<Value>
    ensures { result ≡ Spec.as_reference value }
{
    match value {
        Value::Int(_) | Value::Long(_) => None,
        value => Some(value),
    }
}

/// The value, where it is of that kind.
#[tactic(auto, unfolding(machine_model::specs::NumericRows::as_kind))]
pub fn as_kind(kind: Kind, value: Value) -> Option<Value>
    ensures { result ≡ Spec.as_kind kind value }
{
    match (kind, value) {
        (Kind::Int, Value::Int(n)) => Some(Value::Int(n)),
        (Kind::Long, Value::Long(n)) => Some(Value::Long(n)),
        (Kind::Reference, value) => as_reference(value),
        _ => None,
    }
}

#[tactic(auto, unfolding(machine_model::specs::NumericRows::is_null))]
pub fn is_null(value: Value) -> bool
    ensures { result ≡ Spec.is_null value }
{
    matches!(value, Value::Null)
}

/// Whether two references are the same: portals by their service.
#[tactic(auto, unfolding(machine_model::specs::NumericRows::is_same))]
pub fn is_same(a: Value, b: Value) -> bool
    ensures { result ≡ Spec.is_same a b }
{
    match (a, b) {
        (Value::Null, Value::Null) => true,
        (Value::Ref(a), Value::Ref(b)) => a == b,
        (Value::Portal(a, _), Value::Portal(b, _)) => a.0 == b.0,
        (Value::Mem(a), Value::Mem(b)) => a.0 == b.0,
        _ => false,
    }
}
