//! The locals of a frame: a long needs two of them, and is read from the first (JVMS 2.6.1).
ghost use Rattle.std.specs.Prelude.{◌≡◌, ◌+◌, ◌<◌, ◌≤◌, ◌^◌, IfSome, nat_le, length};
ghost use Rattle.machine_model.specs.NumericRows as Spec;

use crate::values::slots_of;
use jx_base::{Locals, Value};

/// Whether the value has its places among the locals from the n-th on.
pub fn has_place(locals: &Locals, n: u32, value: Value) -> bool
    ensures { result ≡ nat_le (n + Spec.slots_of value) (length locals.now) }
{
    n as usize + slots_of(value) as usize <= locals.len()
}

// The value of a local, where it is set and has its places.
#[tactic(auto, unfolding(machine_model::specs::NumericRows::local_of))]
pub(crate) fn local_of(locals: &Locals, n: u32) -> Option<Value>
    ensures value { result ≡ Spec.local_of locals.now n }
    ensures place { IfSome result (λ v. n + Spec.slots_of v ≤ length locals.now) }
{
    let value = locals.get(n)?;
    if has_place(locals, n, value) {
        Some(value)
    } else {
        None
    }
}

/// Sets a local. Behind a long the second one is unset.
#[tactic(auto, unfolding(machine_model::specs::NumericRows::set_local, machine_model::specs::NumericRows::slots_of))]
pub fn set_local(locals: &mut Locals, n: u32, value: Value)
    requires place { n + Spec.slots_of value ≤ length locals.old }
    requires small { length locals.old < 2 ^ 32 }
    ensures { locals.new ≡ Spec.set_local locals.old n value }
{
    locals.set(n, Some(value));
    if let Value::Long(_) = value {
        locals.set(n + 1, None);
    }
}
