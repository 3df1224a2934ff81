//! Static fields (JVMS 6.5, getstatic, putstatic).
ghost use Rattle.std.specs.Prelude.{◌≡◌, option_map, slice_get, slice_set};
ghost use Rattle.machine_model.specs.ObjectRows as Spec;
ghost use Rattle.machine_model.specs.State.{static_types};
ghost use Rattle.interp_core.specs.Cores.{IsRunnable, core_state, store_of};
ghost use Rattle.interp_access.specs.Rows.{Runs};

use crate::fields::fitting_value;
use interp_core::{Core, ObjStep, leave, peek};
use jx_base::{System, Value};

/// Pushes a static field.
#[tactic(auto, using(crate::proofs::Tops::gives_left), unfolding(machine_model::specs::ObjectRows::get_static_row, machine_model::specs::ObjectRows::given, machine_model::specs::ObjectRows::with_result))]
pub fn get_static_row(system: &System, core: &mut Core, place: u32) -> ObjStep
    requires { IsRunnable system.now (core_state core.old) }
    ensures { Runs result core.old core.new
        (λ state. Spec.get_static_row system.now state place) }
{
    match core.statics.get(place as usize).copied() {
        Some(value) => leave(system, core, 0, Some(value)),
        None => ObjStep::BadCode,
    }
}

// The type of the static field at that place of a domain's.
fn static_type(system: &System, place: u32) -> Option<&[u16]>
    ensures { option_map (λ x. x.now) result ≡ slice_get (static_types system.now) place }
{
    let mut left = place as usize;
    for class in system.program.classes.as_slice() {
        let statics = class.statics.as_slice();
        if left < statics.len() {
            return Some(statics[left].descriptor.as_slice());
        }
        left -= statics.len();
    }
    None
}

// Puts the value into a static field, where there is such a field.
fn put_static(core: &mut Core, place: u32, value: Value)
    ensures store { store_of core.new ≡ record (store_of core.old) {
      statics = slice_set (store_of core.old).statics place value;
    } }
    ensures frames { core.new.frames ≡ core.old.frames }
{
    if (place as usize) < core.statics.len() {
        core.statics[place as usize] = value;
    }
}

/// Takes a value for a static field.
#[tactic(auto, using(crate::proofs::RowForms::put_static_is), unfolding(machine_model::specs::ObjectRows::given, machine_model::specs::ObjectRows::with_result))]
pub fn put_static_row(system: &System, core: &mut Core, place: u32) -> ObjStep
    requires { IsRunnable system.now (core_state core.old) }
    ensures { Runs result core.old core.new
        (λ state. Spec.put_static_row system.now state place) }
{
    let Some(value) = peek(core, 0) else {
        return ObjStep::BadCode;
    };
    let Some(kind) = static_type(system, place) else {
        return ObjStep::BadCode;
    };
    let Some(kept) = fitting_value(system, core, value, kind) else {
        return ObjStep::BadCode;
    };
    put_static(core, place, kept);
    leave(system, core, 1, None)
}
