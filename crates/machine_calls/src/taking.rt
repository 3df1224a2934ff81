//! A call that a service takes.
ghost use Rattle.std.specs.Prelude.{◌≡◌, ◌∷◌, IfOk};
ghost use Rattle.interp_core.specs.Cores.{core_state};
ghost use Rattle.jx_base.specs.declared.value.Value.TheVariants as value;
ghost use Rattle.machine_calls.specs.Calling.{HaveFitting, IsHandedTo};
ghost use Rattle.machine_model.specs.AfterEntry as Spec;
ghost use Rattle.machine_replies.specs.Leaving.{CanRun, Comes};
ghost use Rattle.program_model.specs.Types.{parameter_types};

use crate::selected::{begin_selected, selected_at};
use crate::unpacked::{OUT_OF_MEMORY_ERROR, unpack_roots};
use interp_core::Core;
use interp_obj::{all_fit, frame_place, selector_at};
use jx_base::{MethodId, OutOfMemory, Parcel, ServiceId, System, Value};
use machine_replies::{Stage, raise};
use program_types::COPY_EXCEPTION;
use std::alloc::Global;

// The object, and behind it the roots.
fn with_receiver(alloc: Global, object: u32, roots: &[Value]) -> Result<Vec<Value>, OutOfMemory>
    ensures { IfOk result (λ arguments. arguments.items ≡ value.Ref object ∷ roots.now) }
{
    let mut arguments = Vec::with_capacity(alloc, roots.len() + 1)?;
    arguments.push(Value::Ref(object))?;
    arguments.extend_from_slice(roots)?;
    Ok(arguments)
}

// The descriptor of a selector, empty where there is none.
#[tactic(auto, unfolding(machine_model::specs::AfterEntry::parameters_of, program_model::specs::Types::parameter_types, program_model::specs::Types::signature_of))]
fn descriptor_of(system: &System, method: MethodId) -> &[u16]
    ensures { parameter_types result.now ≡ Spec.parameters_of system.now method }
{
    match selector_at(system, method.0) {
        Some(selector) => selector.descriptor.as_slice(),
        None => &[],
    }
}

// The method that is selected begins with the roots, which fit.
fn begin_call(
    alloc: Global,
    system: &System,
    core: &mut Core,
    service: ServiceId,
    method: MethodId,
    roots: &[Value],
) -> Result<Stage, OutOfMemory>
    requires system { CanRun system.now }
    requires roots { HaveFitting system.now (core_state core.old) method roots.now }
    ensures { IfOk result (λ stage. Comes (core_state core.old) (core_state core.new) stage
        (λ st t x. Spec.after_roots system.now st t x service method roots.now)) }
{
    let Some((place, object)) = selected_at(system, core, service, method) else {
        return Ok(Stage::Bad);
    };
    let arguments = with_receiver(alloc, object, roots)?;
    let place = frame_place(place)?;
    begin_selected(alloc, system, core, place, arguments.as_slice())
}

/// A thread without other work takes the call: the parcel is unpacked, and the method that is
/// selected at the service's object begins with the roots.
pub fn take_call(
    alloc: Global,
    system: &System,
    core: &mut Core,
    service: ServiceId,
    method: MethodId,
    parcel: &Parcel,
) -> Result<Stage, OutOfMemory>
    requires system { CanRun system.now }
    requires parcel { IsHandedTo system.now (core_state core.old) parcel.now }
    ensures { IfOk result (λ stage. Comes (core_state core.old) (core_state core.new) stage
        (λ st t x. Spec.after_take system.now st t x service method parcel.now)) }
{
    core.frames.clear();
    let Some(roots) = unpack_roots(alloc, core, parcel)? else {
        return Ok(Stage::Threw(OUT_OF_MEMORY_ERROR));
    };
    if !all_fit(
        system,
        core,
        false,
        roots.as_slice(),
        descriptor_of(system, method),
    ) {
        return Ok(raise(system, core, COPY_EXCEPTION));
    }
    begin_call(alloc, system, core, service, method, roots.as_slice())
}
