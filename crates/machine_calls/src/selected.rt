//! The method that a call of a service runs.
ghost use Rattle.std.specs.Prelude.{◌≡◌, [], IfOk, IfSome};
ghost use Rattle.std.specs.List.{All};
ghost use Rattle.interp_core.specs.Cores.{core_state, store_of};
ghost use Rattle.machine_laws.specs.Called.{IsCallOf};
ghost use Rattle.machine_model.specs.AfterEntry as Spec;
ghost use Rattle.machine_model.specs.BuiltInMethods.{built_in_outcome};
ghost use Rattle.machine_model.specs.Conditions.{IsHeldBy};
ghost use Rattle.program_model.specs.Lookup as Lookup;
ghost use Rattle.machine_replies.specs.Leaving.{CanRun, Comes, HasPast};

use crate::unpacked::OUT_OF_MEMORY_ERROR;
use class_grammar::is_abstract;
use interp_built_in::{BuiltInAnswer, run_built_in};
use interp_core::{Core, class_of_object};
use interp_obj::{method_at, selected_method};
use jx_base::{Method, MethodId, OutOfMemory, ServiceId, System, Value};
use machine_replies::{Stage, begin_method, raise};
use program_types::BUILT_IN_COUNT;
use std::alloc::Global;

// The object of a service of the domain.
#[tactic(auto, unfolding(machine_model::specs::AfterEntry::service_object))]
fn service_object(core: &Core, service: ServiceId) -> Option<u32>
    ensures { result ≡ Spec.service_object (store_of core.now) service }
{
    let exported = core
        .exports
        .as_slice()
        .iter()
        .find(|exported| exported.service.0 == service.0)?;
    Some(exported.object)
}

/// The place of the method that the call's selector selects at the service's object, and that
/// object.
#[tactic(auto, unfolding(machine_model::specs::AfterEntry::selected_at))]
pub fn selected_at(
    system: &System,
    core: &Core,
    service: ServiceId,
    method: MethodId,
) -> Option<(usize, u32)>
    ensures { result ≡ Spec.selected_at system.now (store_of core.now) service method }
{
    let object = service_object(core, service)?;
    let class = class_of_object(core, object)?;
    let place = selected_method(system, class.0, method.0)?;
    Some((place, object))
}

// A built-in method has no frame and costs nothing.
fn run_selected(
    alloc: Global,
    system: &System,
    core: &mut Core,
    method: &Method,
    arguments: &[Value],
) -> Result<Stage, OutOfMemory>
    requires system { CanRun system.now }
    requires core { HasPast system.now (core_state core.old) }
    requires frames { (core_state core.old).frames ≡ [] }
    requires arguments { All (IsHeldBy (store_of core.old)) arguments.now }
    requires call { IsCallOf system.now (store_of core.old) method.now arguments.now }
    ensures { IfOk result (λ stage. Comes (core_state core.old) (core_state core.new) stage
        (λ st t x. Spec.after_built_in system.now st t x
        (built_in_outcome system.now (store_of core.old) method.now arguments.now))) }
{
    Ok(
        match run_built_in(alloc, core, system, method, arguments)? {
            BuiltInAnswer::Gives(value) => Stage::Returned(value),
            BuiltInAnswer::Raises(class) => raise(system, core, class),
            BuiltInAnswer::HasNoRoom => Stage::Threw(OUT_OF_MEMORY_ERROR),
            BuiltInAnswer::Performs(_) | BuiltInAnswer::Unfit => Stage::Bad,
        },
    )
}

/// The selected method begins with these arguments, the object first.
#[tactic(auto, unfolding(machine_model::specs::AfterEntry::after_selection))]
pub fn begin_selected(
    alloc: Global,
    system: &System,
    core: &mut Core,
    place: u32,
    arguments: &[Value],
) -> Result<Stage, OutOfMemory>
    requires system { CanRun system.now }
    requires core { HasPast system.now (core_state core.old) }
    requires frames { (core_state core.old).frames ≡ [] }
    requires arguments { All (IsHeldBy (store_of core.old)) arguments.now }
    requires call { IfSome (Lookup.method_at system.now place)
        (λ k. IsCallOf system.now (store_of core.old) k arguments.now) }
    ensures { IfOk result (λ stage. Comes (core_state core.old) (core_state core.new) stage
        (λ st t x. Spec.after_selection system.now st t x place arguments.now)) }
{
    let Some(method) = method_at(system, place) else {
        return Ok(Stage::Bad);
    };
    if is_abstract(method.flags) {
        Ok(Stage::Bad)
    } else if (method.class.0 as usize) < BUILT_IN_COUNT {
        run_selected(alloc, system, core, method, arguments)
    } else {
        begin_method(alloc, system, core, place, arguments)
    }
}
