//! Calls through portals.
ghost use Rattle.std.specs.Prelude.{IfOk};
ghost use Rattle.std.specs.List.{All};
ghost use Rattle.interp_core.specs.Cores.{core_state, store_of};
ghost use Rattle.interp_core.specs.Steps.{Gives};
ghost use Rattle.machine_model.specs.Conditions.{IsHeldBy};
ghost use Rattle.machine_model.specs.ObjectRows.{portal_row};
ghost use Rattle.param_copy.specs.Copies.{AreClosed};

use interp_core::{Core, ObjStep};
use jx_base::{Act, Method, OutOfMemory, ServiceId, Value};
use param_copy::{PackFault, pack};
use program_types::COPY_EXCEPTION;
use std::alloc::{AllocError, Global};

/// The call through a portal, with its arguments packed.
#[tactic(auto, using(crate::proofs::Held::roots_placed), unfolding(machine_model::specs::ObjectRows::portal_row, program_model::specs::BuiltIn::copy_exception))]
pub fn call_portal(
    alloc: Global,
    core: &Core,
    service: ServiceId,
    method: &Method,
    arguments: &[Value],
) -> Result<ObjStep, OutOfMemory>
    requires objects { AreClosed (store_of core.now).objects }
    requires arguments { All (IsHeldBy (store_of core.now)) arguments.now }
    ensures { IfOk result (λ step. Gives step (core_state core.now) (core_state core.now)
        (portal_row (core_state core.now) service method.now arguments.now)) }
{
    match pack(alloc, &core.heap, core.exports.as_slice(), arguments) {
        Ok(parcel) => Ok(ObjStep::Ask(Act::Call {
            service,
            method: method.selector,
            parcel,
        })),
        Err(PackFault::TooMany) => Ok(ObjStep::Raise(COPY_EXCEPTION)),
        Err(PackFault::OutOfMemory) => Err(AllocError),
    }
}
