//! The answer to a call.
ghost use Rattle.std.specs.Prelude.{◌≡◌, IfOk};
ghost use Rattle.interp_core.specs.Cores.{core_state, store_of};
ghost use Rattle.machine_calls.specs.Calling.{IsHandedTo};
ghost use Rattle.machine_model.specs.AfterEntry as Spec;
ghost use Rattle.machine_replies.specs.Leaving.{CanRun, Comes, IsRepliedTo, Leaves};

use crate::unpacked::{OUT_OF_MEMORY_ERROR, unpack_roots};
use interp_core::{Core, shape_of};
use jx_base::{ClassId, OutOfMemory, Parcel, Reply, System, Value};
use machine_replies::{Stage, fits_result, give_result, raise, throw_object};
use program_types::{COPY_EXCEPTION, THROWABLE, shape_fits_class};
use std::alloc::Global;

// The exception of a call whose service has ended.
const ENDED_EXCEPTION: ClassId = ClassId(22);

// The object that is the one root, where it is of a Throwable class.
#[tactic(auto, unfolding(machine_model::specs::AfterEntry::thrown_root, machine_model::specs::ObjectRows::fits_class, program_model::specs::BuiltIn::throwable_class))]
fn thrown_root(system: &System, core: &Core, roots: &[Value]) -> Option<u32>
    ensures { result ≡ Spec.thrown_root system.now (store_of core.now) roots.now }
{
    let [Value::Ref(object)] = roots else {
        return None;
    };
    if shape_fits_class(
        system,
        false,
        shape_of(core, Value::Ref(*object)),
        THROWABLE.0 as usize,
    ) {
        Some(*object)
    } else {
        None
    }
}

// The value that the call gave is its result, where it fits.
fn resume_value(
    alloc: Global,
    system: &System,
    core: &mut Core,
    parcel: &Parcel,
) -> Result<Option<Stage>, OutOfMemory>
    requires system { CanRun system.now }
    requires parcel { IsHandedTo system.now (core_state core.old) parcel.now }
    ensures { IfOk result (λ stage. Leaves (core_state core.old) (core_state core.new) stage
        (λ st t x. Spec.after_value system.now st t x parcel.now)) }
{
    let Some(roots) = unpack_roots(alloc, core, parcel)? else {
        return Ok(Some(throw_object(system, core, OUT_OF_MEMORY_ERROR)));
    };
    if fits_result(system, core, roots.as_slice()) {
        Ok(give_result(system, core, roots.as_slice().first().copied()))
    } else {
        Ok(Some(raise(system, core, COPY_EXCEPTION)))
    }
}

// The exception that the call gave is thrown, where it is one.
fn resume_thrown(
    alloc: Global,
    system: &System,
    core: &mut Core,
    parcel: &Parcel,
) -> Result<Stage, OutOfMemory>
    requires system { CanRun system.now }
    requires parcel { IsHandedTo system.now (core_state core.old) parcel.now }
    ensures { IfOk result (λ stage. Comes (core_state core.old) (core_state core.new) stage
        (λ st t x. Spec.after_thrown system.now st t x parcel.now)) }
{
    let Some(roots) = unpack_roots(alloc, core, parcel)? else {
        return Ok(throw_object(system, core, OUT_OF_MEMORY_ERROR));
    };
    Ok(match thrown_root(system, core, roots.as_slice()) {
        Some(object) => throw_object(system, core, object),
        None => raise(system, core, COPY_EXCEPTION),
    })
}

/// The thread whose running frame is at the call goes on with the answer.
#[tactic(auto, unfolding(machine_model::specs::AfterEntry::after_resume, program_model::specs::BuiltIn::copy_exception, program_model::specs::BuiltIn::ended_exception))]
pub fn resume(
    alloc: Global,
    system: &System,
    core: &mut Core,
    reply: &Reply,
) -> Result<Option<Stage>, OutOfMemory>
    requires system { CanRun system.now }
    requires reply { IsRepliedTo system.now (core_state core.old) reply.now }
    ensures { IfOk result (λ stage. Leaves (core_state core.old) (core_state core.new) stage
        (λ st t x. Spec.after_resume system.now st t x reply.now)) }
{
    match reply {
        Reply::Value(parcel) => resume_value(alloc, system, core, parcel),
        Reply::Thrown(parcel) => Ok(Some(resume_thrown(alloc, system, core, parcel)?)),
        Reply::CopyFailed => Ok(Some(raise(system, core, COPY_EXCEPTION))),
        _ => Ok(Some(raise(system, core, ENDED_EXCEPTION))),
    }
}
