//! The reply to an act is the result of its call, or an exception.
ghost use Rattle.std.specs.Prelude.{◌≡◌, ◌<◌, ◌^◌, [], ◌∷◌, IfOk, IfSome, codes};
ghost use Rattle.std.specs.Option.{unwrap_or};
ghost use Rattle.interp_core.specs.Cores.{core_state};
ghost use Rattle.jx_base.specs.declared.value.Value.TheVariants as value;
ghost use Rattle.machine_model.specs.AfterEntry as Spec;
ghost use Rattle.machine_model.specs.AfterEntry.{after_reply, after_split};
ghost use Rattle.machine_replies.specs.Leaving.{CanRun, HasPast, IsRepliedTo, Leaves};
ghost use Rattle.program_model.specs.Lookup.{class_count, class_named};

use crate::results::{come_back, give_result, go_behind};
use crate::sites::taken_first;
use crate::stage::Stage;
use crate::throwing::{raise, throw_at};
use interp_core::{Contents, Core, make_object};
use jx_base::{ClassId, ObjectId, OutOfMemory, Refusal, Reply, System, Value, text_of};
use program_types::{COPY_EXCEPTION, RANGE_EXCEPTION, class_named};
use std::alloc::Global;

// The built-in class jx/EndedException.
const ENDED_EXCEPTION: ClassId = ClassId(22);

// The built-in class jx/RevokedException.
const REVOKED_EXCEPTION: ClassId = ClassId(23);

// The built-in class jx/DroppedException.
const DROPPED_EXCEPTION: ClassId = ClassId(24);

// The built-in class jx/RefusedException.
const REFUSED_EXCEPTION: ClassId = ClassId(26);

// The object that is thrown for want of room.
const OUT_OF_MEMORY_ERROR: u32 = 0;

// The class of the exception that tells of a refusal.
#[tactic(auto, unfolding(machine_model::specs::AfterEntry::exception_of, program_model::specs::BuiltIn::opened_built_in))]
fn exception_of(refusal: Refusal) -> ClassId
    ensures { result.0 ≡ Spec.exception_of refusal }
{
    match refusal {
        Refusal::NotHeld => DROPPED_EXCEPTION,
        Refusal::Revoked => REVOKED_EXCEPTION,
        Refusal::Range => RANGE_EXCEPTION,
        Refusal::Unfit => COPY_EXCEPTION,
        Refusal::Gone => ENDED_EXCEPTION,
        _ => REFUSED_EXCEPTION,
    }
}

// The class of that place, or the first one where there is none.
fn class_at_place(place: Option<usize>) -> ClassId
    requires { IfSome place (λ c. c < 2 ^ 32) }
    ensures { result.0 ≡ unwrap_or place 0 }
{
    ClassId(place.unwrap_or(0) as u32)
}

// The class of jx.Memory[], or the first one where there is none.
fn memory_array(alloc: Global, system: &System) -> Result<ClassId, OutOfMemory>
    requires { class_count system.now < 2 ^ 32 }
    ensures { IfOk result (λ class. class.0
        ≡ unwrap_or (class_named system.now (codes "[Ljx/Memory;")) 0) }
{
    let name = text_of(alloc, "[Ljx/Memory;")?;
    Ok(class_at_place(class_named(system, name.as_slice())))
}

// The thread goes on with an array of the two halves of a memory object.
fn give_halves(
    alloc: Global,
    system: &System,
    core: &mut Core,
    low: ObjectId,
    high: ObjectId,
) -> Result<Option<Stage>, OutOfMemory>
    requires system { CanRun system.now }
    requires core { HasPast system.now (core_state core.old) }
    ensures { IfOk result (λ stage. Leaves (core_state core.old) (core_state core.new) stage
        (λ st t x. after_split system.now st t x (value.Mem low ∷ value.Mem high ∷ []))) }
{
    let class = memory_array(alloc, system)?;
    let taken = taken_first(system, core);
    let halves = [Value::Mem(low), Value::Mem(high)];
    match make_object(core, class, Contents::Values(&halves)) {
        Some(array) => Ok(come_back(system, core, taken, Some(Value::Ref(array)))),
        None => Ok(Some(throw_at(system, core, OUT_OF_MEMORY_ERROR))),
    }
}

/// The thread whose running frame is at the call that performed the act goes on with the reply.
#[tactic(auto, unfolding(machine_model::specs::AfterEntry::after_reply))]
pub fn give_reply(
    alloc: Global,
    system: &System,
    core: &mut Core,
    reply: &Reply,
) -> Result<Option<Stage>, OutOfMemory>
    requires system { CanRun system.now }
    requires reply { IsRepliedTo system.now (core_state core.old) reply.now }
    ensures { IfOk result (λ stage. Leaves (core_state core.old) (core_state core.new) stage
        (λ st t x. after_reply system.now st t x reply.now)) }
{
    match reply {
        Reply::Service(service, iface) => {
            Ok(give_result(system, core, Some(Value::Portal(*service, *iface))))
        }
        Reply::NoName => Ok(give_result(system, core, Some(Value::Null))),
        Reply::Number(number) => Ok(give_result(system, core, Some(Value::Int(*number)))),
        Reply::Domain(domain, _) => {
            Ok(give_result(system, core, Some(Value::Int(domain.0 as i32))))
        }
        Reply::Made(object, _) | Reply::Object(object) => {
            Ok(give_result(system, core, Some(Value::Mem(*object))))
        }
        Reply::Pair(low, high) => give_halves(alloc, system, core, *low, *high),
        Reply::Refused(refusal) => Ok(Some(raise(system, core, exception_of(*refusal)))),
        _ => Ok(go_behind(system, core)),
    }
}
