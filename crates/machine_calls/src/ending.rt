//! How a thread's code ends.
ghost use Rattle.std.specs.Prelude.{◌≡◌, ◌∷◌, [], IfOk, length};
ghost use Rattle.std.specs.List.{All};
ghost use Rattle.interp_core.specs.Cores.{store_of};
ghost use Rattle.jx_base.specs.declared.act.Act.TheVariants as act;
ghost use Rattle.jx_base.specs.declared.value.Value.TheVariants as value;
ghost use Rattle.machine_calls.specs.Calling.{AnswersWith, CanEndIn};
ghost use Rattle.machine_model.specs.Running as Spec;
ghost use Rattle.machine_model.specs.State.{Returned, State, Thread, Threw};
ghost use Rattle.machine_replies.specs.Leaving.{stage_of};
ghost use Rattle.param_copy.specs.Copies.{AreClosed, IsPlaced};
ghost use Rattle.program_model.specs.Parcels as Parcels;

use interp_core::{Core, class_of_object};
use jx_base::{Act, CallId, Listed, OutOfMemory, Parcel, Reason, Value};
use machine_replies::Stage;
use param_copy::{PackFault, pack};
use std::alloc::{AllocError, Global};

// The values packed. `None` where they are too many.
fn packed(alloc: Global, core: &Core, roots: &[Value]) -> Result<Option<Parcel>, OutOfMemory>
    requires roots { All (IsPlaced (length (store_of core.now).objects)) roots.now }
    requires objects { AreClosed (store_of core.now).objects }
    ensures { IfOk result (λ parcel. Parcels.packed (store_of core.now).objects
        (store_of core.now).exports roots.now ≡ parcel) }
{
    match pack(alloc, &core.heap, core.exports.as_slice(), roots) {
        Ok(parcel) => Ok(Some(parcel)),
        Err(PackFault::TooMany) => Ok(None),
        Err(PackFault::OutOfMemory) => Err(AllocError),
    }
}

// What can't be packed is thrown as the parcel without roots and nodes.
#[tactic(auto, unfolding(machine_model::specs::Running::empty_parcel))]
fn throw_nothing(alloc: Global, call: CallId) -> Act
    ensures { result ≡ act.Throw call Spec.empty_parcel }
{
    Act::Throw {
        call,
        parcel: Parcel {
            roots: Listed::from_vec(Vec::new(alloc)),
            nodes: Listed::from_vec(Vec::new(alloc)),
        },
    }
}

// The value as a list.
#[tactic(auto, unfolding(machine_model::specs::Running::result_roots))]
fn result_roots(alloc: Global, value: Option<Value>) -> Result<Vec<Value>, OutOfMemory>
    ensures { IfOk result (λ roots. roots.items ≡ Spec.result_roots value) }
{
    let mut roots = Vec::new(alloc);
    if let Some(value) = value {
        roots.push(value)?;
    }
    Ok(roots)
}

// The call is answered with the value.
fn return_act(
    alloc: Global,
    core: &Core,
    call: CallId,
    value: Option<Value>,
) -> Result<Act, OutOfMemory>
    requires { CanEndIn (store_of core.now) (Returned value) }
    ensures { IfOk result (λ answer. AnswersWith (store_of core.now) call
        (λ parcel. act.Return call parcel) (Spec.result_roots value) answer) }
{
    let roots = result_roots(alloc, value)?;
    Ok(match packed(alloc, core, roots.as_slice())? {
        Some(parcel) => Act::Return { call, parcel },
        None => throw_nothing(alloc, call),
    })
}

// The object is thrown to the caller.
fn throw_act(alloc: Global, core: &Core, call: CallId, object: u32) -> Result<Act, OutOfMemory>
    requires { CanEndIn (store_of core.now) (Threw object) }
    ensures { IfOk result (λ answer. AnswersWith (store_of core.now) call
        (λ parcel. act.Throw call parcel) (value.Ref object ∷ []) answer) }
{
    Ok(match packed(alloc, core, &[Value::Ref(object)])? {
        Some(parcel) => Act::Throw { call, parcel },
        None => throw_nothing(alloc, call),
    })
}

/// The act by which the code of a thread at that stage ends: a thread that serves a call answers
/// it.
#[tactic(auto, unfolding(machine_model::specs::Running::ending_act))]
pub fn ending_act(
    alloc: Global,
    core: &Core,
    call: Option<CallId>,
    stage: Stage,
) -> Result<Act, OutOfMemory>
    requires { CanEndIn (store_of core.now) (stage_of stage) }
    ensures { IfOk result (λ act. (st : State) (x : Thread) → st.store ≡ store_of core.now
        → x.call ≡ call → act ≡ Spec.ending_act st x (stage_of stage)) }
{
    match (stage, call) {
        (Stage::Returned(_), None) => Ok(Act::EndThread(None)),
        (Stage::Returned(value), Some(call)) => return_act(alloc, core, call, value),
        (Stage::Threw(object), None) => Ok(Act::EndThread(class_of_object(core, object))),
        (Stage::Threw(object), Some(call)) => throw_act(alloc, core, call, object),
        (Stage::Going | Stage::Bad, _) => Ok(Act::End(Reason::BadCode)),
    }
}
