//! Entries of takes and resumes.
ghost use Rattle.std.specs.Prelude.{◌≡◌, ◌≤◌, IfOk, Some, false, true};
ghost use Rattle.domain_flags.specs.FlagLists.{IsDomain};
ghost use Rattle.jx_base.specs.declared.act.Act.TheVariants.{Go, Resume, Return, Take, Throw};
ghost use Rattle.jx_base.specs.declared.act.Reply.TheVariants as Replied;
ghost use Rattle.jx_base.specs.declared.states.CallState.TheVariants as Stage;
ghost use Rattle.jx_model.specs.Calls as Calls;
ghost use Rattle.jx_model.specs.Calls.{Answer, answer_kind, answer_of, asked_by, asked_of};
ghost use Rattle.jx_model.specs.Calls.{calls_made};
ghost use Rattle.jx_model.specs.Replies.{answer_reply, job_of, or_done, reply_to};
ghost use Rattle.nucleus_calls.specs.CallActs.{CanReceive, after_resume, after_take, with_received};
ghost use Rattle.nucleus_tables.specs.CallTables.{has_parcel};
ghost use Rattle.nucleus_tables.specs.Entering.{thread_state_after};
ghost use Rattle.nucleus_tables.specs.Inner.{IsOf, IsPermittedIn, past_in, state_of};
ghost use Rattle.nucleus_tables.specs.Stepping.{IsStepped};
ghost use Rattle.std.specs.Option.{option_and_then};

use crate::copies::copy_reply;
use jx_base::{
    Act, AnswerKind, CallId, CallState, DomainId, OutOfMemory, Parcel, Reply, System, ThreadId,
    ThreadState,
};
use nucleus_tables::{Step, Tables};
use parcel_carriage::{copy_parcel, give_objects, give_portals, land};
use std::alloc::Global;

// What an act asks, as the one who takes its call gets it.
#[tactic(auto, unfolding(jx_model::specs::Calls::asked_by, jx_model::specs::Replies::job_of))]
fn job_in(alloc: Global, act: &Act) -> Result<Reply, OutOfMemory>
    ensures { IfOk result (λ reply. reply ≡ job_of (asked_by act.now)) }
{
    match act {
        Act::Call {
            service,
            method,
            parcel,
        } => Ok(Reply::Job {
            service: *service,
            method: *method,
            parcel: copy_parcel(alloc, parcel)?,
        }),
        _ => Ok(Reply::Done),
    }
}

// What the caller gets of a done return or throw.
fn answer_in(alloc: Global, act: &Act) -> Result<Reply, OutOfMemory>
    ensures returned { IfOk result (λ reply. (c : CallId) (p : Parcel) → act.now ≡ Return c p →
        reply ≡ Replied.Value p) }
    ensures thrown { IfOk result (λ reply. (c : CallId) (p : Parcel) → act.now ≡ Throw c p →
        reply ≡ Replied.Thrown p) }
{
    match act {
        Act::Return { parcel, .. } => Ok(Reply::Value(copy_parcel(alloc, parcel)?)),
        Act::Throw { parcel, .. } => Ok(Reply::Thrown(copy_parcel(alloc, parcel)?)),
        _ => Ok(Reply::Done),
    }
}

// What the caller gets of an answer of a kind that carries no parcel.
fn bare_answer(kind: AnswerKind) -> Reply
    ensures { (a : Answer) → kind ≡ answer_kind a → has_parcel (Stage.Answered kind) ≡ false →
        result ≡ or_done (answer_reply a) }
{
    match kind {
        AnswerKind::CopyFailed => Reply::CopyFailed,
        AnswerKind::Ended => Reply::Ended,
        _ => Reply::Done,
    }
}

// What the call asked, as the one who takes it gets it.
fn job(tables: &Tables, alloc: Global, system: &System, call: CallId) -> Result<Reply, OutOfMemory>
    requires tables { IsOf system.now tables.now }
    requires made { (1 ≤ call.0) × (call.0 ≤ calls_made (past_in tables.now)) }
    ensures { IfOk result (λ reply. reply ≡ job_of (asked_of (past_in tables.now) call.0)) }
{
    let _ = system;
    let place = tables.places.of(call).queued;
    job_in(alloc, &tables.journal.at(place).act)
}

// Gives the domain what the parcel carries, which its call carries no more.
fn receive(tables: &mut Tables, domain: DomainId, parcel: &Parcel)
    requires domain { IsDomain domain.0 }
    requires parcel { CanReceive tables.old parcel.now }
    ensures { tables.new ≡ with_received tables.old domain.0 (Some parcel.now) }
{
    give_portals(&mut tables.services, domain, parcel);
    give_objects(&mut tables.space, domain, parcel);
    land(&mut tables.space, parcel);
}

// The thread serves the call, and its domain has what the job carries.
fn take(
    tables: &mut Tables,
    system: &System,
    domain: DomainId,
    thread: ThreadId,
    call: CallId,
    job: &Reply,
)
    requires permitted { IsPermittedIn system.now tables.old domain.0 thread.0 (Take call) }
    requires job { job.now ≡ reply_to system.now (past_in tables.old) domain.0 (Take call) }
    ensures { tables.new ≡ after_take tables.old domain.0 thread.0 call job.now }
{
    let _ = system;
    let service = tables.calls.call(call).unwrap().service;
    tables.calls.take(service);
    tables
        .domains
        .set_thread(domain, thread, ThreadState::Serving(call));
    match job {
        Reply::Job { parcel, .. } => receive(tables, domain, parcel),
        _ => {}
    }
}

/// Enters a take.
pub fn enter_take(
    tables: &mut Tables,
    alloc: Global,
    system: &System,
    domain: DomainId,
    thread: ThreadId,
    call: CallId,
) -> Step
    requires permitted { IsPermittedIn system.now tables.old domain.0 thread.0 (Take call) }
    ensures { IsStepped system.now (state_of tables.old) (state_of tables.new) domain.0
        (Take call) result }
{
    let Ok(job) = job(tables, alloc, system, call) else {
        return Step::OutOfMemory;
    };
    let Ok(copy) = copy_reply(alloc, &job) else {
        return Step::OutOfMemory;
    };
    take(tables, system, domain, thread, call, &job);
    tables.put_copied(domain, thread, Act::Take(call), job, copy)
}

// What the caller of the call gets.
fn answer(
    tables: &Tables,
    alloc: Global,
    system: &System,
    call: CallId,
) -> Result<Reply, OutOfMemory>
    requires tables { IsOf system.now tables.now }
    requires resumable { Calls.is_resumable (past_in tables.now) call.0 ≡ true }
    ensures { IfOk result (λ reply. reply
        ≡ or_done (option_and_then answer_reply (answer_of (past_in tables.now) call.0))) }
{
    let _ = system;
    match tables.places.of(call).answered {
        Some(place) => answer_in(alloc, &tables.journal.at(place).act),
        None => match tables.calls.state(call) {
            CallState::Answered(kind) => Ok(bare_answer(kind)),
            // A call that can be resumed is answered.
            _ => unreachable!(),
        },
    }
}

// The thread goes on after the call, and its domain has what the answer carries.
fn resume(
    tables: &mut Tables,
    system: &System,
    domain: DomainId,
    thread: ThreadId,
    call: CallId,
    answer: &Reply,
)
    requires permitted { IsPermittedIn system.now tables.old domain.0 thread.0 (Resume call) }
    requires answer { answer.now
        ≡ reply_to system.now (past_in tables.old) domain.0 (Resume call) }
    ensures { tables.new ≡ after_resume tables.old domain.0 thread.0 call
        (thread_state_after tables.old domain.0 thread.0 (Go thread)) answer.now }
{
    let _ = system;
    let state = tables.resumed(domain, thread);
    tables.domains.set_thread(domain, thread, state);
    tables.calls.resume(call);
    tables.places.answer(call, None);
    match answer {
        Reply::Value(parcel) => receive(tables, domain, parcel),
        Reply::Thrown(parcel) => receive(tables, domain, parcel),
        _ => {}
    }
}

/// Enters a resume.
pub fn enter_resume(
    tables: &mut Tables,
    alloc: Global,
    system: &System,
    domain: DomainId,
    thread: ThreadId,
    call: CallId,
) -> Step
    requires permitted { IsPermittedIn system.now tables.old domain.0 thread.0 (Resume call) }
    ensures { IsStepped system.now (state_of tables.old) (state_of tables.new) domain.0
        (Resume call) result }
{
    let Ok(answer) = answer(tables, alloc, system, call) else {
        return Step::OutOfMemory;
    };
    let Ok(copy) = copy_reply(alloc, &answer) else {
        return Step::OutOfMemory;
    };
    resume(tables, system, domain, thread, call, &answer);
    tables.put_copied(domain, thread, Act::Resume(call), answer, copy)
}
