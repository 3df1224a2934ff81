//! Entries of calls and of their answers.
ghost use Rattle.std.specs.Prelude.{◌≡◌, ◌<◌, IsSome, Some, length};
ghost use Rattle.jx_base.specs.declared.act.Act.TheVariants.{Call, Return, Throw};
ghost use Rattle.jx_base.specs.declared.act.Reply.TheVariants as Replied;
ghost use Rattle.jx_base.specs.declared.states.CallState.TheVariants as Stage;
ghost use Rattle.call_table.specs.CallLists.{IsPending, IsService};
ghost use Rattle.domain_table.specs.DomainLists.{HasThread, thread_in};
ghost use Rattle.jx_model.specs.Calls.{answer_kind, refused_answer, thrown};
ghost use Rattle.jx_model.specs.Replies.{reply_to, sent_back};
ghost use Rattle.nucleus_calls.specs.CallActs.{CanCarry, IsCallReply, after_answer, after_call};
ghost use Rattle.nucleus_calls.specs.CallActs.{next_call, place_for, with_carried, with_queued};
ghost use Rattle.nucleus_calls.specs.CallActs.{with_sent};
ghost use Rattle.nucleus_tables.specs.Inner.{IsOf, IsPermittedIn, past_in, state_of};
ghost use Rattle.nucleus_tables.specs.Portals.{HasNoParcel};
ghost use Rattle.nucleus_tables.specs.Stepping.{IsStepped};
ghost use Rattle.std.specs.Option.{option_and_then};

use crate::asking::{answer_refusal, call_refusal};
use jx_base::{
    Act, AnswerKind, CallId, DomainId, MethodId, Parcel, Refusal, Reply, ServiceId, System,
    ThreadId, ThreadState,
};
use nucleus_tables::{Step, Tables};
use parcel_carriage::ride;

// The kind of an answer that was refused.
fn refused_kind(refusal: Refusal) -> AnswerKind
    ensures { result ≡ answer_kind (refused_answer refusal) }
{
    match refusal {
        Refusal::Discarded => AnswerKind::Discarded,
        _ => AnswerKind::CopyFailed,
    }
}

// The kind of a throw that its caller gets: without a root there is nothing to throw.
fn thrown_kind(parcel: &Parcel) -> AnswerKind
    ensures { result ≡ answer_kind (thrown parcel.now) }
{
    if parcel.roots.as_slice().is_empty() {
        AnswerKind::CopyFailed
    } else {
        AnswerKind::Thrown
    }
}

// Where the answer stands, where it carries a parcel.
fn place_for(kind: AnswerKind, place: u32) -> Option<u32>
    ensures { result ≡ place_for kind place }
{
    match kind {
        AnswerKind::Value | AnswerKind::Thrown => Some(place),
        _ => None,
    }
}

// Queues a call for whose answer the thread waits.
fn queue_call(
    tables: &mut Tables,
    domain: DomainId,
    thread: ThreadId,
    service: ServiceId,
    parcel: &Parcel,
) -> Reply
    requires calls { length tables.old.calls.calls < tables.old.calls.limit }
    requires places { length tables.old.places.places < tables.old.places.limit }
    requires service { IsService service.0 }
    requires thread { HasThread tables.old.domains domain.0 thread.0 }
    requires carried { CanCarry tables.old parcel.now }
    ensures reply { result ≡ Replied.Queued (next_call tables.old) }
    ensures after { tables.new ≡ with_queued tables.old domain thread service parcel.now }
{
    let call = tables.calls.queue(domain, thread, service);
    tables.places.queue(tables.journal.len());
    ride(&mut tables.space, parcel);
    tables
        .domains
        .set_thread(domain, thread, ThreadState::Waiting(call));
    Reply::Queued(call)
}

// Queues a call, or refuses it.
fn ask(
    tables: &mut Tables,
    system: &System,
    domain: DomainId,
    thread: ThreadId,
    service: ServiceId,
    method: MethodId,
    parcel: &Parcel,
) -> Reply
    requires { IsPermittedIn system.now tables.old domain.0 thread.0
        (Call service method parcel.now) }
    ensures reply { result ≡ reply_to system.now (past_in tables.old) domain.0
        (Call service method parcel.now) }
    ensures kind { IsCallReply tables.old result }
    ensures after { tables.new ≡ after_call tables.old domain thread service parcel.now result }
{
    match call_refusal(tables, system, domain, service, method, parcel) {
        Some(refusal) => Reply::Refused(refusal),
        None => queue_call(tables, domain, thread, service, parcel),
    }
}

/// Enters a call.
pub fn enter_call(
    tables: &mut Tables,
    system: &System,
    domain: DomainId,
    thread: ThreadId,
    service: ServiceId,
    method: MethodId,
    parcel: Parcel,
) -> Step
    requires permitted { IsPermittedIn system.now tables.old domain.0 thread.0
        (Call service method parcel) }
    ensures { IsStepped system.now (state_of tables.old) (state_of tables.new) domain.0
        (Call service method parcel) result }
{
    let reply = ask(tables, system, domain, thread, service, method, &parcel);
    let act = Act::Call {
        service,
        method,
        parcel,
    };
    tables.put(domain, thread, act, reply)
}

// Lets an answer with that place, where it has one, carry what the parcel does.
fn carry(tables: &mut Tables, place: Option<u32>, parcel: &Parcel)
    requires { IsSome place → CanCarry tables.old parcel.now }
    ensures { tables.new ≡ with_carried tables.old place parcel.now }
{
    if place.is_some() {
        ride(&mut tables.space, parcel);
    }
}

// Gives the call an answer of that kind with the parcel, after which its thread is idle.
fn send(
    tables: &mut Tables,
    domain: DomainId,
    thread: ThreadId,
    call: CallId,
    kind: AnswerKind,
    service: ServiceId,
    parcel: &Parcel,
)
    requires pending { IsPending tables.old.calls call.0 }
    requires places { length tables.old.places.places ≡ length tables.old.calls.calls }
    requires thread { HasThread tables.old.domains domain.0 thread.0 }
    requires carried { IsSome (place_for kind (length tables.old.journal.entries)) →
        CanCarry tables.old parcel.now }
    ensures { tables.new ≡ with_sent tables.old domain.0 thread.0 call kind
        (place_for kind (length tables.old.journal.entries)) service parcel.now }
{
    let place = place_for(kind, tables.journal.len());
    tables.calls.answer(call, kind);
    tables.places.answer(call, place);
    tables
        .domains
        .set_thread(domain, thread, ThreadState::Idle(service));
    carry(tables, place, parcel);
}

// Answers the call with the parcel, or with nothing where its caller can't have that.
fn send_back(
    tables: &mut Tables,
    system: &System,
    domain: DomainId,
    thread: ThreadId,
    call: CallId,
    parcel: &Parcel,
    done: AnswerKind,
    service: ServiceId,
) -> Reply
    requires tables { IsOf system.now tables.old }
    requires pending { IsPending tables.old.calls call.0 }
    requires room { length tables.old.calls.calls < tables.old.calls.limit }
    requires thread { HasThread tables.old.domains domain.0 thread.0 }
    ensures reply { result ≡ sent_back system.now (past_in tables.old) domain.0 call.0
        parcel.now }
    ensures after { tables.new ≡ after_answer tables.old domain.0 thread.0 call done result
        service parcel.now }
{
    match answer_refusal(tables, system, domain, call, parcel) {
        Some(refusal) => {
            let kind = refused_kind(refusal);
            send(tables, domain, thread, call, kind, service, parcel);
            Reply::Refused(refusal)
        }
        None => {
            send(tables, domain, thread, call, done, service, parcel);
            Reply::Done
        }
    }
}

/// Enters a return.
pub fn enter_return(
    tables: &mut Tables,
    system: &System,
    domain: DomainId,
    thread: ThreadId,
    call: CallId,
    parcel: Parcel,
) -> Step
    requires permitted { IsPermittedIn system.now tables.old domain.0 thread.0
        (Return call parcel) }
    ensures { IsStepped system.now (state_of tables.old) (state_of tables.new) domain.0
        (Return call parcel) result }
{
    let service = tables.domains.service(domain, thread).unwrap();
    let done = AnswerKind::Value;
    let reply = send_back(tables, system, domain, thread, call, &parcel, done, service);
    tables.put(domain, thread, Act::Return { call, parcel }, reply)
}

/// Enters a throw.
pub fn enter_throw(
    tables: &mut Tables,
    system: &System,
    domain: DomainId,
    thread: ThreadId,
    call: CallId,
    parcel: Parcel,
) -> Step
    requires permitted { IsPermittedIn system.now tables.old domain.0 thread.0
        (Throw call parcel) }
    ensures { IsStepped system.now (state_of tables.old) (state_of tables.new) domain.0
        (Throw call parcel) result }
{
    let service = tables.domains.service(domain, thread).unwrap();
    let done = thrown_kind(&parcel);
    let reply = send_back(tables, system, domain, thread, call, &parcel, done, service);
    tables.put(domain, thread, Act::Throw { call, parcel }, reply)
}
