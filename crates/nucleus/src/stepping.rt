//! One step: what has ended, what may not come, or the entry of the act.
ghost use Rattle.std.specs.Prelude.{◌≡◌, ◌⊎◌, IfErr, IfNone, IfOk, IfSome, Some, false, true};
ghost use Rattle.jx_model.specs.Domains.{is_live, is_made};
ghost use Rattle.jx_model.specs.Permits as Permits;
ghost use Rattle.jx_model.specs.WhyNot.{CanBeAsked, why_not};
ghost use Rattle.nucleus_tables.specs.Inner.{IsOf, IsPermittedIn, past_in, state_of};
ghost use Rattle.nucleus_tables.specs.Stepping.{IsOver, IsStepped, MayCome};

use jx_base::{Act, DomainId, Reason, System, ThreadId, ThreadState, Why};
use nucleus_calls::{
    enter_bind, enter_call, enter_export, enter_lookup, enter_resume, enter_return, enter_take,
    enter_throw,
};
use nucleus_domains::{enter_create, enter_end, enter_ending, enter_plain, enter_thread};
use nucleus_tables::{Ending, Step, Tables};
use std::alloc::Global;

#[tactic(auto, unfolding(jx_model::specs::Permits::is_halt))]
fn is_halt(act: &Act) -> bool
    ensures { result ≡ Permits.is_halt act.now }
{
    matches!(act, Act::Halt)
}

#[tactic(auto, unfolding(jx_model::specs::Permits::is_zero_act))]
fn is_zero_act(act: &Act) -> bool
    ensures { result ≡ Permits.is_zero_act act.now }
{
    matches!(act, Act::Create(_) | Act::Quiet | Act::Halt)
}

// What has ended: the run, or else the domain.
fn ending(tables: &Tables, system: &System, domain: DomainId) -> Option<Ending>
    requires tables { IsOf system.now tables.now }
    requires domain { (domain.0 ≡ 0) ⊎ (is_made (past_in tables.now) domain.0 ≡ true) }
    ensures over { IfSome result (IsOver (past_in tables.now) domain.0) }
    ensures going { IfNone result (Permits.is_over (past_in tables.now) ≡ false) }
    ensures actor { IfNone result
        ((domain.0 ≡ 0) ⊎ (is_live (past_in tables.now) domain.0 ≡ true)) }
{
    let _ = system;
    if tables.over {
        return Some(Ending::Run);
    }
    Some(Ending::Domain(tables.domains.state(domain)?.ended?))
}

// The thread in which the act may come now, or why it may not.
fn permit(tables: &Tables, system: &System, domain: DomainId, act: &Act) -> Result<ThreadId, Why>
    requires tables { IsOf system.now tables.now }
    requires act { MayCome system.now (past_in tables.now) domain.0 act.now }
    requires asked { CanBeAsked system.now (past_in tables.now) domain.0 act.now }
    ensures thread { IfOk result (λ t.
        Permits.acting_thread system.now (past_in tables.now) domain.0 act.now ≡ Some t.0) }
    ensures why { IfErr result (λ why.
        why_not system.now (past_in tables.now) domain.0 act.now ≡ Some why) }
{
    if domain.0 == 0 {
        tables.permit_zero(system, act)?;
        return Ok(ThreadId(0));
    }
    if is_zero_act(act) {
        return Err(Why::WrongActor);
    }
    match tables.next_boot(system) {
        Some(boot) => Err(Why::Boot(boot)),
        None => tables.permit_domain(system, domain, act),
    }
}

// Enters a permitted act.
fn enter(
    tables: &mut Tables,
    alloc: Global,
    system: &System,
    domain: DomainId,
    thread: ThreadId,
    act: Act,
) -> Step
    requires { IsPermittedIn system.now tables.old domain.0 thread.0 act }
    ensures { IsStepped system.now (state_of tables.old) (state_of tables.new) domain.0 act result }
{
    match act {
        Act::Create(template) => enter_create(tables, system, template),
        Act::Quiet => enter_ending(tables, system, Act::Quiet),
        Act::Halt => enter_ending(tables, system, Act::Halt),
        Act::Exit(code) => {
            enter_end(
                tables,
                system,
                domain,
                thread,
                Act::Exit(code),
                Reason::Exit(code),
            )
        }
        Act::End(reason) => enter_end(tables, system, domain, thread, Act::End(reason), reason),
        Act::Export { iface, threads } => {
            enter_export(tables, system, domain, thread, iface, threads)
        }
        Act::Bind { name, service } => enter_bind(tables, system, domain, thread, name, service),
        Act::Lookup { name } => enter_lookup(tables, system, domain, thread, name),
        Act::Call {
            service,
            method,
            parcel,
        } => enter_call(tables, system, domain, thread, service, method, parcel),
        Act::Take(call) => enter_take(tables, alloc, system, domain, thread, call),
        Act::Return { call, parcel } => {
            enter_return(tables, system, domain, thread, call, parcel)
        }
        Act::Throw { call, parcel } => { enter_throw(tables, system, domain, thread, call, parcel) }
        Act::Resume(call) => enter_resume(tables, alloc, system, domain, thread, call),
        Act::Go(number) => {
            let state = tables.resumed(domain, thread);
            enter_thread(tables, system, domain, thread, Act::Go(number), state)
        }
        Act::Yield => {
            enter_thread(
                tables,
                system,
                domain,
                thread,
                Act::Yield,
                ThreadState::Yielded,
            )
        }
        Act::EndThread(class) => {
            let act = Act::EndThread(class);
            enter_thread(tables, system, domain, thread, act, ThreadState::Over)
        }
        act => enter_plain(tables, system, domain, thread, act),
    }
}

// A step where nothing has ended.
fn step_going(
    tables: &mut Tables,
    alloc: Global,
    system: &System,
    domain: DomainId,
    act: Act,
) -> Step
    requires tables { IsOf system.now tables.old }
    requires act { MayCome system.now (past_in tables.old) domain.0 act }
    requires going { Permits.is_over (past_in tables.old) ≡ false }
    requires actor { (domain.0 ≡ 0) ⊎ (is_live (past_in tables.old) domain.0 ≡ true) }
    ensures { IsStepped system.now (state_of tables.old) (state_of tables.new) domain.0 act result }
{
    if tables.is_full(system) && !is_halt(&act) {
        return Step::Full(tables.journal.words());
    }
    match permit(tables, system, domain, &act) {
        Ok(thread) => enter(tables, alloc, system, domain, thread, act),
        Err(why) => Step::NotNow(why),
    }
}

/// A step: what `Nucleus::step` says.
pub fn step(tables: &mut Tables, alloc: Global, system: &System, domain: DomainId, act: Act) -> Step
    requires tables { IsOf system.now tables.old }
    requires act { MayCome system.now (past_in tables.old) domain.0 act }
    ensures { IsStepped system.now (state_of tables.old) (state_of tables.new) domain.0 act result }
{
    match ending(tables, system, domain) {
        Some(ending) => Step::Over(ending),
        None => step_going(tables, alloc, system, domain, act),
    }
}
