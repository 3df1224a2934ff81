//! Why calls and answers are refused.
ghost use Rattle.std.specs.Prelude.{◌≡◌, ◌&&◌, ◌+◌, Some};
ghost use Rattle.jx_base.specs.declared.act.Act.TheVariants.{Call};
ghost use Rattle.jx_base.specs.declared.act.Reply.TheVariants as Reply;
ghost use Rattle.jx_model.specs.Calls as Calls;
ghost use Rattle.jx_model.specs.Portals as Portals;
ghost use Rattle.jx_model.specs.Replies as Replies;
ghost use Rattle.nucleus_calls.specs.Asking.{refused_or};
ghost use Rattle.nucleus_tables.specs.Inner.{IsOf, past_in};

use jx_base::{CallId, DomainId, MethodId, Parcel, Refusal, ServiceId, System};
use nucleus_tables::Tables;
use param_copy::fits;
use parcel_carriage::holds_all;
use service_methods::has_method;

// Whether the domain holds the portals and the memory objects of the parcel.
fn holds_parcel(tables: &Tables, system: &System, domain: DomainId, parcel: &Parcel) -> bool
    requires { IsOf system.now tables.now }
    ensures { result ≡ Replies.holds_all (past_in tables.now) domain.0 parcel.now }
{
    let _ = system;
    holds_all(&tables.services, tables.space.objects(), domain, parcel)
}

// Whether it holds the portal of the service too.
fn holds_asked(
    tables: &Tables,
    system: &System,
    domain: DomainId,
    service: ServiceId,
    parcel: &Parcel,
) -> bool
    requires { IsOf system.now tables.now }
    ensures { result ≡ (Portals.holds_portal (past_in tables.now) domain.0 service.0
        && Replies.holds_all (past_in tables.now) domain.0 parcel.now) }
{
    tables.services.holds(domain, service) && holds_parcel(tables, system, domain, parcel)
}

// Whether the owner of the service lives.
fn has_live_owner(tables: &Tables, system: &System, service: ServiceId) -> bool
    requires { IsOf system.now tables.now }
    ensures { result ≡ Portals.has_live_owner (past_in tables.now) service.0 }
{
    let _ = system;
    match tables.services.owner(service) {
        Some((owner, _)) => tables.lives(owner),
        None => false,
    }
}

// Whether the interface of the service has the method.
fn has_service_method(
    tables: &Tables,
    system: &System,
    service: ServiceId,
    method: MethodId,
) -> bool
    requires { IsOf system.now tables.now }
    ensures { result ≡ Replies.has_service_method system.now (past_in tables.now) service.0
        method.0 }
{
    match tables.services.owner(service) {
        Some((_, interface)) => has_method(system, interface.0 as usize, method.0 as usize),
        None => false,
    }
}

// Whether the domain can have the parcel.
fn fits_domain(tables: &Tables, system: &System, domain: DomainId, parcel: &Parcel) -> bool
    requires { IsOf system.now tables.now }
    ensures { result ≡ Replies.fits_domain_of system.now (past_in tables.now) (Some domain.0)
        parcel.now }
{
    match tables.domains.state(domain) {
        Some(state) => fits(parcel, state.template, system),
        None => false,
    }
}

// Whether the owner of the service can have it.
fn fits_owner(tables: &Tables, system: &System, service: ServiceId, parcel: &Parcel) -> bool
    requires { IsOf system.now tables.now }
    ensures { result ≡ Replies.fits_domain_of system.now (past_in tables.now)
        (Portals.owner_of (past_in tables.now) service.0) parcel.now }
{
    match tables.services.owner(service) {
        Some((owner, _)) => fits_domain(tables, system, owner, parcel),
        None => false,
    }
}

/// Why a call is refused. `None` where it is queued.
pub fn call_refusal(
    tables: &Tables,
    system: &System,
    domain: DomainId,
    service: ServiceId,
    method: MethodId,
    parcel: &Parcel,
) -> Option<Refusal>
    requires { IsOf system.now tables.now }
    ensures { refused_or result
        (Reply.Queued (record { 0 = Calls.calls_made (past_in tables.now) + 1 }))
        ≡ Replies.reply_to system.now (past_in tables.now) domain.0
        (Call service method parcel.now) }
{
    if !holds_asked(tables, system, domain, service, parcel) {
        Some(Refusal::NotHeld)
    } else if !has_live_owner(tables, system, service) {
        Some(Refusal::Gone)
    } else if !has_service_method(tables, system, service, method) {
        Some(Refusal::NoMethod)
    } else if !fits_owner(tables, system, service, parcel) {
        Some(Refusal::Unfit)
    } else {
        None
    }
}

// Whether the caller of the call lives.
fn has_live_caller(tables: &Tables, system: &System, call: CallId) -> bool
    requires { IsOf system.now tables.now }
    ensures { result ≡ Calls.has_live_caller (past_in tables.now) call.0 }
{
    let _ = system;
    match tables.calls.call(call) {
        Some(call) => tables.lives(call.caller),
        None => false,
    }
}

// Whether the caller of the call can have the parcel.
fn fits_caller(tables: &Tables, system: &System, call: CallId, parcel: &Parcel) -> bool
    requires { IsOf system.now tables.now }
    ensures { result ≡ Replies.fits_domain_of system.now (past_in tables.now)
        (Calls.caller_of (past_in tables.now) call.0) parcel.now }
{
    match tables.calls.call(call) {
        Some(call) => fits_domain(tables, system, call.caller, parcel),
        None => false,
    }
}

/// Why an answer of the domain is refused. `None` where the caller gets it.
pub fn answer_refusal(
    tables: &Tables,
    system: &System,
    domain: DomainId,
    call: CallId,
    parcel: &Parcel,
) -> Option<Refusal>
    requires { IsOf system.now tables.now }
    ensures { refused_or result Reply.Done
        ≡ Replies.sent_back system.now (past_in tables.now) domain.0 call.0 parcel.now }
{
    if !has_live_caller(tables, system, call) {
        Some(Refusal::Discarded)
    } else if !holds_parcel(tables, system, domain, parcel) {
        Some(Refusal::NotHeld)
    } else if !fits_caller(tables, system, call, parcel) {
        Some(Refusal::Unfit)
    } else {
        None
    }
}
