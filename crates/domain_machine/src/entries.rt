//! What an entry makes of what a machine holds.
ghost use Rattle.std.specs.Prelude.{◌≡◌, ◌-◌, ◌<◌, IfOk, Some, None, length};
ghost use Rattle.domain_machine.specs.Entering.{CanTake, Leads, ends_code, held_state};
ghost use Rattle.domain_machine.specs.Taking.{CanBeHanded, CanBeReplied, CanExport, IsJob, IsKnown};
ghost use Rattle.domain_machine.specs.Taking.{OfThread, called_by, exported_from, taken_by};
ghost use Rattle.jx_base.specs.declared.act.Act.TheVariants as act;
ghost use Rattle.machine_model.specs.AfterEntry as Spec;
ghost use Rattle.machine_model.specs.AfterEntry.{after_end, with_running_thread};
ghost use Rattle.machine_model.specs.MachineThreads.{at_rest, with_less_fuel};
ghost use Rattle.machine_replies.specs.Leaving.{CanRun};

use crate::held::Held;
use crate::settling::{answer_to, export_by, go_on, reply_to, take_in};
use crate::threads::{add_threads, end_code, put_thread, take_thread};
use jx_base::{
    Act, CallId, ClassId, Entry, MethodId, OutOfMemory, Parcel, Reply, ServiceId, System,
};
use std::alloc::Global;

// An act costs one unit of fuel.
fn spend(fuel: &mut u32)
    ensures { fuel.new ≡ fuel.old - 1 }
{
    *fuel = fuel.saturating_sub(1);
}

// The thread that performed an act goes on with the reply.
fn reply_in(
    alloc: Global,
    system: &System,
    held: &mut Held,
    place: u32,
    reply: &Reply,
) -> Result<bool, OutOfMemory>
    requires system { CanRun system.now }
    requires there { place < length held.old.threads.items }
    requires running { held.old.running ≡ Some place }
    requires reply { CanBeReplied system.now (held_state held.old) place reply.now }
    ensures { IfOk result (λ bad. OfThread (held_state held.old) place (λ x. Leads place
        (Spec.after_reply system.now (with_less_fuel (held_state held.old)) place x reply.now)
        held.new bad)) }
{
    spend(&mut held.fuel);
    let mut thread = take_thread(alloc, &mut held.threads, place as usize);
    let bad = reply_to(alloc, system, &mut held.core, &mut thread, reply)?;
    put_thread(&mut held.threads, place as usize, thread);
    Ok(bad)
}

// The thread that waits for an answer goes on with it.
fn resume_in(
    alloc: Global,
    system: &System,
    held: &mut Held,
    place: u32,
    answer: &Reply,
) -> Result<bool, OutOfMemory>
    requires system { CanRun system.now }
    requires there { place < length held.old.threads.items }
    requires reply { CanBeReplied system.now (held_state held.old) place answer.now }
    ensures { IfOk result (λ bad. OfThread (held_state held.old) place (λ x. Leads place
        (Spec.after_resume system.now (with_running_thread (held_state held.old) place) place x
        answer.now) held.new bad)) }
{
    held.running = Some(place);
    let mut thread = take_thread(alloc, &mut held.threads, place as usize);
    let bad = answer_to(alloc, system, &mut held.core, &mut thread, answer)?;
    put_thread(&mut held.threads, place as usize, thread);
    Ok(bad)
}

// A thread without other work takes the call.
fn call_in(
    alloc: Global,
    system: &System,
    held: &mut Held,
    place: u32,
    call: CallId,
    service: ServiceId,
    method: MethodId,
    parcel: &Parcel,
) -> Result<bool, OutOfMemory>
    requires system { CanRun system.now }
    requires there { place < length held.old.threads.items }
    requires parcel { CanBeHanded system.now (held_state held.old) place parcel.now }
    ensures { IfOk result (λ bad. OfThread (held_state held.old) place (λ x. Leads place
        (taken_by system.now call service method parcel.now
        (with_running_thread (held_state held.old) place) place x) held.new bad)) }
{
    held.running = Some(place);
    let core = &mut held.core;
    let mut thread = take_thread(alloc, &mut held.threads, place as usize);
    let bad = take_in(
        alloc,
        system,
        core,
        &mut thread,
        call,
        service,
        method,
        parcel,
    )?;
    put_thread(&mut held.threads, place as usize, thread);
    Ok(bad)
}

// The object that the thread exports is that of the service, which has so many threads.
fn export_in(
    alloc: Global,
    system: &System,
    held: &mut Held,
    place: u32,
    iface: ClassId,
    threads: u8,
    service: ServiceId,
    reply: &Reply,
) -> Result<bool, OutOfMemory>
    requires system { CanRun system.now }
    requires there { place < length held.old.threads.items }
    requires running { held.old.running ≡ Some place }
    requires reply { OfThread (held_state held.old) place (λ x.
        CanBeReplied system.now (exported_from (held_state held.old) x iface threads service) place
        reply.now) }
    ensures { IfOk result (λ bad. OfThread (held_state held.old) place (λ x. Leads place
        (Spec.after_reply system.now (exported_from (held_state held.old) x iface threads service)
        place x reply.now) held.new bad)) }
{
    spend(&mut held.fuel);
    add_threads(alloc, &mut held.threads, threads)?;
    let mut thread = take_thread(alloc, &mut held.threads, place as usize);
    export_by(&mut held.core, &mut thread, service, iface)?;
    let bad = reply_to(alloc, system, &mut held.core, &mut thread, reply)?;
    put_thread(&mut held.threads, place as usize, thread);
    Ok(bad)
}

// The thread is behind its call, which has no result.
fn behind_in(alloc: Global, system: &System, held: &mut Held, place: u32)
    requires system { CanRun system.now }
    requires there { place < length held.old.threads.items }
    requires core { IsKnown system.now (held_state held.old) place }
    ensures { OfThread (held_state held.old) place (λ x. held_state held.new
        ≡ Spec.after_result system.now (with_less_fuel (held_state held.old)) place x None) }
{
    spend(&mut held.fuel);
    let mut thread = take_thread(alloc, &mut held.threads, place as usize);
    go_on(system, &mut held.core, &mut thread);
    put_thread(&mut held.threads, place as usize, thread);
}

// The thread's code has ended.
fn end_in(alloc: Global, held: &mut Held, place: u32)
    requires { place < length held.old.threads.items }
    ensures { OfThread (held_state held.old) place (λ x. held_state held.new
        ≡ after_end (held_state held.old) place x) }
{
    let mut thread = take_thread(alloc, &mut held.threads, place as usize);
    end_code(&mut thread);
    put_thread(&mut held.threads, place as usize, thread);
    held.running = None;
}

// The thread waits for the answer to its call.
fn wait_in(held: &mut Held)
    ensures { held_state held.new ≡ at_rest (with_less_fuel (held_state held.old)) }
{
    spend(&mut held.fuel);
    held.running = None;
}

// What a take makes of it, which is answered with the call.
fn after_take(
    alloc: Global,
    system: &System,
    held: &mut Held,
    place: u32,
    call: CallId,
    reply: &Reply,
) -> Result<bool, OutOfMemory>
    requires system { CanRun system.now }
    requires there { place < length held.old.threads.items }
    requires reply { CanBeReplied system.now (held_state held.old) place reply.now }
    requires job { IsJob reply.now }
    ensures { IfOk result (λ bad. OfThread (held_state held.old) place (λ x. Leads place
        (Spec.after_act system.now (held_state held.old) place x (act.Take call) reply.now)
        held.new bad)) }
{
    match reply {
        Reply::Job {
            service,
            method,
            parcel,
        } => {
            let bad = call_in(alloc, system, held, place, call, *service, *method, parcel)?;
            Ok(bad)
        }
        _ => {
            behind_in(alloc, system, held, place);
            Ok(false)
        }
    }
}

// What a call through a portal makes of it: the caller waits, unless it was refused.
fn after_call(
    alloc: Global,
    system: &System,
    held: &mut Held,
    place: u32,
    reply: &Reply,
) -> Result<bool, OutOfMemory>
    requires system { CanRun system.now }
    requires there { place < length held.old.threads.items }
    requires running { held.old.running ≡ Some place }
    requires reply { CanBeReplied system.now (held_state held.old) place reply.now }
    ensures { IfOk result (λ bad. OfThread (held_state held.old) place (λ x. Leads place
        (called_by system.now (held_state held.old) place x reply.now) held.new bad)) }
{
    if let Reply::Queued(_) = reply {
        wait_in(held);
        return Ok(false);
    }
    let bad = reply_in(alloc, system, held, place, reply)?;
    Ok(bad)
}

// What an export makes of it, unless it was refused.
fn after_export(
    alloc: Global,
    system: &System,
    held: &mut Held,
    place: u32,
    iface: ClassId,
    threads: u8,
    reply: &Reply,
) -> Result<bool, OutOfMemory>
    requires system { CanRun system.now }
    requires there { place < length held.old.threads.items }
    requires running { held.old.running ≡ Some place }
    requires export { CanExport system.now (held_state held.old) place iface threads reply.now }
    ensures { IfOk result (λ bad. OfThread (held_state held.old) place (λ x. Leads place
        (Spec.after_act system.now (held_state held.old) place x (act.Export iface threads)
        reply.now) held.new bad)) }
{
    if let Reply::Service(service, _) = reply {
        let bad = export_in(alloc, system, held, place, iface, threads, *service, reply)?;
        return Ok(bad);
    }
    let bad = reply_in(alloc, system, held, place, reply)?;
    Ok(bad)
}

// Whether the act ends the code of its thread.
#[tactic(auto, unfolding(crate::specs::Entering::ends_code))]
fn ends_code(act: &Act) -> bool
    ensures { result ≡ ends_code act.now }
{
    matches!(
        act,
        Act::Return { .. } | Act::Throw { .. } | Act::EndThread(_) | Act::Exit(_) | Act::End(_)
    )
}

/// The entry is taken. Whether its thread met bad code: what is held then is open.
pub fn take_entry(
    alloc: Global,
    system: &System,
    held: &mut Held,
    entry: &Entry,
) -> Result<bool, OutOfMemory>
    requires system { CanRun system.now }
    requires entry { CanTake system.now (held_state held.old) entry.now }
    ensures { IfOk result (λ bad. Leads entry.now.thread.0
        (Spec.after_entry system.now (held_state held.old) entry.now) held.new bad) }
{
    let place = entry.thread.0;
    let reply = &entry.reply;
    if ends_code(&entry.act) {
        end_in(alloc, held, place);
        return Ok(false);
    }
    match &entry.act {
        Act::Take(call) => Ok(after_take(alloc, system, held, place, *call, reply)?),
        Act::Resume(_) => Ok(resume_in(alloc, system, held, place, reply)?),
        Act::Go(_) => {
            held.running = Some(place);
            Ok(false)
        }
        Act::Call { .. } => Ok(after_call(alloc, system, held, place, reply)?),
        Act::Export { iface, threads } => {
            let bad = after_export(alloc, system, held, place, *iface, *threads, reply)?;
            Ok(bad)
        }
        Act::Yield => {
            behind_in(alloc, system, held, place);
            held.running = None;
            Ok(false)
        }
        _ => Ok(reply_in(alloc, system, held, place, reply)?),
    }
}
