//! The run of a system.
ghost use Rattle.std.specs.Prelude.{◌≡◌, ◌<◌, ◌↔◌, ◌^◌, IsTrue, Some};
ghost use Rattle.jx_base.specs.Files.{HasShelfFailed};
ghost use Rattle.jx_base.specs.Histories.{past_of};
ghost use Rattle.jx_base.specs.Puts.{HasSinkFailed};
ghost use Rattle.jx_model.specs.Legal.{HasEnded};
ghost use Rattle.jx_model.specs.SingleWorker.{IsSingleWorkerHistory};
ghost use Rattle.jx_top.specs.Commands.{IsSystemName, Run};
ghost use Rattle.jx_top.specs.Outcomes.{outcome_of};
ghost use Rattle.jx_top.specs.Requests.{HasCauseFor, PutsFor};
ghost use Rattle.jx_top.specs.Runs.{main_class};
ghost use Rattle.jx_top.specs.Steps.{EndsSo, IsNotYet, PutsAudit, PutsRun, WasLinked};
ghost use Rattle.machine_replies.specs.Leaving.{CanRun};
ghost use Rattle.program_model.specs.Lookup.{class_count};
ghost use Rattle.program_model.specs.Plans.{IsPlanInRange};
ghost use Rattle.supported_acts.specs.SupportedActs.{HasSupportedActs, LacksCode};

use crate::fetching::copy_of;
use crate::finding::find_system;
use crate::status::Status;
use audit_text::render;
use jx_base::{Act, Failed, History, Shelf, Sink, System};
use run_alone::{Stopped, run_alone};
use std::alloc::Global;

// How a run with that history ended.
fn ending(history: &History) -> Status
    requires { HasEnded (past_of history.now) }
    ensures { EndsSo history.now (outcome_of result) }
{
    match history.entries.as_slice().last() {
        Some(last) => match last.act {
            Act::Halt => Status::Halted,
            _ => Status::Done,
        },
        // A complete history has a last entry.
        None => unreachable!(),
    }
}

// Puts the audit of the run.
fn put_audit<K: Sink>(system: &System, history: &History, sink: &mut K) -> Status
    requires complete { IsSingleWorkerHistory system.now history.now }
    requires supported { HasSupportedActs history.now }
    ensures puts { PutsAudit system.now (K.state sink.old) (K.state sink.new) (outcome_of result) }
    ensures cause { result ≡ Status.SinkFault
        → HasSinkFailed (K.state sink.old) (K.state sink.new) }
{
    match render(system, history, sink) {
        Ok(()) => ending(history),
        Err(Failed) => Status::SinkFault,
    }
}

// The name of the main class of the domains of the template.
fn main_class(system: &System, template: u32) -> &str
    requires lacks { LacksCode system.now template }
    requires plan { IsPlanInRange system.now.plan }
    ensures { main_class system.now template ≡ Some result.now }
{
    let main = system.plan.templates.as_slice()[template as usize].main;
    system.plan.classes.as_slice()[main as usize].as_str()
}

// A domain of the template came to an act without code.
fn not_yet(alloc: Global, system: &System, template: u32) -> Status
    requires lacks { LacksCode system.now template }
    requires plan { IsPlanInRange system.now.plan }
    ensures { IsNotYet system.now (outcome_of result) }
{
    match copy_of(alloc, main_class(system, template)) {
        Ok(name) => Status::NotYet(name),
        Err(status) => status,
    }
}

// Runs the system and puts its audit.
fn run_and_put<K: Sink>(alloc: Global, system: &System, sink: &mut K) -> Status
    requires machines { CanRun system.now }
    requires plan { IsPlanInRange system.now.plan }
    ensures puts { PutsRun system.now (K.state sink.old) (K.state sink.new) (outcome_of result) }
    ensures cause { result ≡ Status.SinkFault
        → HasSinkFailed (K.state sink.old) (K.state sink.new) }
{
    match run_alone(alloc, system) {
        Ok(history) => put_audit(system, &history, sink),
        Err(Stopped::NoCode(template)) => not_yet(alloc, system, template),
        Err(Stopped::OutOfMemory) => Status::OutOfMemory,
    }
}

// Whether each class can have a number of 32 bits.
#[tactic(auto, unfolding(program_model::specs::Lookup::class_count))]
fn are_numbered(system: &System) -> bool
    ensures { IsTrue result ↔ (class_count system.now < 2 ^ 32) }
{
    (system.program.classes.as_slice().len() as u64) < 1 << 32
}

// Runs a linked system and puts its audit. For classes without numbers there is no memory.
fn run_linked<K: Sink>(alloc: Global, system: &System, sink: &mut K) -> Status
    requires { WasLinked system.now }
    ensures puts { PutsRun system.now (K.state sink.old) (K.state sink.new) (outcome_of result) }
    ensures cause { result ≡ Status.SinkFault
        → HasSinkFailed (K.state sink.old) (K.state sink.new) }
{
    if are_numbered(system) {
        run_and_put(alloc, system, sink)
    } else {
        Status::OutOfMemory
    }
}

/// Links the system of the file, runs it and puts its audit.
pub fn run_system<L: Shelf, K: Sink>(
    alloc: Global,
    file: &str,
    shelf: &mut L,
    sink: &mut K,
) -> Status
    requires { IsSystemName file.now }
    ensures puts { PutsFor (Run file.now 1) (L.state shelf.old).told
        (K.state sink.old) (K.state sink.new) (outcome_of result) }
    ensures cause { HasCauseFor (Run file.now 1) (L.state shelf.old).told (outcome_of result) }
    ensures shelf { result ≡ Status.ShelfFault
        → HasShelfFailed (L.state shelf.old) (L.state shelf.new) }
    ensures sink { result ≡ Status.SinkFault → HasSinkFailed (K.state sink.old) (K.state sink.new) }
{
    match find_system(alloc, file, shelf) {
        Ok(system) => run_linked(alloc, &system, sink),
        Err(status) => status,
    }
}
