//! A domain's machine.
ghost use Rattle.std.specs.Prelude.{◌≡◌, [], IfOk, IsSome};
ghost use Rattle.domain_machine.specs.Machines.{HasRun, HasTaken, IsEntryOf, IsMachineOf};
ghost use Rattle.domain_machine.specs.Machines.{StandsFor};
ghost use Rattle.machine_replies.specs.Leaving.{CanRun};
ghost use Rattle.program_model.specs.Lookup.{template_at};

use domain_machine::{Machine, Next};
use jx_base::{Entry, OutOfMemory, System};
use std::alloc::Global;

/// A domain: its template, as a place in the plan, and the machine that runs its code.
#[derive(Drop)]
pub struct Actor {
    pub template: u32,
    pub machine: Machine,
}

/// A domain of the template of that place, before its first instruction.
pub fn first_actor(alloc: Global, system: &System, template: u32) -> Result<Actor, OutOfMemory>
    requires system { CanRun system.now }
    requires template { IsSome (template_at system.now template) }
    ensures machine { IfOk result (λ actor. StandsFor system.now template [] actor.machine) }
    ensures template { IfOk result (λ actor. actor.template ≡ template) }
{
    Ok(Actor {
        template,
        machine: Machine::start(alloc, system, template)?,
    })
}

/// Runs the domain's code up to its next act, and says what it is.
pub fn run_actor(alloc: Global, system: &System, actor: &mut Actor) -> Result<Next, OutOfMemory>
    requires { IsMachineOf system.now actor.old.machine }
    ensures next { IfOk result (HasRun system.now actor.old.machine actor.new.machine) }
    ensures template { actor.new.template ≡ actor.old.template }
{
    actor.machine.run(alloc, system)
}

/// The domain's machine takes the domain's entry.
pub fn take_entry(
    alloc: Global,
    system: &System,
    actor: &mut Actor,
    entry: &Entry,
) -> Result<(), OutOfMemory>
    requires { IsEntryOf system.now actor.old.machine entry.now }
    ensures taken { IfOk result (λ _.
        HasTaken system.now actor.old.machine actor.new.machine entry.now) }
    ensures template { actor.new.template ≡ actor.old.template }
{
    actor.machine.took(alloc, system, entry)
}
