//! What a machine holds at the start.
ghost use Rattle.std.specs.Prelude.{◌≡◌, ◌++◌, ◌∷◌, [], IfOk, IsSome};
ghost use Rattle.domain_machine.specs.Entering.{Leads};
ghost use Rattle.domain_machine.specs.Works.{thread_of};
ghost use Rattle.machine_model.specs.Machine.{domain_state};
ghost use Rattle.machine_model.specs.MachineThreads.{idle_thread};
ghost use Rattle.machine_model.specs.Start.{initializers, mains};
ghost use Rattle.machine_replies.specs.Leaving.{CanRun};
ghost use Rattle.program_model.specs.Lookup as Spec;
ghost use Rattle.std.specs.Option.{option_map};

use crate::held::Held;
use crate::settling::settle;
use crate::threads::{Thread, exchange_frames, new_thread};
use crate::working::finish;
use jx_base::{OutOfMemory, System, Template};
use machine_start::{first_core, first_methods};
use std::alloc::Global;

// The template of that place in the plan.
#[tactic(auto, unfolding(program_model::specs::Lookup::template_at))]
fn template_at(system: &System, template: u32) -> Option<&Template>
    ensures { option_map (λ t. t.now) result ≡ Spec.template_at system.now template }
{
    system.plan.templates.as_slice().get(template as usize)
}

// Thread 0 with the methods that it is to run.
fn first_thread(alloc: Global, system: &System, template: &Template) -> Result<Thread, OutOfMemory>
    ensures { IfOk result (λ thread. thread_of thread ≡ record idle_thread {
      waiting = initializers system.now template.now ++ mains system.now template.now;
    }) }
{
    let mut thread = new_thread(alloc);
    thread.waiting = first_methods(alloc, system, template)?;
    thread.waiting.reverse();
    Ok(thread)
}

// The threads at the start.
fn first_threads(alloc: Global, thread: Thread) -> Result<Vec<Thread>, OutOfMemory>
    ensures { IfOk result (λ threads. threads.items ≡ thread ∷ []) }
{
    let mut threads = Vec::new(alloc);
    threads.push(thread)?;
    Ok(threads)
}

/// What a domain of the template holds when thread 0 has begun its first method, and whether that
/// met bad code: what is held then is open.
pub fn first_held(
    alloc: Global,
    system: &System,
    template: u32,
) -> Result<(Held, bool), OutOfMemory>
    requires system { CanRun system.now }
    requires template { IsSome (Spec.template_at system.now template) }
    ensures { IfOk result (λ first. Leads 0 (domain_state system.now template []) first.0 first.1) }
{
    let Some(found) = template_at(system, template) else {
        // The plan has the template.
        unreachable!();
    };
    let mut core = first_core(alloc, system, found)?;
    let mut thread = first_thread(alloc, system, found)?;
    let stage = finish(alloc, system, &mut core, &mut thread.waiting, None)?;
    exchange_frames(&mut core, &mut thread);
    let bad = settle(&mut thread, Some(stage));
    let held = Held {
        core,
        threads: first_threads(alloc, thread)?,
        running: Some(0),
        fuel: found.fuel,
    };
    Ok((held, bad))
}
