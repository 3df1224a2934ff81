//! The first act of a domain, in words.
ghost use Rattle.std.specs.Prelude.{◌<◌, ◌^◌, IfOk};
ghost use Rattle.domain_machine.specs.Machines.{IsMachineOf};
ghost use Rattle.machine_replies.specs.Leaving.{CanRun};
ghost use Rattle.program_model.specs.Lookup.{class_count};

use crate::files::{Unlinked, because};
use crate::reading::linked;
use domain_machine::{Machine, Next};
use jx_base::{Act, ClassId, OutOfMemory, Reason, System, Text};
use std::alloc::Global;

// Units beyond ASCII are written `#`.
fn said(alloc: Global, text: &Text) -> Result<String, OutOfMemory> {
    let mut said = String::new(alloc);
    for unit in text.as_slice() {
        match u8::try_from(*unit) {
            Ok(byte) if byte < 128 => said.push(char::from(byte))?,
            _ => said.push('#')?,
        }
    }
    Ok(said)
}

fn thrown(alloc: Global, system: &System, class: ClassId) -> Result<String, OutOfMemory> {
    match system.program.classes.as_slice().get(class.0 as usize) {
        Some(class) => format!(in alloc; "throws {}", said(alloc, &class.name)?),
        None => String::from_str(alloc, "throws no class"),
    }
}

fn act_text(alloc: Global, system: &System, act: &Act) -> Result<String, OutOfMemory> {
    match act {
        Act::Print(text) => said(alloc, text),
        Act::EndThread(None) => String::from_str(alloc, "ends"),
        Act::EndThread(Some(class)) => thrown(alloc, system, *class),
        Act::End(Reason::Fuel) => String::from_str(alloc, "no fuel"),
        Act::End(Reason::BadCode) => String::from_str(alloc, "bad code"),
        _ => String::from_str(alloc, "other"),
    }
}

fn next_text(alloc: Global, system: &System, next: &Next) -> Result<String, OutOfMemory> {
    match next {
        Next::Act(act) => act_text(alloc, system, act),
        Next::Idle => String::from_str(alloc, "idle"),
        Next::End(Reason::Fuel) => String::from_str(alloc, "no fuel"),
        Next::End(Reason::BadCode) => String::from_str(alloc, "bad code"),
        Next::End(_) => String::from_str(alloc, "other"),
    }
}

// A domain of the system's first template, before its first instruction.
fn started(alloc: Global, system: &System) -> Result<Machine, Unlinked>
    requires { class_count system.now < 2 ^ 32 → CanRun system.now }
    ensures { IfOk result (IsMachineOf system.now) }
{
    if system.program.classes.as_slice().len() >= 1 << 32 {
        return Err(because(alloc, "too many classes"));
    }
    if system.plan.templates.as_slice().is_empty() {
        return Err(because(alloc, "no template"));
    }
    Ok(Machine::start(alloc, system, 0)?)
}

fn first_act(
    alloc: Global,
    names: &str,
    classes: &[&str],
    heap: u32,
    fuel: u32,
) -> Result<String, Unlinked> {
    let system = linked(alloc, names, classes, heap, fuel)?;
    let mut machine = started(alloc, &system)?;
    let next = machine.run(alloc, &system)?;
    Ok(next_text(alloc, &system, &next)?)
}

/// What the domain does first: the text that it prints, or how it ends in words; or why there is no
/// domain.
pub fn answer(
    alloc: Global,
    names: &str,
    classes: &[&str],
    heap: u32,
    fuel: u32,
) -> Result<String, OutOfMemory> {
    match first_act(alloc, names, classes, heap, fuel) {
        Ok(text) => Ok(text),
        Err(Unlinked::Bad(reason)) => Ok(reason),
        Err(Unlinked::OutOfMemory) => String::from_str(alloc, "out of memory"),
    }
}
