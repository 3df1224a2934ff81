//! Plans and class files, read from texts and linked.
ghost use Rattle.std.specs.Prelude.{◌<◌, ◌^◌, IfOk};
ghost use Rattle.std.specs.List.{AllByRecursion};
ghost use Rattle.class_grammar.specs.ReadFiles.{IsReadFile};
ghost use Rattle.link_model.specs.LinkFaults.{HasFiles};
ghost use Rattle.machine_replies.specs.Leaving.{CanRun};
ghost use Rattle.program_model.specs.Lookup.{class_count};
ghost use Rattle.program_model.specs.Plans.{IsPlanInRange};

use crate::files::{Unlinked, assembled, because};
use crate::short_forms::description;
use jx_base::{ClassFile, Plan, System};
use linker::{LinkError, link};
use std::alloc::Global;
use system_text::{PlanError, plan_is_in_range, read_system};

// The plan in which one domain has these classes.
fn plan_of(alloc: Global, names: &str, heap: u32, fuel: u32) -> Result<Plan, Unlinked>
    ensures { IfOk result IsPlanInRange }
{
    plan_is_in_range();
    let text = description(alloc, names, heap, fuel)?;
    match read_system(alloc, text.as_bytes()) {
        Ok(plan) => Ok(plan),
        Err(PlanError::Bad(_)) => Err(because(alloc, "no plan")),
        Err(PlanError::OutOfMemory) => Err(Unlinked::OutOfMemory),
    }
}

fn files_of(alloc: Global, classes: &[&str]) -> Result<Vec<ClassFile>, Unlinked>
    ensures { IfOk result (λ files. AllByRecursion IsReadFile files.items) }
{
    let mut files = Vec::with_capacity(alloc, classes.len())?;
    for short in classes {
        files.push(assembled(alloc, short)?)?;
    }
    Ok(files)
}

// The system that they link to. Its domains can be run, if its classes have numbers of 32 bits.
fn run_linked(alloc: Global, plan: Plan, files: Vec<ClassFile>) -> Result<System, Unlinked>
    requires { HasFiles plan files.items }
    ensures { IfOk result (λ s. class_count s < 2 ^ 32 → CanRun s) }
{
    match link(alloc, plan, files) {
        Ok(system) => Ok(system),
        Err(LinkError::Bad(_)) => Err(because(alloc, "not linked")),
        Err(LinkError::OutOfMemory) => Err(Unlinked::OutOfMemory),
    }
}

/// The system of one domain of these classes, whose names are parted by spaces, with such a heap and
/// such fuel.
pub fn linked(
    alloc: Global,
    names: &str,
    classes: &[&str],
    heap: u32,
    fuel: u32,
) -> Result<System, Unlinked>
    ensures { IfOk result (λ s. class_count s < 2 ^ 32 → CanRun s) }
{
    let plan = plan_of(alloc, names, heap, fuel)?;
    let files = files_of(alloc, classes)?;
    if files.len() != plan.classes.as_slice().len() {
        return Err(because(alloc, "another count of files"));
    }
    run_linked(alloc, plan, files)
}
