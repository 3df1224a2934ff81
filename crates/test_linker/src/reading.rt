//! Plans and class files, read from texts and linked.
ghost use Rattle.std.specs.Prelude.{IfOk};
ghost use Rattle.std.specs.List.{AllByRecursion};
ghost use Rattle.class_grammar.specs.ReadFiles.{IsReadFile};
ghost use Rattle.program_model.specs.Plans.{IsPlanInRange};

use crate::answers::fault_text;
use crate::files::{Unlinked, assembled, because};
use crate::short_forms::description;
use jx_base::{ClassFile, Plan, System};
use linker::{LinkError, link};
use std::alloc::Global;
use system_text::{PlanError, plan_is_in_range, read_system};

// The plan in which each domain has a list of classes.
fn plan_of(alloc: Global, lists: &str) -> Result<Plan, Unlinked>
    ensures { IfOk result IsPlanInRange }
{
    plan_is_in_range();
    let text = description(alloc, lists)?;
    match read_system(alloc, text.as_bytes()) {
        Ok(plan) => Ok(plan),
        Err(PlanError::Bad(_)) => Err(because(alloc, "no plan")),
        Err(PlanError::OutOfMemory) => Err(Unlinked::OutOfMemory),
    }
}

fn files_of(alloc: Global, classes: &[&str]) -> Result<Vec<ClassFile>, Unlinked>
    ensures { IfOk result (λ files. AllByRecursion IsReadFile files.items) }
{
    let mut files = Vec::with_capacity(alloc, classes.len())?;
    for short in classes {
        files.push(assembled(alloc, short)?)?;
    }
    Ok(files)
}

/// The system of these lists of classes, whose files stand in the plan's order.
pub fn linked_files(alloc: Global, lists: &str, files: Vec<ClassFile>) -> Result<System, Unlinked>
    requires { AllByRecursion IsReadFile files.items }
{
    let plan = plan_of(alloc, lists)?;
    if files.len() != plan.classes.as_slice().len() {
        return Err(because(alloc, "another count of files"));
    }
    match link(alloc, plan, files) {
        Ok(system) => Ok(system),
        Err(LinkError::Bad(fault)) => Err(Unlinked::Bad(fault_text(alloc, &fault)?)),
        Err(LinkError::OutOfMemory) => Err(Unlinked::OutOfMemory),
    }
}

/// The same for classes as cases write them.
pub fn linked(alloc: Global, lists: &str, classes: &[&str]) -> Result<System, Unlinked> {
    let files = files_of(alloc, classes)?;
    linked_files(alloc, lists, files)
}
