//! From the word of a system's file to the linked system.
ghost use Rattle.std.specs.Prelude.{◌≡◌, ◌≤◌, ◌∷◌, [], IfOk, IsErrOf, IsTrue};
ghost use Rattle.class_grammar.specs.ReadFiles.{IsReadFile};
ghost use Rattle.jx_base.specs.ClassNames.{is_class_name};
ghost use Rattle.jx_base.specs.Files.{HasShelfFailed};
ghost use Rattle.jx_top.specs.Commands.{EndsInClass, IsFileOf, IsSystemName};
ghost use Rattle.jx_top.specs.Finding.{Finds, HoldsPlan, LinksFiles};
ghost use Rattle.jx_top.specs.Steps.{WasLinked};
ghost use Rattle.jx_top.specs.Systems.{IsPlanOf, IsPlanRefused, IsStopped, IsSystemOf};
ghost use Rattle.link_model.specs.LinkFaults.{HasFiles};
ghost use Rattle.program_model.specs.Plans.{IsPlanInRange};
ghost use Rattle.system_text.specs.Description.{one_class_plan};

use crate::class_files::{class_of_bytes, fetch_classes};
use crate::commands::class_of;
use crate::fetching::fetch_bytes;
use crate::status::Status;
use jx_base::{Plan, Shelf, System};
use linker::{LinkError, link_read};
use linker_names::ReadClass;
use std::alloc::Global;
use system_text::{PlanError, one_class, read_system};

fn link_files(alloc: Global, plan: Plan, files: Vec<ReadClass>) -> Result<System, Status>
    requires { HasFiles plan files.items }
    ensures { LinksFiles plan files.items result }
{
    match link_read(alloc, plan, files) {
        Ok(system) => Ok(system),
        Err(LinkError::Bad(fault)) => Err(Status::BadLink(fault)),
        Err(LinkError::OutOfMemory) => Err(Status::OutOfMemory),
    }
}

// The system of a class alone.
fn one_class_system(alloc: Global, name: &str, class: ReadClass) -> Result<System, Status>
    requires name { IsTrue (is_class_name name.now) }
    requires file { IsReadFile class }
    ensures { LinksFiles (one_class_plan name.now) (class ∷ []) result }
{
    let plan = one_class(alloc, name)?;
    let files = vec![in alloc; class]?;
    link_files(alloc, plan, files)
}

// The system of a file of a class.
fn class_system<L: Shelf>(
    alloc: Global,
    file: &str,
    name: &str,
    shelf: &mut L,
) -> Result<System, Status>
    requires { IsFileOf file.now name.now }
    ensures system { Finds (L.state shelf.old).told (λ files system. IsSystemOf files file.now system)
        (λ files o. IsStopped files file.now o) result }
    ensures linked { IfOk result WasLinked }
    ensures cause { IsErrOf result Status.ShelfFault
        → HasShelfFailed (L.state shelf.old) (L.state shelf.new) }
{
    let bytes = fetch_bytes(alloc, file, shelf)?;
    let class = class_of_bytes(alloc, name, &bytes)?;
    one_class_system(alloc, name, class)
}

fn plan_of_bytes(alloc: Global, bytes: &[u8]) -> Result<Plan, Status>
    ensures plan { HoldsPlan bytes.now result }
    ensures range { IfOk result IsPlanInRange }
{
    match read_system(alloc, bytes) {
        Ok(plan) => Ok(plan),
        Err(PlanError::Bad(fault)) => Err(Status::BadPlan(fault)),
        Err(PlanError::OutOfMemory) => Err(Status::OutOfMemory),
    }
}

// The plan that the file describes.
fn described_plan<L: Shelf>(alloc: Global, file: &str, shelf: &mut L) -> Result<Plan, Status>
    requires { EndsInClass file.now → ⊥ }
    ensures plan { Finds (L.state shelf.old).told (λ files plan. IsPlanOf files file.now plan)
        (λ files o. IsPlanRefused files file.now o) result }
    ensures range { IfOk result IsPlanInRange }
    ensures same { (L.state shelf.new).told ≡ (L.state shelf.old).told }
    ensures later { (L.state shelf.old).faults ≤ (L.state shelf.new).faults }
    ensures cause { IsErrOf result Status.ShelfFault
        → HasShelfFailed (L.state shelf.old) (L.state shelf.new) }
{
    let bytes = fetch_bytes(alloc, file, shelf)?;
    plan_of_bytes(alloc, &bytes)
}

// The system that the file describes.
fn described_system<L: Shelf>(alloc: Global, file: &str, shelf: &mut L) -> Result<System, Status>
    requires { EndsInClass file.now → ⊥ }
    ensures system { Finds (L.state shelf.old).told (λ files system. IsSystemOf files file.now system)
        (λ files o. IsStopped files file.now o) result }
    ensures linked { IfOk result WasLinked }
    ensures cause { IsErrOf result Status.ShelfFault
        → HasShelfFailed (L.state shelf.old) (L.state shelf.new) }
{
    let plan = described_plan(alloc, file, shelf)?;
    let classes = fetch_classes(alloc, plan.classes.as_slice(), shelf)?;
    link_files(alloc, plan, classes)
}

/// The system of the file: of its class where it is that of a class, else the one that it
/// describes.
pub fn find_system<L: Shelf>(alloc: Global, file: &str, shelf: &mut L) -> Result<System, Status>
    requires { IsSystemName file.now }
    ensures system { Finds (L.state shelf.old).told (λ files system. IsSystemOf files file.now system)
        (λ files o. IsStopped files file.now o) result }
    ensures linked { IfOk result WasLinked }
    ensures cause { IsErrOf result Status.ShelfFault
        → HasShelfFailed (L.state shelf.old) (L.state shelf.new) }
{
    match class_of(file) {
        Some(name) => class_system(alloc, file, name, shelf),
        None => described_system(alloc, file, shelf),
    }
}
