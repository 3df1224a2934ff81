//! The first two walks over a template.
ghost use Rattle.std.specs.Prelude.{◌≡◌, IfOk};
ghost use Rattle.std.specs.Option.{option_and_then};
ghost use Rattle.link_model.specs.LinkFaults.{listing_at};
ghost use Rattle.linker_faults.specs.ClassFaults.{first_fault_of};
ghost use Rattle.linker_faults.specs.Walks.{early_fault, first_class_fault, main_class_fault};

use crate::class_faults::class_fault;
use crate::hierarchy::Hierarchy;
use crate::listing::listing_at;
use crate::main_method::main_fault;
use crate::repeats::Repeats;
use jx_base::OutOfMemory;
use link_model::LinkFault;
use linker_lists::TemplateClasses;
use linker_names::ReadClass;
use std::alloc::Global;

// The first fault of the class at a place of the plan, alone.
fn fault_at(
    alloc: Global,
    hierarchy: &Hierarchy<'_>,
    repeats: &mut Repeats<'_>,
    place: u32,
) -> Result<Option<LinkFault>, OutOfMemory>
    requires { repeats.old ≡ hierarchy.now.files }
    ensures files { repeats.new ≡ repeats.old }
    ensures fault { IfOk result (λ fault. fault ≡ option_and_then (first_fault_of hierarchy.now)
        (listing_at hierarchy.now.plan hierarchy.now.files place)) }
{
    let plan = hierarchy.classes().plan();
    match listing_at(alloc, plan, hierarchy.files(), place)? {
        Some(class) => class_fault(alloc, hierarchy, repeats, &class),
        None => Ok(None),
    }
}

// The first fault of the template's classes.
fn first_fault(
    alloc: Global,
    hierarchy: &Hierarchy<'_>,
    repeats: &mut Repeats<'_>,
) -> Result<Option<LinkFault>, OutOfMemory>
    requires { repeats.old ≡ hierarchy.now.files }
    ensures files { repeats.new ≡ hierarchy.now.files }
    ensures fault { IfOk result (λ fault. fault ≡ first_class_fault
        hierarchy.now.plan hierarchy.now.files hierarchy.now.template) }
{
    for place in hierarchy.classes().template().classes.as_slice() {
        let fault = fault_at(alloc, hierarchy, repeats, *place)?;
        if fault.is_some() {
            return Ok(fault);
        }
    }
    Ok(None)
}

/// The first fault of the template's classes, each alone, in the order of its list. `repeats` is of
/// the same files, whatever the template.
pub fn first_class_fault(
    alloc: Global,
    files: &[ReadClass],
    classes: &TemplateClasses<'_>,
    repeats: &mut Repeats<'_>,
) -> Result<Option<LinkFault>, OutOfMemory>
    requires { repeats.old ≡ files.now }
    ensures files { repeats.new ≡ files.now }
    ensures fault { IfOk result (λ fault.
        fault ≡ first_class_fault classes.now.plan files.now classes.now.template) }
{
    let hierarchy = Hierarchy::new(alloc, classes, files)?;
    first_fault(alloc, &hierarchy, repeats)
}

/// The fault of the template's main class, where it has no main method.
pub fn main_class_fault(
    alloc: Global,
    files: &[ReadClass],
    classes: &TemplateClasses<'_>,
) -> Result<Option<LinkFault>, OutOfMemory>
    ensures { IfOk result (λ fault.
        fault ≡ main_class_fault classes.now.plan files.now classes.now.template) }
{
    match listing_at(alloc, classes.plan(), files, classes.template().main)? {
        Some(class) => main_fault(alloc, &class),
        None => Ok(None),
    }
}

/// The first fault of the template by these two walks.
pub fn early_fault(
    alloc: Global,
    files: &[ReadClass],
    classes: &TemplateClasses<'_>,
    repeats: &mut Repeats<'_>,
) -> Result<Option<LinkFault>, OutOfMemory>
    requires { repeats.old ≡ files.now }
    ensures files { repeats.new ≡ files.now }
    ensures fault { IfOk result (λ fault.
        fault ≡ early_fault classes.now.plan files.now classes.now.template) }
{
    let fault = first_class_fault(alloc, files, classes, repeats)?;
    if fault.is_some() {
        return Ok(fault);
    }
    main_class_fault(alloc, files, classes)
}
