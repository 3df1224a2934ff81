//! From a plan and class files to a linked system.
ghost use Rattle.std.specs.Prelude.{◌≡◌, IfErr, IfOk, None, Some};
ghost use Rattle.std.specs.List.{AllByRecursion};
ghost use Rattle.class_grammar.specs.ReadFiles.{IsReadFile};
ghost use Rattle.link_model.specs.LinkFaults.{HasFiles, IsLinked, first_link_fault};
ghost use Rattle.link_model.specs.Linking.{outline};
ghost use Rattle.linker.specs.Faults.{IsLinkErrorOf};
ghost use Rattle.linker_uses.specs.BuiltInFirst.{HasBuiltIns};
ghost use Rattle.linker_faults.specs.Early.{IsEarlyFault, IsFirstEarlyFault};

use crate::bodies::with_bodies;
use crate::error::LinkError;
use boot_classes::boot;
use jx_base::{ClassFile, Name, OutOfMemory, Plan, System, text_of};
use link_model::LinkFault;
use linker_faults::{EarlyFault, first_early_fault};
use linker_names::ReadClass;
use linker_outline::{Names, outline};
use linker_search::Outline;
use linker_uses::{first_late_fault, linked_system};
use std::alloc::Global;

// The names of the plan's classes, in order.
fn class_names(alloc: Global, listed: &[Name]) -> Result<Names, OutOfMemory>
    ensures { IfOk result (λ names. names ≡ listed.now) }
{
    let mut names = Vec::with_capacity(alloc, listed.len())?;
    for name in listed {
        names.push(text_of(alloc, name.as_str())?)?;
    }
    Names::new(alloc, names)
}

#[tactic(auto, unfolding(link_model::specs::Linking::outline))]
fn outline_of(alloc: Global, plan: Plan, files: &[ReadClass]) -> Result<Outline, OutOfMemory>
    requires { HasFiles plan files.now }
    ensures outline { IfOk result (λ whole. whole ≡ outline plan files.now) }
    ensures plan { IfOk result (λ whole. whole.plan ≡ plan) }
    ensures built_ins { IfOk result HasBuiltIns }
{
    let system = outline(alloc, plan, files, boot(alloc)?)?;
    Outline::new(alloc, system)
}

// The first fault of a plan in which this is the first fault that a template has by its own
// classes: a template before it may have another.
fn first_fault(
    alloc: Global,
    plan: Plan,
    files: &[ReadClass],
    names: &Names,
    early: EarlyFault,
) -> Result<LinkFault, OutOfMemory>
    requires files { HasFiles plan files.now }
    requires names { names.now ≡ plan.classes }
    requires early { IsEarlyFault plan files.now early }
    ensures { IfOk result (λ fault. first_link_fault plan files.now ≡ Some fault) }
{
    if early.template == 0 {
        return Ok(early.fault);
    }
    let whole = outline_of(alloc, plan, files)?;
    match first_late_fault(alloc, &whole, names, files, early.template)? {
        Some(late) => Ok(late),
        None => Ok(early.fault),
    }
}

// The system of a plan in which no template has a fault by its own classes, or the first fault of
// a use of a constant.
fn linked(
    alloc: Global,
    plan: Plan,
    files: &[ReadClass],
    names: &Names,
) -> Result<System, LinkError>
    requires files { HasFiles plan files.now }
    requires names { names.now ≡ plan.classes }
    requires early { IsFirstEarlyFault plan files.now None }
    ensures linked { IfOk result (IsLinked plan files.now) }
    ensures fault { IfErr result (IsLinkErrorOf plan files.now) }
{
    let count = plan.templates.as_slice().len();
    let whole = outline_of(alloc, plan, files)?;
    match first_late_fault(alloc, &whole, names, files, count)? {
        Some(fault) => Err(LinkError::Bad(fault)),
        None => Ok(linked_system(alloc, whole, files)?),
    }
}

/// The system that a plan and its class files link to, one file for each class of the plan in
/// order, or the first fault (docs/linking.md). The plan and the files are dropped.
pub fn link_read(alloc: Global, plan: Plan, files: Vec<ReadClass>) -> Result<System, LinkError>
    requires files { HasFiles plan files.items }
    ensures linked { IfOk result (IsLinked plan files.items) }
    ensures fault { IfErr result (IsLinkErrorOf plan files.items) }
{
    let names = class_names(alloc, plan.classes.as_slice())?;
    match first_early_fault(alloc, &plan, &files, &names)? {
        Some(early) => {
            let fault = first_fault(alloc, plan, &files, &names, early)?;
            Err(LinkError::Bad(fault))
        }
        None => linked(alloc, plan, &files, &names),
    }
}

// The files with the instructions of their methods.
fn all_with_bodies(alloc: Global, files: Vec<ClassFile>) -> Result<Vec<ReadClass>, OutOfMemory>
    requires { AllByRecursion IsReadFile files.items }
    ensures { IfOk result (λ classes. classes.items ≡ files.items) }
{
    let mut classes = Vec::with_capacity(alloc, files.len())?;
    for file in files {
        classes.push(with_bodies(alloc, file)?)?;
    }
    Ok(classes)
}

/// The same for class files whose code is still to be read.
pub fn link(alloc: Global, plan: Plan, files: Vec<ClassFile>) -> Result<System, LinkError>
    requires files { HasFiles plan files.items }
    ensures linked { IfOk result (IsLinked plan files.items) }
    ensures fault { IfErr result (IsLinkErrorOf plan files.items) }
{
    let classes = all_with_bodies(alloc, files)?;
    link_read(alloc, plan, classes)
}
