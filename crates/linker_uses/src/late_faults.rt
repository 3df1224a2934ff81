//! The first fault of what code uses constants as.
ghost use Rattle.std.specs.Prelude.{◌≡◌, IfOk, take};
ghost use Rattle.jx_base.specs.Basics.{first_some};
ghost use Rattle.link_model.specs.LinkFaults.{use_fault, uses_fault};
ghost use Rattle.linker_uses.specs.BuiltInFirst.{HasBuiltIns};
ghost use Rattle.linker_uses.specs.LateFaults.{fault_at, template_use_fault};
ghost use Rattle.program_model.specs.Plans.{IsPlanInRange};

use crate::file_uses::all_uses;
use crate::use_faults::use_fault;
use jx_base::{ClassFile, Name, OutOfMemory, Template};
use link_model::{LinkFault, Used};
use linker_lists::TemplateClasses;
use linker_names::ReadClass;
use linker_outline::Names;
use linker_search::Outline;
use std::alloc::Global;

// The first fault of these uses of constants in the file of the class.
fn fault_of_uses(
    alloc: Global,
    outline: &Outline,
    classes: &TemplateClasses<'_>,
    class: &Name,
    file: &ClassFile,
    uses: &[Used],
) -> Result<Option<LinkFault>, OutOfMemory>
    requires { HasBuiltIns outline.now }
    ensures { IfOk result (λ fault. fault ≡ first_some (use_fault outline.now classes.now.plan
        classes.now.template class.now file.now) uses.now) }
{
    for used in uses {
        let fault = use_fault(alloc, outline, classes, class, file, *used)?;
        if fault.is_some() {
            return Ok(fault);
        }
    }
    Ok(None)
}

/// The first fault of what the code of a class uses constants as: method by method, the
/// instructions and then the catch types.
#[tactic(auto, unfolding(link_model::specs::LinkFaults::uses_fault, link_model::specs::ClassFiles::uses_of))]
pub fn first_use_fault(
    alloc: Global,
    outline: &Outline,
    classes: &TemplateClasses<'_>,
    class: &Name,
    file: &ReadClass,
) -> Result<Option<LinkFault>, OutOfMemory>
    requires { HasBuiltIns outline.now }
    ensures { IfOk result (λ fault. fault ≡ uses_fault outline.now classes.now.plan
        classes.now.template class.now file.now) }
{
    let uses = all_uses(alloc, file)?;
    fault_of_uses(alloc, outline, classes, class, file.file(), uses.as_slice())
}

// The first such fault of the class at a place of the plan.
#[tactic(auto, unfolding(link_model::specs::LinkFaults::listing_at, link_model::specs::LinkFaults::listed_name))]
fn fault_at(
    alloc: Global,
    outline: &Outline,
    classes: &TemplateClasses<'_>,
    files: &[ReadClass],
    place: u32,
) -> Result<Option<LinkFault>, OutOfMemory>
    requires { HasBuiltIns outline.now }
    ensures { IfOk result (λ fault. fault ≡ fault_at outline.now classes.now.plan files.now
        classes.now.template place) }
{
    let Some(class) = classes.plan().classes.as_slice().get(place as usize) else {
        return Ok(None);
    };
    match files.get(place as usize) {
        Some(file) => first_use_fault(alloc, outline, classes, class, file),
        None => Ok(None),
    }
}

/// The first such fault of the classes that a template lists, in the order of the list.
pub fn template_use_fault(
    alloc: Global,
    outline: &Outline,
    classes: &TemplateClasses<'_>,
    files: &[ReadClass],
) -> Result<Option<LinkFault>, OutOfMemory>
    requires { HasBuiltIns outline.now }
    ensures { IfOk result (λ fault. fault ≡ template_use_fault outline.now classes.now.plan
        files.now classes.now.template) }
{
    for place in classes.template().classes.as_slice() {
        let fault = fault_at(alloc, outline, classes, files, *place)?;
        if fault.is_some() {
            return Ok(fault);
        }
    }
    Ok(None)
}

// The first such fault of a template of the outline's plan.
fn fault_of_template(
    alloc: Global,
    outline: &Outline,
    names: &Names,
    files: &[ReadClass],
    template: &Template,
) -> Result<Option<LinkFault>, OutOfMemory>
    requires built_ins { HasBuiltIns outline.now }
    requires range { IsPlanInRange outline.now.plan }
    requires names { names.now ≡ outline.now.plan.classes }
    ensures { IfOk result (λ fault. fault ≡ template_use_fault outline.now outline.now.plan
        files.now template.now) }
{
    let classes = TemplateClasses::new(alloc, &outline.system().plan, names, template)?;
    template_use_fault(alloc, outline, &classes, files)
}

/// The first such fault of the first `count` templates of the outline's plan. `names` has the names
/// of the plan's classes in order.
pub fn first_late_fault(
    alloc: Global,
    outline: &Outline,
    names: &Names,
    files: &[ReadClass],
    count: usize,
) -> Result<Option<LinkFault>, OutOfMemory>
    requires built_ins { HasBuiltIns outline.now }
    requires range { IsPlanInRange outline.now.plan }
    requires names { names.now ≡ outline.now.plan.classes }
    ensures { IfOk result (λ fault. fault ≡ first_some
        (template_use_fault outline.now outline.now.plan files.now)
        (take count outline.now.plan.templates)) }
{
    let templates = outline.system().plan.templates.as_slice();
    for place in 0..count.min(templates.len()) {
        let fault = fault_of_template(alloc, outline, names, files, &templates[place])?;
        if fault.is_some() {
            return Ok(fault);
        }
    }
    Ok(None)
}
