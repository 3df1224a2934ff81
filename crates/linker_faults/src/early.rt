//! The first template of a plan that has a fault by its first two walks.
ghost use Rattle.std.specs.Prelude.{◌≡◌, IfOk};
ghost use Rattle.linker_faults.specs.Early.{IsFirstEarlyFault};
ghost use Rattle.program_model.specs.Plans.{IsPlanInRange};

use crate::repeats::Repeats;
use crate::walks::early_fault;
use jx_base::{OutOfMemory, Plan};
use link_model::LinkFault;
use linker_lists::TemplateClasses;
use linker_names::ReadClass;
use linker_outline::Names;
use std::alloc::Global;

/// A fault that the first two walks over a template find, with the template's place in the plan.
#[derive(Drop)]
pub struct EarlyFault {
    pub template: usize,
    pub fault: LinkFault,
}

/// The first fault by the first two walks over each template, in the plan's order. `names` has the
/// names of the plan's classes in order.
pub fn first_early_fault(
    alloc: Global,
    plan: &Plan,
    files: &[ReadClass],
    names: &Names,
) -> Result<Option<EarlyFault>, OutOfMemory>
    requires range { IsPlanInRange plan.now }
    requires names { names.now ≡ plan.now.classes }
    ensures { IfOk result (IsFirstEarlyFault plan.now files.now) }
{
    let mut repeats = Repeats::new(alloc, files);
    for (place, template) in plan.templates.as_slice().iter().enumerate() {
        let classes = TemplateClasses::new(alloc, plan, names, template)?;
        if let Some(fault) = early_fault(alloc, files, &classes, &mut repeats)? {
            return Ok(Some(EarlyFault {
                template: place,
                fault,
            }));
        }
    }
    Ok(None)
}
