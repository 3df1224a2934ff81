//! A linked system without what its constants mean.
ghost use Rattle.std.specs.Prelude.{◌≡◌, IfOk};
ghost use Rattle.link_model.specs.LinkFaults.{HasFiles};
ghost use Rattle.link_model.specs.Linking.{outline};
ghost use Rattle.program_model.specs.BuiltIn.{built_in_table};

use crate::all_classes::linked_classes;
use crate::method_selectors::all_selectors;
use crate::methods::all_methods;
use jx_base::{Class, Listed, OutOfMemory, Plan, Program, System};
use linker_names::ReadClass;
use std::alloc::Global;

/// The system that a plan and the class files of its classes make, without what the constants mean.
#[tactic(auto, unfolding(link_model::specs::Linking::outline))]
pub fn outline(
    alloc: Global,
    plan: Plan,
    files: &[ReadClass],
    built_in: Vec<Class>,
) -> Result<System, OutOfMemory>
    requires files { HasFiles plan files.now }
    requires built_in { built_in.items ≡ built_in_table }
    ensures { IfOk result (λ system. system ≡ outline plan files.now) }
{
    let selectors = all_selectors(alloc, built_in.as_slice(), files)?;
    let methods = all_methods(alloc, built_in.as_slice(), files, &selectors)?;
    let classes = linked_classes(alloc, &plan, files, built_in)?;
    let program = Program {
        classes: Listed::from_vec(classes),
        methods: Listed::from_vec(methods),
        selectors: Listed::from_vec(selectors.list(alloc)?),
    };
    Ok(System { plan, program })
}
