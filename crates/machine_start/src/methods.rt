//! The methods that the first thread of a domain runs.
ghost use Rattle.std.specs.Prelude.{◌≡◌, ◌++◌, IfOk, OnOk, filter};
ghost use Rattle.machine_model.specs.Start as Spec;
ghost use Rattle.machine_model.specs.Start.{mains};
ghost use Rattle.machine_start.specs.Found.{is_declared_at};

use crate::classes::started_classes;
use crate::found::found_methods;
use crate::groups::{is_declared_at, methods_by_class};
use crate::selectors::{initializer_selector, main_selector};
use jx_base::{OutOfMemory, System, Template};
use program_types::BUILT_IN_COUNT;
use std::alloc::Global;

// The static initialisers of a template's classes.
fn initializers(
    alloc: Global,
    system: &System,
    template: &Template,
) -> Result<Vec<u32>, OutOfMemory>
    ensures { IfOk result (λ methods. methods.items
        ≡ Spec.initializers system.now template.now) }
{
    let found = found_methods(alloc, system, &initializer_selector(alloc)?)?;
    let groups = methods_by_class(alloc, system, found.as_slice())?;
    let classes = started_classes(alloc, system, template.classes.as_slice())?;
    let mut methods = Vec::new(alloc);
    for class in classes.as_slice() {
        methods.extend_from_slice(groups[*class].as_slice())?;
    }
    Ok(methods)
}

// Adds those of the methods that the class declares.
fn add_methods_of(
    methods: &mut Vec<u32>,
    system: &System,
    class: usize,
    found: &[u32],
) -> Result<(), OutOfMemory>
    ensures { OnOk result (methods.new.items
        ≡ methods.old.items ++ filter (is_declared_at system.now class) found.now) }
{
    for method in found {
        if is_declared_at(system, class, *method) {
            methods.push(*method)?;
        }
    }
    Ok(())
}

/// The methods that thread 0 of a domain of the template runs, in order: the static initialisers,
/// the supers' first, and then main.
pub fn first_methods(
    alloc: Global,
    system: &System,
    template: &Template,
) -> Result<Vec<u32>, OutOfMemory>
    ensures { IfOk result (λ methods. methods.items
        ≡ Spec.initializers system.now template.now ++ mains system.now template.now) }
{
    let mut methods = initializers(alloc, system, template)?;
    let found = found_methods(alloc, system, &main_selector(alloc)?)?;
    let main = BUILT_IN_COUNT + template.main as usize;
    add_methods_of(&mut methods, system, main, found.as_slice())?;
    Ok(methods)
}
