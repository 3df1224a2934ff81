//! All classes of a system, without what their constants mean.
ghost use Rattle.std.specs.Prelude.{◌≡◌, ◌++◌, ◌≤◌, IfOk, OnOk, length, map};
ghost use Rattle.link_model.specs.LinkFaults.{HasFiles};
ghost use Rattle.link_model.specs.Linking.{array_class_named, classes_from, linked_classes};
ghost use Rattle.linker_outline.specs.Parts.{AreParts, class_names};
ghost use Rattle.program_model.specs.BuiltIn.{built_in_count, built_in_table};

use crate::classes::{array_class, class_of_file};
use crate::file_arrays::array_names;
use crate::names::Names;
use crate::parts::Parts;
use jx_base::{Class, Name, OutOfMemory, Plan, Text, text_of};
use linker_names::ReadClass;
use std::alloc::Global;

fn push_built_in(
    alloc: Global,
    names: &mut Vec<Text>,
    built_in: &[Class],
) -> Result<(), OutOfMemory>
    ensures { OnOk result (names.new.items
        ≡ names.old.items ++ map (λ k. k.name) built_in.now) }
{
    for class in built_in {
        names.push(class.name.copy(alloc)?)?;
    }
    Ok(())
}

fn push_listed(alloc: Global, names: &mut Vec<Text>, listed: &[Name]) -> Result<(), OutOfMemory>
    ensures { OnOk result (names.new.items ≡ names.old.items ++ listed.now) }
{
    for name in listed {
        names.push(text_of(alloc, name.as_str())?)?;
    }
    Ok(())
}

// The names of the built-in classes, then those of the plan's, by which classes are numbered.
fn numbers(alloc: Global, plan: &Plan, built_in: &[Class]) -> Result<Names, OutOfMemory>
    requires { built_in.now ≡ built_in_table }
    ensures { IfOk result (λ names. names ≡ class_names plan.now) }
{
    let mut names = Vec::new(alloc);
    push_built_in(alloc, &mut names, built_in)?;
    push_listed(alloc, &mut names, plan.classes.as_slice())?;
    Names::new(alloc, names)
}

// The classes of the files.
fn file_classes(alloc: Global, parts: &Parts<'_>) -> Result<Vec<Class>, OutOfMemory>
    requires parts { AreParts parts.now }
    requires few { length parts.now.files.now ≤ 256 }
    ensures { IfOk result (λ classes. classes.items ≡ classes_from parts.now.plan.now
        parts.now.files.now built_in_count parts.now.files.now) }
{
    let mut classes = Vec::new(alloc);
    for place in 0..parts.files.len() {
        let number = (parts.built_in.len() + place) as u32;
        classes.push(class_of_file(alloc, parts, number, parts.files[place].file())?)?;
    }
    Ok(classes)
}

fn array_classes(alloc: Global, names: &[Text]) -> Result<Vec<Class>, OutOfMemory>
    ensures { IfOk result (λ classes. classes.items ≡ map array_class_named names.now) }
{
    let mut classes = Vec::with_capacity(alloc, names.len())?;
    for name in names {
        classes.push(array_class(alloc, name.as_slice())?)?;
    }
    Ok(classes)
}

/// All classes: the built-in ones, those of the files, and the array classes.
#[tactic(auto, unfolding(link_model::specs::Linking::linked_classes))]
pub fn linked_classes(
    alloc: Global,
    plan: &Plan,
    files: &[ReadClass],
    built_in: Vec<Class>,
) -> Result<Vec<Class>, OutOfMemory>
    requires files { HasFiles plan.now files.now }
    requires built_in { built_in.items ≡ built_in_table }
    ensures { IfOk result (λ classes. classes.items ≡ linked_classes plan.now files.now) }
{
    let numbers = numbers(alloc, plan, built_in.as_slice())?;
    let parts = Parts {
        plan,
        files,
        built_in: built_in.as_slice(),
        numbers: &numbers,
    };
    let mut of_files = file_classes(alloc, &parts)?;
    let arrays = array_names(alloc, plan, files)?;
    let mut of_arrays = array_classes(alloc, arrays.as_slice())?;
    let mut classes = built_in;
    classes.append(&mut of_files)?;
    classes.append(&mut of_arrays)?;
    Ok(classes)
}
