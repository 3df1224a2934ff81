//! Methods in groups, by the classes that declare them.
ghost use Rattle.std.specs.Prelude.{◌≡◌, ◌<◌, ℕ, [], Some, IfOk, OnOk, filter, map, replicate, slice_get};
ghost use Rattle.std.specs.Option.{option_map};
ghost use Rattle.machine_start.specs.Found as Spec;
ghost use Rattle.machine_start.specs.Found.{is_declared_at, with_member};
ghost use Rattle.program_model.specs.Lookup.{class_count, method_at};

use jx_base::{OutOfMemory, System};
use std::alloc::Global;

// The class that declares a method.
#[tactic(auto, unfolding(program_model::specs::Lookup::method_at))]
fn class_of_method(system: &System, method: u32) -> Option<usize>
    ensures { result ≡ option_map (λ x. x.class.0) (method_at system.now method) }
{
    match system.program.methods.as_slice().get(method as usize) {
        Some(found) => Some(found.class.0 as usize),
        None => None,
    }
}

/// Whether the class declares the method of that place.
#[tactic(auto, unfolding(crate::specs::Found::is_declared_at))]
pub fn is_declared_at(system: &System, class: usize, method: u32) -> bool
    ensures { result ≡ Spec.is_declared_at system.now class method }
{
    match class_of_method(system, method) {
        Some(declaring) => declaring == class,
        None => false,
    }
}

// So many empty groups.
fn empty_groups(alloc: Global, count: usize) -> Result<Vec<Vec<u32>>, OutOfMemory>
    ensures { IfOk result (λ groups. map (λ g. g.items) groups.items ≡ replicate count []) }
{
    let mut groups = Vec::with_capacity(alloc, count)?;
    for _ in 0..count {
        groups.push(Vec::new(alloc))?;
    }
    Ok(groups)
}

// Adds a method to the group of that place, if there is one.
fn add_member(groups: &mut Vec<Vec<u32>>, place: usize, method: u32) -> Result<(), OutOfMemory>
    ensures { OnOk result (map (λ g. g.items) groups.new.items
        ≡ with_member (map (λ g. g.items) groups.old.items) place method) }
{
    if place < groups.len() {
        groups[place].push(method)?;
    }
    Ok(())
}

/// For each class those of the methods that it declares.
pub fn methods_by_class(
    alloc: Global,
    system: &System,
    methods: &[u32],
) -> Result<Vec<Vec<u32>>, OutOfMemory>
    ensures { IfOk result (λ groups. (c : ℕ) → c < class_count system.now
        → slice_get (map (λ g. g.items) groups.items) c
        ≡ Some (filter (is_declared_at system.now c) methods.now)) }
{
    let mut groups = empty_groups(alloc, system.program.classes.as_slice().len())?;
    for method in methods {
        if let Some(class) = class_of_method(system, *method) {
            add_member(&mut groups, class, *method)?;
        }
    }
    Ok(groups)
}
