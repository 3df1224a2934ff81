//! The classes of a template, each one behind its supers.
ghost use Rattle.std.specs.Prelude.{◌≡◌, ℕ, List, ◌++◌, [], ◌∷◌, IfOk, OnOk, filter, reverse};
ghost use Rattle.jx_base.specs.Basics.{firsts};
ghost use Rattle.machine_model.specs.Start as Spec;
ghost use Rattle.machine_start.specs.Found.{is_loaded};
ghost use Rattle.program_model.specs.Lookup.{chain_of};

use indexmap::IndexSet;
use jx_base::{OutOfMemory, System};
use program_types::BUILT_IN_COUNT;
use std::alloc::Global;

// Adds a class that is not built in.
#[tactic(auto, unfolding(program_model::specs::Lookup::is_built_in, program_model::specs::BuiltIn::built_in_count))]
fn add_loaded(chain: &mut Vec<usize>, class: usize) -> Result<(), OutOfMemory>
    ensures { OnOk result (chain.new.items ≡ chain.old.items ++ filter is_loaded (class ∷ [])) }
{
    if class >= BUILT_IN_COUNT {
        chain.push(class)?;
    }
    Ok(())
}

// The class, its super, and so on, but for the built-in ones.
fn loaded_chain(alloc: Global, system: &System, class: usize) -> Result<Vec<usize>, OutOfMemory>
    ensures { IfOk result (λ chain. chain.items ≡ filter is_loaded (chain_of system.now class)) }
{
    let classes = system.program.classes.as_slice();
    let mut chain = Vec::new(alloc);
    let mut next = class;
    for _ in 0..classes.len() {
        let Some(found) = classes.get(next) else {
            return Ok(chain);
        };
        add_loaded(&mut chain, next)?;
        let Some(parent) = found.parent else {
            return Ok(chain);
        };
        next = parent.0 as usize;
    }
    Ok(chain)
}

// The class behind its supers, the topmost first, but for the built-in ones.
fn supers_first(alloc: Global, system: &System, class: usize) -> Result<Vec<usize>, OutOfMemory>
    ensures { IfOk result (λ supers. supers.items
        ≡ reverse (filter is_loaded (chain_of system.now class))) }
{
    let mut chain = loaded_chain(alloc, system, class)?;
    chain.reverse();
    Ok(chain)
}

// Puts the classes behind those that were met before.
fn add_classes(met: &mut IndexSet<usize>, classes: &[usize]) -> Result<(), OutOfMemory>
    ensures { OnOk result ((mentioned : List ℕ) → met.old.keys ≡ firsts mentioned
        → met.new.keys ≡ firsts (mentioned ++ classes.now)) }
{
    for class in classes {
        met.insert(*class)?;
    }
    Ok(())
}

/// The classes of these places of the plan, each one's supers first, each class once.
pub fn started_classes(
    alloc: Global,
    system: &System,
    places: &[u32],
) -> Result<IndexSet<usize>, OutOfMemory>
    ensures { IfOk result (λ classes. classes.keys
        ≡ Spec.started_classes system.now places.now) }
{
    let mut classes = IndexSet::new(alloc);
    for place in places {
        let supers = supers_first(alloc, system, BUILT_IN_COUNT + *place as usize)?;
        add_classes(&mut classes, supers.as_slice())?;
    }
    Ok(classes)
}
