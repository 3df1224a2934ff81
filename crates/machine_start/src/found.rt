//! Static methods by their selectors.
ghost use Rattle.std.specs.Prelude.{◌≡◌, IfOk, filter};
ghost use Rattle.machine_model.specs.Start.{method_places};
ghost use Rattle.machine_start.specs.Found as Spec;
ghost use Rattle.machine_start.specs.Found.{is_static_at, is_static_with};
ghost use Rattle.program_model.specs.Lookup.{same_selector};

use class_grammar::is_static;
use jx_base::{Method, OutOfMemory, Selector, System};
use std::alloc::{AllocError, Global};

// The most that a number counts.
const MOST: usize = u32::MAX as usize;

/// Whether the two have one name and one descriptor.
#[tactic(auto, unfolding(program_model::specs::Lookup::same_selector))]
pub fn same_selector(selector: &Selector, other: &Selector) -> bool
    ensures { result ≡ same_selector selector.now other.now }
{
    selector.name.as_slice() == other.name.as_slice()
        && selector.descriptor.as_slice() == other.descriptor.as_slice()
}

// Whether it is a static method with code of that selector.
#[tactic(auto, unfolding(crate::specs::Found::is_static_with, program_model::specs::Lookup::selector_at, jx_base::specs::Basics::passes))]
fn is_static_with(system: &System, selector: &Selector, method: &Method) -> bool
    ensures { result ≡ Spec.is_static_with system.now selector.now method.now }
{
    if !is_static(method.flags) || method.code.is_none() {
        return false;
    }
    let number = method.selector.0 as usize;
    match system.program.selectors.as_slice().get(number) {
        Some(found) => same_selector(found, selector),
        None => false,
    }
}

/// The places of the static methods with code of that selector, in order.
pub fn found_methods(
    alloc: Global,
    system: &System,
    selector: &Selector,
) -> Result<Vec<u32>, OutOfMemory>
    ensures { IfOk result (λ found. found.items
        ≡ filter (is_static_at system.now selector.now) (method_places system.now)) }
{
    let methods = system.program.methods.as_slice();
    // No memory holds so many.
    if methods.len() > MOST {
        return Err(AllocError);
    }
    let mut found = Vec::new(alloc);
    for (place, method) in methods.iter().enumerate() {
        if is_static_with(system, selector, method) {
            found.push(place as u32)?;
        }
    }
    Ok(found)
}
