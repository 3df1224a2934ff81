//! Where the methods of a system stand.
ghost use Rattle.std.specs.Prelude.{◌≡◌, ℕ, IfOk, OnOk};
ghost use Rattle.jx_base.specs.declared.program.Selector.{Selector as OneSelector};
ghost use Rattle.link_model.specs.Linking.{is_method_of, own_method};
ghost use Rattle.linker_outline.specs.Indexed.{place_or};
ghost use Rattle.linker_search.specs.Places.{place_in};

use crate::places::{Key, MOST, Places, note};
use indexmap::IndexMap;
use jx_base::{Method, OutOfMemory, System};
use std::alloc::{AllocError, Global};

// Notes the place of a method, unless its class has another of its selector.
fn note_method(
    alloc: Global,
    places: &mut Places,
    system: &System,
    method: &Method,
    place: u32,
) -> Result<(), OutOfMemory>
    ensures { OnOk result ((c : ℕ) (x : OneSelector) → place_in places.new c x
        ≡ place_or (place_in places.old c x) (is_method_of system.now x c method.now) place) }
{
    let number = method.selector.0 as usize;
    let Some(selector) = system.program.selectors.as_slice().get(number) else {
        return Ok(());
    };
    let key = Key {
        class: method.class.0,
        selector: selector.copy(alloc)?,
    };
    note(places, key, place)
}

/// Where each class first declares a method of each selector.
pub fn method_places(alloc: Global, system: &System) -> Result<Places, OutOfMemory>
    ensures { IfOk result (λ places. (c : ℕ) (x : OneSelector) →
        place_in places c x ≡ own_method system.now x c) }
{
    let methods = system.program.methods.as_slice();
    // No memory holds so many.
    if methods.len() > MOST {
        return Err(AllocError);
    }
    let mut places = IndexMap::new(alloc);
    for (place, method) in methods.iter().enumerate() {
        note_method(alloc, &mut places, system, method, place as u32)?;
    }
    Ok(places)
}
