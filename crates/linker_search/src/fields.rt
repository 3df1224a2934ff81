//! Fields whose places are noted.
ghost use Rattle.std.specs.Prelude.{◌≡◌, ◌&&◌, ◌==◌, ℕ, IfOk, OnOk};
ghost use Rattle.jx_base.specs.declared.program.Selector.{Selector as OneSelector};
ghost use Rattle.link_model.specs.Linking.{is_field};
ghost use Rattle.linker_outline.specs.Indexed.{place_or};
ghost use Rattle.linker_search.specs.OwnFields.{selector_of_field};
ghost use Rattle.linker_search.specs.Places.{place_in};

use crate::places::{Key, Places, note};
use jx_base::{Field, OutOfMemory, Selector};
use std::alloc::Global;

fn selector_of(alloc: Global, field: &Field) -> Result<Selector, OutOfMemory>
    ensures { IfOk result (λ selector. selector ≡ selector_of_field field.now) }
{
    Ok(Selector {
        name: field.name.copy(alloc)?,
        descriptor: field.descriptor.copy(alloc)?,
    })
}

/// Notes the place of a field of the class, unless it has another of that name and descriptor.
pub fn note_field(
    alloc: Global,
    places: &mut Places,
    class: u32,
    field: &Field,
    place: u32,
) -> Result<(), OutOfMemory>
    ensures { OnOk result ((c : ℕ) (x : OneSelector) → place_in places.new c x
        ≡ place_or (place_in places.old c x) ((class == c) && is_field x field.now) place) }
{
    let key = Key {
        class,
        selector: selector_of(alloc, field)?,
    };
    note(places, key, place)
}
