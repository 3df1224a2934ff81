//! Where the fields of instances stand in their layouts.
ghost use Rattle.std.specs.Prelude.{◌≡◌, ◌&&◌, ◌==◌, ◌<◌, ◌^◌, ℕ, None, IfOk, OnOk};
ghost use Rattle.std.specs.Prelude.{if◌then◌else◌, length, position};
ghost use Rattle.std.specs.Option.{option_or};
ghost use Rattle.jx_base.specs.declared.program.Selector.{Selector as OneSelector};
ghost use Rattle.linker_outline.specs.Indexed.{place_or};
ghost use Rattle.linker_search.specs.OwnFields.{instance_place, is_own, of_class};
ghost use Rattle.linker_search.specs.Places.{place_in};

use crate::fields::note_field;
use crate::places::{MOST, Places};
use indexmap::IndexMap;
use jx_base::{Class, Field, OutOfMemory};
use std::alloc::{AllocError, Global};

// Notes the place of a field, where it is the class that declares it.
fn note_own(
    alloc: Global,
    places: &mut Places,
    class: u32,
    field: &Field,
    place: u32,
) -> Result<(), OutOfMemory>
    ensures { OnOk result ((c : ℕ) (x : OneSelector) → place_in places.new c x
        ≡ place_or (place_in places.old c x) ((class == c) && is_own x c field.now) place) }
{
    if field.owner.0 == class {
        note_field(alloc, places, class, field, place)
    } else {
        Ok(())
    }
}

// Notes the places of the fields of a layout that the class itself declares.
fn note_layout(
    alloc: Global,
    places: &mut Places,
    class: u32,
    layout: &[Field],
) -> Result<(), OutOfMemory>
    ensures { OnOk result ((c : ℕ) (x : OneSelector) → place_in places.new c x
        ≡ option_or (place_in places.old c x)
        (if class == c then position (is_own x c) layout.now else None)) }
{
    // No memory holds so many.
    if layout.len() > MOST {
        return Err(AllocError);
    }
    for (place, field) in layout.iter().enumerate() {
        note_own(alloc, places, class, field, place as u32)?;
    }
    Ok(())
}

/// Where each class has the fields of instances that it declares itself.
pub fn instance_places(alloc: Global, classes: &[Class]) -> Result<Places, OutOfMemory>
    requires { length classes.now < 2 ^ 32 }
    ensures { IfOk result (λ places. (c : ℕ) (x : OneSelector) →
        place_in places c x ≡ of_class (instance_place x) classes.now c) }
{
    let mut places = IndexMap::new(alloc);
    for (number, class) in classes.iter().enumerate() {
        note_layout(alloc, &mut places, number as u32, class.fields.as_slice())?;
    }
    Ok(places)
}
