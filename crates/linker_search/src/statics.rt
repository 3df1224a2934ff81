//! Where static fields stand among those of all classes.
ghost use Rattle.std.specs.Prelude.{◌≡◌, ◌+◌, ◌==◌, ◌<◌, ◌^◌, ℕ, None, IfOk, OnOk};
ghost use Rattle.std.specs.Prelude.{if◌then◌else◌, length, position};
ghost use Rattle.std.specs.Option.{option_map, option_or};
ghost use Rattle.jx_base.specs.declared.program.Selector.{Selector as OneSelector};
ghost use Rattle.link_model.specs.Linking.{is_field};
ghost use Rattle.linker_search.specs.OwnFields.{of_class, static_place};
ghost use Rattle.linker_search.specs.Places.{place_in};

use crate::fields::note_field;
use crate::places::{MOST, Places};
use indexmap::IndexMap;
use jx_base::{Class, Field, OutOfMemory};
use std::alloc::{AllocError, Global};

// Notes the places of a class's static fields, before which there are so many.
fn note_statics(
    alloc: Global,
    places: &mut Places,
    class: u32,
    before: usize,
    statics: &[Field],
) -> Result<(), OutOfMemory>
    requires { before + length statics.now < 2 ^ 32 }
    ensures { OnOk result ((c : ℕ) (x : OneSelector) → place_in places.new c x
        ≡ option_or (place_in places.old c x) (if class == c
        then option_map (λ i. before + i) (position (is_field x) statics.now) else None)) }
{
    for (place, field) in statics.iter().enumerate() {
        note_field(alloc, places, class, field, (before + place) as u32)?;
    }
    Ok(())
}

/// Where each class has its static fields among those of all classes.
pub fn static_places(alloc: Global, classes: &[Class]) -> Result<Places, OutOfMemory>
    requires { length classes.now < 2 ^ 32 }
    ensures { IfOk result (λ places. (c : ℕ) (x : OneSelector) →
        place_in places c x ≡ of_class (static_place classes.now x) classes.now c) }
{
    let mut places = IndexMap::new(alloc);
    let mut before = 0;
    for (number, class) in classes.iter().enumerate() {
        let statics = class.statics.as_slice();
        // No memory holds so many.
        if statics.len() > MOST - before {
            return Err(AllocError);
        }
        note_statics(alloc, &mut places, number as u32, before, statics)?;
        before += statics.len();
    }
    Ok(places)
}
