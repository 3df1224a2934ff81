//! Lists of names, in which a name is found at once.
ghost use Rattle.std.proofs.Common.{ap};
ghost use Rattle.std.specs.Cmp.Lexicographic.{bytes_decides, nat_list_eq_equiv};
ghost use Rattle.std.specs.Hash as fed;
ghost use Rattle.std.specs.Prelude.{◌≡◌, ◌<◌, ◌^◌, ℕ, List, IfOk, OnOk, length, position};
ghost use Rattle.std.specs.Str.{bytes_eq};
ghost use Rattle.indexmap.specs.IndexMap.{get_by};
ghost use Rattle.linker_outline.specs.Indexed.{IsIndexed, place_or};

use indexmap::{Equivalent, IndexMap};
use jx_base::{OutOfMemory, Text};
use std::alloc::{AllocError, Global};
use std::marker::Model;

const MOST: usize = u32::MAX as usize;

/// Units of UTF-16 by which a text is looked up.
#[derive(Clone, Copy, PartialEq, Eq, Hash)]
pub struct Units<'a> {
    pub units: &'a [u16],
}

impl Equivalent<Text> for Units<'_> {
    ghost equivalent = { λ text key. bytes_eq text.units.now key };

    ghost respects_hash = { λ text key h. ap (fed.slice fed.u16) ((bytes_decides text.units.now key).0 h) };

    ghost respects_eq = { λ text x y. nat_list_eq_equiv.congr text.units.now x y };

    fn equivalent(&self, key: &Text) -> bool {
        self.units == key.as_slice()
    }
}

/// A list of names, in which a name is found at once. A name may stand twice; the first one counts.
#[derive(Drop)]
pub struct Names {
    names: Vec<Text>,
    places: IndexMap<Text, u32>,
}

impl Model for Names {
    ghost use Rattle.std.specs.Prelude.{List, ℕ};
    ghost use Rattle.linker_outline.specs.Indexed.{IsIndexed};

    ghost Value = { List (List ℕ) };

    ghost view = { λ list. list.names.items };

    ghost invariant = { λ list. IsIndexed list.names.items list.places };
}

// Notes the place of a name, unless it has one.
fn note(places: &mut IndexMap<Text, u32>, name: Text, place: u32) -> Result<(), OutOfMemory>
    ensures { OnOk result ((text : List ℕ) → get_by (bytes_eq text) places.new
        ≡ place_or (get_by (bytes_eq text) places.old) (bytes_eq text name) place) }
{
    if !places.contains_key(&name) {
        places.insert(name, place)?;
    }
    Ok(())
}

// Where each name stands first.
fn first_places(alloc: Global, names: &[Text]) -> Result<IndexMap<Text, u32>, OutOfMemory>
    requires { length names.now < 2 ^ 32 }
    ensures { IfOk result (λ places. IsIndexed names.now places) }
{
    let mut places = IndexMap::new(alloc);
    for (place, name) in names.iter().enumerate() {
        note(&mut places, name.copy(alloc)?, place as u32)?;
    }
    Ok(places)
}

impl Names {
    /// The list of these names. No memory holds 2^32 of them.
    pub fn new(alloc: Global, names: Vec<Text>) -> Result<Names, OutOfMemory>
        ensures { IfOk result (λ list. list ≡ names.items) }
    {
        if names.len() > MOST {
            return Err(AllocError);
        }
        let places = first_places(alloc, names.as_slice())?;
        Ok(Names { names, places })
    }

    /// The first place of the name.
    pub fn find(&self, name: &[u16]) -> Option<u32>
        ensures { result ≡ position (bytes_eq name.now) self.now }
    {
        self.places.get(Units { units: name }).copied()
    }
}
