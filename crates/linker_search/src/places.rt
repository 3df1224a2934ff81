//! Maps that lead from a member of a class to a place.
ghost use Rattle.std.specs.Prelude.{◌≡◌, ◌++◌, ◌&&◌, ◌==◌, ℕ, List, OnOk};
ghost use Rattle.std.specs.Hash as fed;
ghost use Rattle.jx_base.proofs.BasicLaws.{ap3};
ghost use Rattle.jx_base.specs.declared.program.Selector.{Selector as OneSelector};
ghost use Rattle.linker_names.specs.Names.{selector_of};
ghost use Rattle.linker_outline.specs.Indexed.{place_or};
ghost use Rattle.linker_outline.specs.KeysAlike.{same_texts};
ghost use Rattle.linker_search.specs.KeysAlike.{alike_with, class_alike, descriptor_alike};
ghost use Rattle.linker_search.specs.KeysAlike.{name_alike, same_member};
ghost use Rattle.linker_search.specs.Places.{place_in};
ghost use Rattle.program_model.specs.Lookup.{same_selector};

use indexmap::{Equivalent, IndexMap};
use jx_base::{OutOfMemory, Selector};
use linker_names::NameAndType;

/// The most that a number counts.
pub const MOST: usize = u32::MAX as usize;

/// A class with the selector of a member.
#[derive(PartialEq, Eq, Hash, Drop)]
pub struct Key {
    pub class: u32,
    pub selector: Selector,
}

/// A class with the name and descriptor of a member that is sought there.
#[derive(Clone, Copy, PartialEq, Eq, Hash)]
pub struct Sought<'a> {
    pub class: u32,
    pub member: NameAndType<'a>,
}

/// The places of members.
pub type Places = IndexMap<Key, u32>;

fn is_selector(member: NameAndType<'_>, selector: &Selector) -> bool
    ensures { result ≡ same_texts member.entry.name.now member.entry.descriptor.now
        selector.now.name selector.now.descriptor }
{
    member.name == selector.name.as_slice() && member.descriptor == selector.descriptor.as_slice()
}

impl Equivalent<Key> for Sought<'_> {
    ghost equivalent = { λ q k. same_member q.class (selector_of q.member) k.class k.selector };

    ghost respects_hash = { λ q k h. ap3 (λ (c : ℕ) (a b : List ℕ). fed.u32 c ++ (fed.slice fed.u16 a ++ fed.slice fed.u16 b)) (class_alike q.class (selector_of q.member) k.class k.selector h) (name_alike q.class (selector_of q.member) k.class k.selector h) (descriptor_alike q.class (selector_of q.member) k.class k.selector h) };

    ghost respects_eq = { λ q x y h. alike_with q.class (selector_of q.member) x.class x.selector h y.class y.selector };

    fn equivalent(&self, key: &Key) -> bool {
        self.class == key.class && is_selector(self.member, &key.selector)
    }
}

/// Notes the place of a member, unless it has one.
pub fn note(places: &mut Places, key: Key, place: u32) -> Result<(), OutOfMemory>
    ensures { OnOk result ((c : ℕ) (x : OneSelector) → place_in places.new c x
        ≡ place_or (place_in places.old c x)
        ((key.class == c) && same_selector x key.selector) place) }
{
    if !places.contains_key(&key) {
        places.insert(key, place)?;
    }
    Ok(())
}
