//! Selectors, each once.
ghost use Rattle.std.specs.Prelude.{◌≡◌, ◌++◌, ◌<◌, [], ℕ, List, length, position};
ghost use Rattle.std.specs.Prelude.{IfOk, IfSome, OnOk};
ghost use Rattle.std.specs.Hash as fed;
ghost use Rattle.jx_base.proofs.BasicLaws.{ap2};
ghost use Rattle.linker_outline.specs.KeysAlike.{alike_with, first_alike, same_texts, second_alike};
ghost use Rattle.jx_base.specs.Basics.{added};
ghost use Rattle.program_model.specs.Lookup.{same_selector};
ghost use Rattle.linker_names.specs.Names.{selector_of};
ghost use Rattle.linker_outline.specs.Keys.{selector_of_key};

use indexmap::{Equivalent, IndexSet};
use jx_base::{OutOfMemory, Selector, Text};
use linker_names::NameAndType;
use std::alloc::Global;
use std::marker::Model;

/// A selector as the key of a set.
#[derive(PartialEq, Eq, Hash, Drop)]
pub struct Key {
    name: Text,
    descriptor: Text,
}

impl Key {
    // The selector that the key is.
    fn selector(&self, alloc: Global) -> Result<Selector, OutOfMemory>
        ensures { IfOk result (λ selector. selector ≡ selector_of_key self.now) }
    {
        Ok(Selector {
            name: self.name.copy(alloc)?,
            descriptor: self.descriptor.copy(alloc)?,
        })
    }
}

impl Equivalent<Key> for NameAndType<'_> {
    ghost equivalent = { λ member key. same_texts member.name.now member.descriptor.now key.name key.descriptor };

    ghost respects_hash = { λ q k h. ap2 (λ (a b : List ℕ). fed.slice fed.u16 a ++ fed.slice fed.u16 b) (first_alike q.name.now q.descriptor.now k.name k.descriptor h) (second_alike q.name.now q.descriptor.now k.name k.descriptor h) };

    ghost respects_eq = { λ q x y h. alike_with q.name.now q.descriptor.now x.name x.descriptor h y.name y.descriptor };

    fn equivalent(&self, key: &Key) -> bool {
        self.name == key.name.as_slice() && self.descriptor == key.descriptor.as_slice()
    }
}

/// Selectors, each once, in the order in which they came.
#[derive(Drop)]
pub struct Selectors {
    keys: IndexSet<Key>,
}

impl Model for Selectors {
    ghost use Rattle.std.specs.Prelude.{List, map};
    ghost use Rattle.jx_base.specs.declared.program.Selector.{Selector as OneSelector};
    ghost use Rattle.linker_outline.specs.Keys.{selector_of_key};

    ghost Value = { List OneSelector };

    ghost view = { λ selectors. map selector_of_key selectors.keys.keys };
}

impl Selectors {
    /// Takes no memory.
    pub fn new(alloc: Global) -> Selectors
        ensures { result ≡ [] }
    {
        Selectors {
            keys: IndexSet::new(alloc),
        }
    }

    /// Adds a selector, unless it is there.
    pub fn add(&mut self, selector: Selector) -> Result<(), OutOfMemory>
        ensures { OnOk result (self.new ≡ added same_selector self.old selector) }
    {
        let Selector { name, descriptor } = selector;
        self.keys.insert(Key { name, descriptor })?;
        Ok(())
    }

    /// How many there are.
    pub fn len(&self) -> usize
        ensures { result ≡ length self.now }
    {
        self.keys.len()
    }

    /// The place of a selector.
    pub fn find(&self, member: NameAndType<'_>) -> Option<usize>
        ensures place { result ≡ position (same_selector (selector_of member.entry)) self.now }
        ensures within { IfSome result (λ place. place < length self.now) }
    {
        self.keys.get_index_of(member)
    }

    /// The selectors in their order.
    pub fn list(&self, alloc: Global) -> Result<Vec<Selector>, OutOfMemory>
        ensures { IfOk result (λ list. list.items ≡ self.now) }
    {
        let keys = self.keys.as_slice();
        let mut list = Vec::with_capacity(alloc, keys.len())?;
        for key in keys {
            list.push(key.selector(alloc)?)?;
        }
        Ok(list)
    }
}
