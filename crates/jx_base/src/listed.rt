//! Small types over a `Vec` or a `String` that contracts see as lists.
ghost use Rattle.std.proofs.Common.{rules};
ghost use Rattle.std.specs.Cmp;
ghost use Rattle.std.specs.Cmp.Lexicographic.{nat_list_eq_equiv};
ghost use Rattle.std.specs.Cmp.Rules.{hashing};
ghost use Rattle.std.specs.Hash as fed;
ghost use Rattle.std.specs.Prelude.{◌≡◌, IfOk, string_bytes};
ghost use Rattle.std.specs.Str.{bytes_eq};

use crate::OutOfMemory;
use crate::act::Entry;
use crate::value::{Node, Word};
use std::alloc::Global;
use std::hash::{Hash, Hasher};
use std::marker::Model;

/// A `Vec` that contracts see as the list of its items.
#[derive(Debug, Drop)]
pub struct Listed<T> {
    items: Vec<T>,
}

impl<T> Model for Listed<T> {
    ghost use Rattle.std.specs.Prelude.{List};
    ghost use Rattle.std.specs.Coded.{coded_list};

    ghost Value = { List T };

    ghost coded = { coded_list T.code };

    ghost view = { λ listed. listed.items.items };
}

impl<T> Listed<T> {
    /// Takes no memory.
    pub fn from_vec(items: Vec<T>) -> Listed<T>
        ensures { result ≡ items.items }
    {
        Listed { items }
    }

    /// Takes no memory.
    pub fn into_vec(self) -> Vec<T>
        ensures { result.items ≡ self }
    {
        let Listed { items } = self;
        items
    }

    pub fn as_slice(&self) -> &[T]
        ensures { result.now ≡ self.now }
    {
        self.items.as_slice()
    }
}

impl<T: Copy> Listed<T> {
    /// The list of a slice's items.
    pub fn from_slice(alloc: Global, items: &[T]) -> Result<Listed<T>, OutOfMemory>
        ensures { IfOk result (λ list. list ≡ items.now) }
    {
        Ok(Listed {
            items: Vec::from_slice(alloc, items)?,
        })
    }

    /// The same list once more.
    pub fn copy(&self, alloc: Global) -> Result<Listed<T>, OutOfMemory>
        ensures { IfOk result (λ list. list ≡ self.now) }
    {
        Listed::from_slice(alloc, self.items.as_slice())
    }
}

/// A text of UTF-16 units, which may be a key of a map. A surrogate may stand alone.
pub type Text = Listed<u16>;

impl PartialEq for Listed<u16> {
    ghost eq = { bytes_eq };

    ghost laws = { Cmp.partial_equiv_from_equiv nat_list_eq_equiv };

    fn eq(&self, other: &Listed<u16>) -> bool {
        self.items.as_slice() == other.items.as_slice()
    }
}

impl Eq for Listed<u16> {
    ghost laws = { nat_list_eq_equiv };
}

impl Hash for Listed<u16> {
    ghost hash_input = { fed.slice fed.u16 };

    ghost respects_eq = { Prim.search (hashing, rules) };

    fn hash<H: Hasher>(&self, state: &mut H) {
        self.items.hash(state);
    }
}

/// The text whose units are the bytes of one in ASCII.
pub fn text_of(alloc: Global, ascii: &str) -> Result<Text, OutOfMemory>
    ensures { IfOk result (λ text. text ≡ ascii.now) }
{
    let mut units = Vec::with_capacity(alloc, ascii.len())?;
    for byte in ascii.as_bytes() {
        units.push(u16::from(*byte))?;
    }
    Ok(Listed::from_vec(units))
}

/// The roots of a parcel, or the cells of a node.
pub type Cells = Listed<Word>;

/// The nodes of a parcel.
pub type Nodes = Listed<Node>;

/// The entries of a history, the first one first.
pub type Entries = Listed<Entry>;

/// The operands of an instruction.
pub type Numbers = Listed<i32>;

/// A text that contracts see as its bytes in UTF-8.
#[derive(Drop)]
pub struct Name {
    text: String,
}

impl Model for Name {
    ghost use Rattle.std.specs.Prelude.{List, ℕ, string_bytes};

    ghost Value = { List ℕ };

    ghost view = { λ name. string_bytes name.text };
}

impl Name {
    /// Takes no memory.
    pub fn from_string(text: String) -> Name
        ensures { result ≡ string_bytes text }
    {
        Name { text }
    }

    pub fn as_str(&self) -> &str
        ensures { result.now ≡ self.now }
    {
        self.text.as_str()
    }
}
