//! The constants of a class file, each once.
ghost use Rattle.std.specs.Prelude.{◌≡◌, suc, sum_by, IfOk, IsTrue, [], OnOk, ◌++◌};
ghost use Rattle.asm_constants.specs.Entries.{bytes_behind_tag};
ghost use Rattle.asm_constants.specs.Pools.{constant_bytes, fits, has_content, text_bytes};
ghost use Rattle.asm_constants.specs.Pools.{two_bytes, index_of, places, with_needed, with_new};
ghost use Rattle.asm_constants.specs.Pools.{with_all_new, pool_bytes};
ghost use Rattle.class_grammar.specs.ModifiedUtf8.{modified_utf8};

use crate::content::{Content, class_content, pair_content, text_content};
use crate::numbers::two_bytes;
use class_texts::utf8_write;
use indexmap::IndexMap;
use jx_base::OutOfMemory;
use std::alloc::{AllocError, Global};
use std::marker::Model;

const MOST: usize = 65_535;

/// The constants of a class file, each once, in order of first need. There may be more than a class
/// file can have.
#[derive(Drop)]
pub struct Pool {
    indices: IndexMap<Content, usize>,
    next: usize,
    are_short: bool,
}

impl Model for Pool {
    ghost use Rattle.std.specs.Prelude.{List};
    ghost use Rattle.indexmap.specs.IndexMap.{keys};
    ghost use Rattle.asm_constants.specs.declared.content.Content.{Content};
    ghost use Rattle.asm_constants.specs.Entries.{IsPool};

    ghost Value = { List Content };

    ghost view = { λ pool. keys pool.indices };

    ghost invariant = { λ pool. IsPool pool.indices.entries pool.next pool.are_short };
}

fn push_text(alloc: Global, bytes: &mut Vec<u8>, units: &[u16]) -> Result<(), OutOfMemory>
    ensures { OnOk result (bytes.new.items
        ≡ bytes.old.items ++ text_bytes (modified_utf8 units.now)) }
{
    let text = utf8_write(alloc, units)?;
    bytes.extend_from_slice(&two_bytes(text.len()))?;
    bytes.extend_from_slice(text.as_slice())
}

impl Pool {
    /// Takes no memory.
    pub fn new(alloc: Global) -> Pool
        ensures { result ≡ [] }
    {
        Pool {
            indices: IndexMap::new(alloc),
            next: 1,
            are_short: true,
        }
    }

    /// The index of a constant, and 0 where it isn't there.
    pub fn index(&self, content: &Content) -> usize
        ensures { result ≡ index_of self.now content.now }
    {
        match self.indices.get(content) {
            Some(index) => *index,
            None => 0,
        }
    }

    /// What stands in front of the constants in a class file: one more than the indices that they
    /// take up.
    pub fn count(&self) -> usize
        ensures { result ≡ suc (sum_by places self.now) }
    {
        self.next
    }

    /// Whether a class file can have that many constants, and texts so long.
    #[tactic(auto, unfolding(crate::specs::Pools::fits))]
    pub fn fits(&self) -> bool
        ensures { result ≡ fits self.now }
    {
        self.next <= MOST && self.are_short
    }

    fn contains(&self, content: &Content) -> bool
        ensures { result ≡ has_content self.now content.now }
    {
        self.indices.contains_key(content)
    }

    fn add_one(&mut self, content: Content) -> Result<(), OutOfMemory>
        ensures { OnOk result (self.new ≡ with_new self.old content) }
    {
        if self.contains(&content) {
            return Ok(());
        }
        let next = match self.next.checked_add(content.places()) {
            Some(next) => next,
            None => return Err(AllocError),
        };
        let are_short = self.are_short & content.is_short();
        self.indices.insert(content, self.next)?;
        self.next = next;
        self.are_short = are_short;
        Ok(())
    }

    fn add_all(&mut self, contents: Vec<Content>) -> Result<(), OutOfMemory>
        ensures { OnOk result (self.new ≡ with_all_new self.old contents.items) }
    {
        let _ = &self.next;
        for content in contents {
            self.add_one(content)?;
        }
        Ok(())
    }

    /// Adds a constant, and in front of it those that it names, where they aren't there yet. Where
    /// memory runs out, some of them may be there.
    #[tactic(auto, unfolding(crate::specs::Pools::with_needed))]
    pub fn add(&mut self, alloc: Global, content: &Content) -> Result<(), OutOfMemory>
        ensures { OnOk result (self.new ≡ with_needed self.old content.now) }
    {
        self.add_all(content.with_parts(alloc)?)
    }

    fn push_index(&self, bytes: &mut Vec<u8>, content: &Content) -> Result<(), OutOfMemory>
        ensures { OnOk result (bytes.new.items
            ≡ bytes.old.items ++ two_bytes (index_of self.now content.now)) }
    {
        bytes.extend_from_slice(&two_bytes(self.index(content)))
    }

    fn push_indices(
        &self,
        bytes: &mut Vec<u8>,
        front: &Content,
        behind: &Content,
    ) -> Result<(), OutOfMemory>
        ensures { OnOk result (bytes.new.items
            ≡ bytes.old.items ++ two_bytes (index_of self.now front.now)
            ++ two_bytes (index_of self.now behind.now)) }
    {
        self.push_index(bytes, front)?;
        self.push_index(bytes, behind)
    }

    #[tactic(auto, unfolding(crate::specs::Entries::bytes_behind_tag))]
    fn push_parts(
        &self,
        alloc: Global,
        bytes: &mut Vec<u8>,
        content: &Content,
    ) -> Result<(), OutOfMemory>
        ensures { OnOk result (bytes.new.items
            ≡ bytes.old.items ++ bytes_behind_tag self.now content.now) }
    {
        match content {
            Content::Utf8(units) => push_text(alloc, bytes, units.as_slice()),
            Content::Integer(number) => bytes.extend_from_slice(&number.to_be_bytes()),
            Content::Long(number) => bytes.extend_from_slice(&number.to_be_bytes()),
            Content::Class(name) => self.push_index(bytes, &text_content(alloc, name)?),
            Content::Str(units) => self.push_index(bytes, &text_content(alloc, units)?),
            Content::NameAndType(name, descriptor) => self.push_indices(
                bytes,
                &text_content(alloc, name)?,
                &text_content(alloc, descriptor)?,
            ),
            Content::Member(_, class, name, descriptor) => self.push_indices(
                bytes,
                &class_content(alloc, class)?,
                &pair_content(alloc, name, descriptor)?,
            ),
        }
    }

    fn push_constant(
        &self,
        alloc: Global,
        bytes: &mut Vec<u8>,
        content: &Content,
    ) -> Result<(), OutOfMemory>
        ensures { OnOk result (bytes.new.items
            ≡ bytes.old.items ++ constant_bytes self.now content.now) }
    {
        bytes.push(content.tag())?;
        self.push_parts(alloc, bytes, content)
    }

    /// The constants as a class file has them.
    pub fn bytes(&self, alloc: Global) -> Result<Vec<u8>, OutOfMemory>
        ensures { IfOk result (λ bytes. bytes.items ≡ pool_bytes self.now) }
    {
        let mut bytes = Vec::new(alloc);
        for content in self.indices.keys() {
            self.push_constant(alloc, &mut bytes, content)?;
        }
        Ok(bytes)
    }
}
