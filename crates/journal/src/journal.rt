//! The list of entries.
ghost use Rattle.std.specs.Prelude.{◌≡◌, ◌++◌, ◌∷◌, ◌<◌, ◌≤◌, [], Some, IfOk, length, reverse, slice_get};
ghost use Rattle.jx_model.specs.Journal.{words_of};
ghost use Rattle.journal.specs.Journals.{HasRoomFor};

use crate::words::entry_words;
use jx_base::{Entry, History, Listed, OutOfMemory};
use std::alloc::Global;
use std::marker::Model;

// The words that an entry costs at least.
const LEAST_WORDS: usize = 8;

/// The entries of a run, the first one first, in a journal of so many words. Only `open` takes memory.
#[derive(Drop)]
pub struct Journal {
    entries: Vec<Entry>,
    words: u32,
    limit: u32,
}

impl Model for Journal {
    ghost use Rattle.journal.specs.Journals.{JournalState, IsJournal, journal_state};

    ghost Value = { JournalState };

    ghost view = { journal_state };

    ghost invariant = { IsJournal };
}

impl Journal {
    /// No entries yet, with room for all that so many words can have.
    pub fn open(alloc: Global, limit: u32) -> Result<Journal, OutOfMemory>
        requires { limit ≤ 16777216 }
        ensures { IfOk result (λ journal. journal ≡ record { entries = []; limit = limit }) }
    {
        Ok(Journal {
            entries: Vec::with_capacity(alloc, limit as usize / LEAST_WORDS + 1)?,
            words: 0,
            limit,
        })
    }

    /// Puts the entry behind the others.
    pub fn push(&mut self, entry: Entry)
        requires { HasRoomFor self.old entry }
        ensures { self.new ≡ record self.old { entries = self.old.entries ++ entry ∷ [] } }
    {
        self.words += entry_words(&entry);
        self.entries.push_reserved(entry);
    }

    /// What all entries cost.
    pub fn words(&self) -> u32
        ensures { result ≡ words_of (reverse self.now.entries) }
    {
        self.words
    }

    /// How many entries there are.
    pub fn len(&self) -> u32
        ensures { result ≡ length self.now.entries }
    {
        self.entries.len() as u32
    }

    /// The entry at that place, from 0.
    pub fn at(&self, place: u32) -> &Entry
        requires { place < length self.now.entries }
        ensures { slice_get self.now.entries place ≡ Some result.now }
    {
        &self.entries[place as usize]
    }

    /// The history of the entries.
    pub fn close(self) -> History
        ensures { result ≡ record { entries = self.entries } }
    {
        let Journal { entries, .. } = self;
        History {
            entries: Listed::from_vec(entries),
        }
    }
}
