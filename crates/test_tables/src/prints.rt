//! A journal of prints, with a halt behind them.
ghost use Rattle.std.specs.Prelude.{◌≡◌, false};
ghost use Rattle.std.specs.List.{list_any};
ghost use Rattle.journal.specs.Journals.{is_halt};

use journal::Journal;
use jx_base::{Act, DomainId, Entry, OutOfMemory, Reply, Text, ThreadId};
use std::alloc::Global;

// The words of the journal.
const LIMIT: u32 = 8208;

// The words that an entry costs at most.
const MOST_WORDS: u32 = 4104;

// The units of a text at most.
const MOST_UNITS: usize = 4096;

/// A journal that has no halt yet.
#[derive(Drop)]
pub struct Prints {
    journal: Journal,
    ghost limit: { journal.limit ≡ 8208 },
    ghost goes_on: { list_any is_halt journal.entries ≡ false },
}

impl Prints {
    pub fn open(alloc: Global) -> Result<Prints, OutOfMemory> {
        Ok(Prints {
            journal: Journal::open(alloc, LIMIT)?,
        })
    }

    /// Puts a print behind the others, where any entry has room.
    pub fn print(&mut self, text: Text) -> bool {
        if text.as_slice().len() > MOST_UNITS || self.journal.words() > LIMIT - MOST_WORDS {
            return false;
        }
        self.journal.push(Entry {
            domain: DomainId(1),
            thread: ThreadId(0),
            act: Act::Print(text),
            reply: Reply::Done,
        });
        true
    }

    /// How many entries there are, and what they cost.
    pub fn measured(&self) -> (u32, u32) {
        (self.journal.len(), self.journal.words())
    }

    /// The journal with a halt behind the prints.
    pub fn halted(self) -> Journal {
        let Prints { mut journal } = self;
        journal.push(Entry {
            domain: DomainId(0),
            thread: ThreadId(0),
            act: Act::Halt,
            reply: Reply::Done,
        });
        journal
    }
}
