//! A plain list of entries.
ghost use Rattle.std.specs.Prelude.{◌≡◌, [], Some, None, OnOk, OnErr, IfOk};
ghost use Rattle.test_turn_lock.specs.Systems.{empty_system_value};
ghost use Rattle.test_turn_lock.specs.ListState.{IsAdded};

use jx_base::{
    Act, Chronicle, DomainId, Entry, Listed, OutOfMemory, Plan, Program, Reply, System, ThreadId,
};
use std::alloc::{AllocError, Global};
use std::marker::Model;

// The list takes no more entries than these.
const MOST: usize = 1000;

/// A list of entries beside a system.
#[derive(Drop)]
pub struct PlainList {
    system: System,
    entries: Vec<Entry>,
    next: u32,
}

impl Model for PlainList {
    ghost use Rattle.test_turn_lock.specs.ListState.{ListState, HasNumbers};

    ghost Value = { ListState };

    ghost view = { λ list. record { system = list.system; entries = list.entries.items } };

    ghost invariant = { λ list. HasNumbers list.entries.items list.next };
}

/// A system without templates, classes and methods.
pub fn empty_system(alloc: Global) -> System
    ensures { result ≡ empty_system_value }
{
    System {
        plan: Plan {
            granules: 1,
            journal: 8208,
            templates: Listed::from_vec(Vec::new(alloc)),
            classes: Listed::from_vec(Vec::new(alloc)),
        },
        program: Program {
            classes: Listed::from_vec(Vec::new(alloc)),
            methods: Listed::from_vec(Vec::new(alloc)),
            selectors: Listed::from_vec(Vec::new(alloc)),
        },
    }
}

impl Chronicle for PlainList {
    ghost system = { λ list. list.system };

    ghost entries = { λ list. list.entries };

    fn count(&self) -> u32 {
        self.entries.len() as u32
    }
}

impl PlainList {
    /// An empty list.
    pub fn new(alloc: Global, system: System) -> PlainList
        ensures system { result.system ≡ system }
        ensures entries { result.entries ≡ [] }
    {
        PlainList {
            system,
            entries: Vec::new(alloc),
            next: 1,
        }
    }

    /// One entry more, with a text of one unit.
    pub fn print(&mut self, alloc: Global, domain: DomainId, unit: u16) -> Result<(), OutOfMemory>
        ensures ok { OnOk result (IsAdded self.old self.new domain.0 None) }
        ensures err { OnErr result (self.new ≡ self.old) }
    {
        if self.entries.len() >= MOST {
            return Err(AllocError);
        }
        let mut text = Vec::with_capacity(alloc, 1)?;
        text.push(unit)?;
        self.entries.push(Entry {
            domain,
            thread: ThreadId(0),
            act: Act::Print(Listed::from_vec(text)),
            reply: Reply::Done,
        })?;
        Ok(())
    }

    /// One entry more, which makes a domain.
    pub fn create(&mut self, domain: DomainId) -> Result<DomainId, OutOfMemory>
        ensures ok { IfOk result (λ born. IsAdded self.old self.new domain.0 (Some born.0)) }
        ensures err { OnErr result (self.new ≡ self.old) }
    {
        if self.entries.len() >= MOST {
            return Err(AllocError);
        }
        let born = DomainId(self.next);
        self.entries.push(Entry {
            domain,
            thread: ThreadId(0),
            act: Act::Create(0),
            reply: Reply::Domain(born, 0),
        })?;
        self.next += 1;
        Ok(born)
    }

    /// The entries, the first one first.
    pub fn entries(&self) -> &[Entry]
        ensures { result.now ≡ self.now.entries }
    {
        self.entries.as_slice()
    }
}
