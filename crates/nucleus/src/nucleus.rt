//! The nucleus.
ghost use Rattle.std.specs.Prelude.{◌≡◌, ◌<◌, [], Some, IfOk, IfSome, length, slice_get};
ghost use Rattle.jx_base.specs.declared.program.System.{System};
ghost use Rattle.jx_base.specs.Histories.{past_of};
ghost use Rattle.jx_model.specs.Domains.{domains_made};
ghost use Rattle.jx_model.specs.Journal as Journals;
ghost use Rattle.jx_model.specs.Permits as Permits;
ghost use Rattle.program_model.specs.Plans.{IsPlanInRange};
ghost use Rattle.nucleus_tables.specs.NucleusStates.{IsNucleusOf};
ghost use Rattle.nucleus_tables.specs.Stepping.{IsStepped, MayCome};

use crate::stepping::step;
use jx_base::{Act, DomainId, Entry, History, OutOfMemory, System};
use nucleus_tables::{Step, Tables};
use std::alloc::Global;
use std::marker::Model;

/// The nucleus of a run. It is seen as its past with the tables that are kept beside it, and stands
/// for a system by a relation (`IsNucleusOf`). Only `open`, and `step` for copies of parcels, take memory.
#[derive(Drop)]
pub struct Nucleus {
    tables: Tables,
}

impl Model for Nucleus {
    ghost use Rattle.nucleus_tables.specs.Inner.{state_of};
    ghost use Rattle.nucleus_tables.specs.NucleusStates.{NucleusState};

    ghost Value = { NucleusState };

    ghost view = { λ nucleus. state_of nucleus.tables };
}

impl Nucleus {
    /// The nucleus of the system before the first entry.
    pub fn open(alloc: Global, system: &System) -> Result<Nucleus, OutOfMemory>
        requires { IsPlanInRange system.now.plan }
        ensures nucleus { IfOk result (IsNucleusOf system.now) }
        ensures start { IfOk result (λ nucleus. nucleus.kept.past ≡ []) }
    {
        Ok(Nucleus {
            tables: Tables::open(alloc, system)?,
        })
    }

    /// Asks for an act of the domain: its entry with the permitted thread and the reply that the
    /// past gives is made, or nothing changes. A take or a resume takes memory, for the parcel.
    pub fn step(&mut self, alloc: Global, system: &System, domain: DomainId, act: Act) -> Step
        requires nucleus { IsNucleusOf system.now self.old }
        requires act { MayCome system.now self.old.kept.past domain.0 act }
        ensures { IsStepped system.now self.old self.new domain.0 act result }
    {
        step(&mut self.tables, alloc, system, domain, act)
    }

    /// The first choice of a domain: resumes come before takes, takes before goes. `None` where it
    /// has none, or where it has a running thread.
    pub fn choice(&self, system: &System, domain: DomainId) -> Option<Act>
        requires { IsNucleusOf system.now self.now }
        ensures { result ≡ Permits.first_choice self.now.kept.past domain.0 }
    {
        self.tables.choice(system, domain)
    }

    /// Whether the domain has a running thread or a choice.
    pub fn can_act(&self, system: &System, domain: DomainId) -> bool
        requires { IsNucleusOf system.now self.now }
        ensures { result ≡ Permits.can_act self.now.kept.past domain.0 }
    {
        self.tables.can_act(system, domain)
    }

    /// The template that is to be created next at the start, as a place in the plan. `None` where
    /// the start is done.
    pub fn next_boot(&self, system: &System) -> Option<u32>
        requires { IsNucleusOf system.now self.now }
        ensures { result ≡ Permits.next_boot system.now self.now.kept.past }
    {
        self.tables.next_boot(system)
    }

    /// Whether the journal may lack the room for one entry of the largest cost: then only a halt
    /// may come.
    pub fn is_full(&self, system: &System) -> bool
        requires { IsNucleusOf system.now self.now }
        ensures { result ≡ Journals.is_full system.now self.now.kept.past }
    {
        self.tables.is_full(system)
    }

    /// How many domains were made.
    pub fn domains(&self) -> u32
        ensures { (s : System) → IsNucleusOf s self.now → result ≡ domains_made self.now.kept.past }
    {
        self.tables.made()
    }

    /// The newest entry.
    pub fn last(&self) -> &Entry
        requires { 0 < length self.now.kept.past }
        ensures { slice_get self.now.kept.past 0 ≡ Some result.now }
    {
        self.tables.last()
    }

    /// The history of all entries.
    pub fn close(self) -> History
        ensures { past_of result ≡ self.kept.past }
    {
        self.tables.journal.close()
    }
}
