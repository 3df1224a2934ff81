//! What the tables say of what may come.
ghost use Rattle.std.specs.Prelude.{◌≡◌, ◌<◌, IfSome, Some, length, slice_get};
ghost use Rattle.jx_base.specs.declared.act.Act.TheVariants.{Go};
ghost use Rattle.domain_table.specs.DomainLists.{HasThread};
ghost use Rattle.std.specs.Option.{option_map};
ghost use Rattle.jx_model.specs.Domains.{domains_made};
ghost use Rattle.jx_model.specs.Journal as Journals;
ghost use Rattle.jx_model.specs.Permits as Permits;
ghost use Rattle.nucleus_tables.specs.Entering.{thread_state_after};
ghost use Rattle.nucleus_tables.specs.Inner.{IsOf, past_in};
ghost use Rattle.table_steps.specs.Steps.{owns};

use crate::tables::Tables;
use jx_base::{DomainId, Entry, ServiceId, System, ThreadId, ThreadState};

// The words that an entry costs at most.
const ENTRY_LIMIT: u64 = 4104;

impl Tables {
    /// Whether the journal may lack the room for one entry of the largest cost.
    pub fn is_full(&self, system: &System) -> bool
        requires { IsOf system.now self.now }
        ensures { result ≡ Journals.is_full system.now (past_in self.now) }
    {
        u64::from(self.journal.words()) + ENTRY_LIMIT > u64::from(system.plan.journal)
    }

    /// The template that is created next at the start.
    pub fn next_boot(&self, system: &System) -> Option<u32>
        requires { IsOf system.now self.now }
        ensures { result ≡ Permits.next_boot system.now (past_in self.now) }
    {
        let _ = system;
        self.boots.get(self.creates).copied()
    }

    /// Whether the domain has a running thread or a choice.
    pub fn can_act(&self, system: &System, domain: DomainId) -> bool
        requires { IsOf system.now self.now }
        ensures { result ≡ Permits.can_act (past_in self.now) domain.0 }
    {
        self.domains.running(domain).is_some() || self.choice(system, domain).is_some()
    }

    /// The least domain that can act.
    pub fn first_alive(&self, system: &System) -> Option<DomainId>
        requires { IsOf system.now self.now }
        ensures { option_map (λ d. d.0) result ≡ Permits.first_alive (past_in self.now) }
    {
        for number in 1..self.domains.made() + 1 {
            if self.can_act(system, DomainId(number)) {
                return Some(DomainId(number));
            }
        }
        None
    }

    /// How many domains were made.
    pub fn made(&self) -> u32
        ensures { (s : System) → IsOf s self.now → result ≡ domains_made (past_in self.now) }
    {
        self.domains.made()
    }

    /// The newest entry.
    pub fn last(&self) -> &Entry
        requires { 0 < length (past_in self.now) }
        ensures { slice_get (past_in self.now) 0 ≡ Some result.now }
    {
        self.journal.at(self.journal.len() - 1)
    }

    /// Whether the domain exported the service.
    pub fn owns(&self, domain: DomainId, service: ServiceId) -> bool
        ensures { result ≡ owns self.now.services.services domain.0 service.0 }
    {
        match self.services.owner(service) {
            Some((owner, _)) => owner.0 == domain.0,
            None => false,
        }
    }

    /// What a thread does once it goes on.
    pub fn resumed(&self, domain: DomainId, thread: ThreadId) -> ThreadState
        requires { HasThread self.now.domains domain.0 thread.0 }
        ensures { result ≡ thread_state_after self.now domain.0 thread.0 (Go thread) }
    {
        match (
            self.domains.service(domain, thread),
            self.domains.serves(domain, thread),
        ) {
            (None, _) => ThreadState::Running,
            (Some(_), Some(call)) => ThreadState::Serving(call),
            (Some(service), None) => ThreadState::Idle(service),
        }
    }
}
