//! A table of services in which each step is asked before it is done.
ghost use Rattle.std.specs.Prelude.{◌≡◌, ◌≤◌, true};
ghost use Rattle.domain_flags.specs.FlagLists.{IsDomain};
ghost use Rattle.portal_table.specs.NameLists.{name_words};

use jx_base::{ClassId, DomainId, OutOfMemory, Reply, ServiceId, Text};
use portal_table::Services;
use std::alloc::Global;

// The words that a name costs besides its units.
const NAME_WORDS: u32 = 8;

/// The services, with the words that their names may cost, and those that they cost at most.
#[derive(Drop)]
pub struct Desk {
    services: Services,
    words: u32,
    used: u32,
    ghost room: { services.words ≡ words },
    ghost cost: { name_words services.binds ≤ used },
}

fn is_domain(domain: u32) -> bool
    ensures { result ≡ true → IsDomain domain }
{
    domain >= 1 && domain <= 64
}

impl Desk {
    pub fn open(alloc: Global, words: u32) -> Result<Desk, OutOfMemory> {
        Ok(Desk {
            services: Services::open(alloc, words)?,
            words,
            used: 0,
        })
    }

    /// Exports a service of the domain, where there may be that domain.
    pub fn export(&mut self, domain: u32) -> Option<Reply> {
        if !is_domain(domain) {
            return None;
        }
        Some(self.services.export(DomainId(domain), ClassId(9), 1))
    }

    /// Binds the name to the service, where there is room for it.
    pub fn bind(&mut self, domain: u32, name: &Text, service: u32) -> Option<Reply> {
        let units = name.as_slice().len();
        if units > 255 || self.used > self.words || self.words - self.used < NAME_WORDS + 255 {
            return None;
        }
        self.used += NAME_WORDS + units as u32;
        Some(
            self.services
                .bind(DomainId(domain), name, ServiceId(service)),
        )
    }

    /// Looks the name up, where there may be that domain.
    pub fn lookup(&mut self, domain: u32, name: &Text) -> Option<Reply> {
        if !is_domain(domain) {
            return None;
        }
        Some(self.services.lookup(DomainId(domain), name))
    }

    /// Ends the domain, where there may be that.
    pub fn end_domain(&mut self, domain: u32) -> Option<Reply> {
        if !is_domain(domain) {
            return None;
        }
        self.services.end_domain(DomainId(domain));
        Some(Reply::Done)
    }

    pub fn holds(&self, domain: u32, service: u32) -> bool {
        self.services.holds(DomainId(domain), ServiceId(service))
    }
}
