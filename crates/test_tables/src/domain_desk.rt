//! A table of domains in which each step is asked before it is done.
ghost use Rattle.std.specs.Prelude.{◌≡◌, true};
ghost use Rattle.domain_table.specs.DomainLists.{HasThread, IsLive};

use domain_table::Domains;
use jx_base::{CallId, DomainId, OutOfMemory, Reason, ServiceId, System, ThreadId, ThreadState};
use std::alloc::Global;

/// The domains, with the number of the services that have threads.
#[derive(Drop)]
pub struct Desk {
    domains: Domains,
    services: u32,
    ghost count: { domains.services ≡ services },
}

fn is_live(domains: &Domains, domain: DomainId) -> bool
    ensures { result ≡ true → IsLive domains.now domain.0 }
{
    match domains.state(domain) {
        Some(state) => match state.ended {
            None => true,
            Some(_) => false,
        },
        None => false,
    }
}

fn has_thread(domains: &Domains, domain: DomainId, thread: ThreadId) -> bool
    ensures { result ≡ true → HasThread domains.now domain.0 thread.0 }
{
    domains.thread(domain, thread).is_some()
}

impl Desk {
    pub fn open(alloc: Global, system: &System) -> Result<Desk, OutOfMemory> {
        Ok(Desk {
            domains: Domains::open(alloc, system)?,
            services: 0,
        })
    }

    pub fn made(&self) -> u32 {
        self.domains.made()
    }

    pub fn add(&mut self, template: u32, creator: u32, at: u32) -> Option<u32> {
        Some(self.domains.add(template, DomainId(creator), at)?.0)
    }

    /// The template of a domain, its creator and its first granule.
    pub fn made_with(&self, domain: u32) -> Option<(u32, u32, u32)> {
        let state = self.domains.state(DomainId(domain))?;
        Some((state.template, state.creator.0, state.at))
    }

    pub fn was_killed(&self, domain: u32) -> bool {
        match self.domains.state(DomainId(domain)) {
            Some(state) => match state.ended {
                Some(Reason::Killed) => true,
                _ => false,
            },
            None => false,
        }
    }

    /// Ends the domain, where it lives.
    pub fn end(&mut self, domain: u32, reason: Reason) -> bool {
        let live = is_live(&self.domains, DomainId(domain));
        if live {
            self.domains.end(DomainId(domain), reason);
        }
        live
    }

    pub fn running(&self, domain: u32) -> Option<u32> {
        Some(self.domains.running(DomainId(domain))?.0)
    }

    /// Adds threads of a service, where the domain lives and may have so many.
    pub fn serve(&mut self, domain: u32, service: u32, threads: u8) -> bool {
        let live = is_live(&self.domains, DomainId(domain));
        if !live || threads == 0 || threads > 8 || self.services >= 256 {
            return false;
        }
        self.domains
            .serve(DomainId(domain), ServiceId(service), threads);
        self.services += 1;
        true
    }

    /// Puts the thread into that state, where there is one.
    pub fn set_thread(&mut self, domain: u32, thread: u32, state: ThreadState) -> bool {
        let there = has_thread(&self.domains, DomainId(domain), ThreadId(thread));
        if there {
            self.domains
                .set_thread(DomainId(domain), ThreadId(thread), state);
        }
        there
    }

    pub fn thread(&self, domain: u32, thread: u32) -> Option<ThreadState> {
        self.domains.thread(DomainId(domain), ThreadId(thread))
    }

    pub fn service(&self, domain: u32, thread: u32) -> Option<u32> {
        Some(self.domains.service(DomainId(domain), ThreadId(thread))?.0)
    }

    pub fn serves(&self, domain: u32, thread: u32) -> Option<CallId> {
        self.domains.serves(DomainId(domain), ThreadId(thread))
    }
}
