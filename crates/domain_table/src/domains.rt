//! The table of domains.
ghost use Rattle.std.specs.Prelude.{◌≡◌, ◌+◌, ◌++◌, ◌∷◌, ◌<◌, ◌≤◌, ◌-◌, [], Some, None, IfOk, IfSome, length, nat_lt, option_map, if◌then◌else◌};
ghost use Rattle.std.specs.Option.{option_and_then, option_map};
ghost use Rattle.domain_table.specs.DomainLists.{HasThread, IsLive, IsThreadCount};
ghost use Rattle.domain_table.specs.DomainLists.{record_of, ended, live_threads_in, new_domain, running_in, thread_in};
ghost use Rattle.domain_table.specs.DomainLists.{idle_in, thread_count, waiting_in, with_domain, with_idle, with_state, yielded_in};
ghost use Rattle.jx_base.specs.Basics.{numbered};
ghost use Rattle.program_model.specs.Limits.{domain_limit};
ghost use Rattle.table_threads.specs.Changes.{changed_at};
ghost use Rattle.table_threads.specs.ThreadChanges.{own_changed};

use crate::limits::{MOST_THREADS, domain_limit};
use crate::rows::ThreadRow;
use crate::threads::Threads;
use jx_base::{
    CallId, DomainId, DomainState, OutOfMemory, Reason, ServiceId, System, ThreadId, ThreadState,
};
use std::alloc::Global;
use std::marker::Model;

/// The domains by their numbers, from 1, with their threads. Only `open` takes memory.
#[derive(Drop)]
pub struct Domains {
    domains: Vec<DomainState>,
    threads: Vec<Threads>,
    services: u32,
    limit: u32,
}

impl Model for Domains {
    ghost use Rattle.domain_table.specs.DomainLists.{DomainsState};
    ghost use Rattle.domain_table.specs.Inner.{IsDomains, domains_state};

    ghost Value = { DomainsState };

    ghost view = { domains_state };

    ghost invariant = { IsDomains };
}

impl Domains {
    /// No domains yet.
    pub fn open(alloc: Global, system: &System) -> Result<Domains, OutOfMemory>
        ensures { IfOk result (λ domains. domains ≡ record {
          domains = [];
          threads = [];
          services = 0;
          limit = domain_limit system.now;
        }) }
    {
        let limit = domain_limit(system);
        let mut threads = Vec::with_capacity(alloc, limit as usize)?;
        for _ in 0..limit {
            threads.push(Threads::with_room(alloc, MOST_THREADS)?)?;
        }
        Ok(Domains {
            domains: Vec::with_capacity(alloc, limit as usize)?,
            threads,
            services: 0,
            limit,
        })
    }

    /// How many domains were made.
    pub fn made(&self) -> u32
        ensures number { result ≡ length self.now.domains }
        ensures few { result ≤ 64 }
    {
        self.domains.len() as u32
    }

    /// Whether one more can be made.
    pub fn has_room(&self) -> bool
        ensures { result ≡ nat_lt (length self.now.domains) self.now.limit }
    {
        self.made() < self.limit
    }

    /// Makes a live domain, whose first thread runs, and gives its number. `None` where all that there
    /// may be were made.
    pub fn add(&mut self, template: u32, creator: DomainId, at: u32) -> Option<DomainId>
        ensures number { result ≡ (if nat_lt (length self.old.domains) self.old.limit
            then Some (record { 0 = length self.old.domains + 1 }) else None) }
        ensures after { self.new ≡ (if nat_lt (length self.old.domains) self.old.limit
            then with_domain self.old (new_domain template creator at) else self.old) }
    {
        let made = self.made();
        if made >= self.limit {
            return None;
        }
        self.domains.push_reserved(DomainState {
            template,
            creator,
            at,
            ended: None,
        });
        self.threads[made as usize].add_first();
        Some(DomainId(made + 1))
    }

    /// The domain of that number. `None` where it wasn't made.
    pub fn state(&self, domain: DomainId) -> Option<DomainState>
        ensures { result ≡ numbered self.now.domains domain.0 }
    {
        let place = domain.0.checked_sub(1)?;
        self.domains.get(place as usize).copied()
    }

    /// Ends a live domain.
    pub fn end(&mut self, domain: DomainId, reason: Reason)
        requires { IsLive self.old domain.0 }
        ensures { self.new ≡ record self.old {
          domains = changed_at (domain.0 - 1) (ended reason) self.old.domains;
        } }
    {
        self.domains[domain.0 as usize - 1].ended = Some(reason);
    }

    // The threads of a live domain.
    fn live_threads(&self, domain: DomainId) -> Option<&Threads>
        ensures threads { option_map (λ t. t.now.records) result ≡ live_threads_in self.now domain.0 }
        ensures few { IfSome result (λ t. length t.now.records ≤ 2049) }
    {
        match self.state(domain)?.ended {
            None => Some(&self.threads[domain.0 as usize - 1]),
            Some(_) => None,
        }
    }

    /// The thread of a live domain that runs. `None` where none does.
    pub fn running(&self, domain: DomainId) -> Option<ThreadId>
        ensures { option_map (λ t. t.0) result ≡ running_in self.now domain.0 }
    {
        Some(ThreadId(self.live_threads(domain)?.running()? as u32))
    }

    /// The least thread of a live domain that has yielded. `None` where none has.
    pub fn yielded(&self, domain: DomainId) -> Option<ThreadId>
        ensures { option_map (λ t. t.0) result ≡ yielded_in self.now domain.0 }
    {
        Some(ThreadId(self.live_threads(domain)?.yielded()? as u32))
    }

    /// The least thread of a live domain that is idle for the service. `None` where none is.
    pub fn idle(&self, domain: DomainId, service: ServiceId) -> Option<ThreadId>
        ensures { option_map (λ t. t.0) result ≡ idle_in self.now domain.0 service.0 }
    {
        Some(ThreadId(self.live_threads(domain)?.idle(service)? as u32))
    }

    /// The least thread of a live domain that waits for the call. `None` where none does.
    pub fn waiting(&self, domain: DomainId, call: CallId) -> Option<ThreadId>
        ensures { option_map (λ t. t.0) result ≡ waiting_in self.now domain.0 call.0 }
    {
        Some(ThreadId(self.live_threads(domain)?.waiting(call)? as u32))
    }

    /// How many threads a live domain has. 0 for one that ended or wasn't made.
    pub fn threads(&self, domain: DomainId) -> u32
        ensures { result ≡ thread_count self.now domain.0 }
    {
        match self.live_threads(domain) {
            Some(threads) => threads.len() as u32,
            None => 0,
        }
    }

    /// Adds so many idle threads of a new service to a live domain.
    pub fn serve(&mut self, domain: DomainId, service: ServiceId, threads: u8)
        requires live { IsLive self.old domain.0 }
        requires count { IsThreadCount threads }
        requires services { self.old.services < 256 }
        ensures { self.new ≡ with_idle self.old domain.0 service threads }
    {
        self.threads[domain.0 as usize - 1].add_idle(service, threads);
        self.services += 1;
    }

    // What is kept of a thread.
    fn row(&self, domain: DomainId, thread: ThreadId) -> Option<ThreadRow>
        ensures { option_map record_of result ≡ thread_in self.now domain.0 thread.0 }
    {
        let place = domain.0.checked_sub(1)?;
        self.threads.get(place as usize)?.get(thread.0)
    }

    /// What a thread does. `None` where the domain has no such thread.
    pub fn thread(&self, domain: DomainId, thread: ThreadId) -> Option<ThreadState>
        ensures { result ≡ option_map (λ r. r.state) (thread_in self.now domain.0 thread.0) }
    {
        Some(self.row(domain, thread)?.state)
    }

    /// The service of a thread. `None` where it has none, or where there is no such thread.
    pub fn service(&self, domain: DomainId, thread: ThreadId) -> Option<ServiceId>
        ensures { result ≡ option_and_then (λ r. r.service) (thread_in self.now domain.0 thread.0) }
    {
        self.row(domain, thread)?.service
    }

    /// The call that a thread serves, also while it waits or has yielded.
    pub fn serves(&self, domain: DomainId, thread: ThreadId) -> Option<CallId>
        ensures { result ≡ option_and_then (λ r. r.serves) (thread_in self.now domain.0 thread.0) }
    {
        self.row(domain, thread)?.serves
    }

    /// Puts a thread into that state. One that serves a call knows it until it is idle again.
    pub fn set_thread(&mut self, domain: DomainId, thread: ThreadId, state: ThreadState)
        requires { HasThread self.old domain.0 thread.0 }
        ensures { self.new ≡ record self.old {
          threads = own_changed domain.0 thread.0 (with_state state) self.old.threads;
        } }
    {
        self.threads[domain.0 as usize - 1].set_state(thread.0, state);
    }
}
