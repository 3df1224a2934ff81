//! The choices of a domain.
ghost use Rattle.std.specs.Prelude.{◌≡◌, Some, true};
ghost use Rattle.jx_base.specs.Basics.{first_some};
ghost use Rattle.jx_base.specs.declared.act.Act.TheVariants.{Go};
ghost use Rattle.domain_table.specs.DomainLists.{yielded_in};
ghost use Rattle.jx_model.specs.Calls as Calls;
ghost use Rattle.jx_model.specs.Domains.{is_live};
ghost use Rattle.jx_model.specs.Permits as Permits;
ghost use Rattle.jx_model.specs.Threads.{service_threads, threads_of};
ghost use Rattle.std.specs.Option.{option_map};
ghost use Rattle.nucleus_tables.specs.Inner.{IsOf, past_in};
ghost use Rattle.table_reads.specs.TableReads.{is_answered, lives_in};

use crate::tables::Tables;
use jx_base::{Act, CallId, CallState, DomainId, ServiceId, System, ThreadId, ThreadState};

fn is_answered(state: CallState) -> bool
    ensures { result ≡ is_answered state }
{
    matches!(state, CallState::Answered(_))
}

impl Tables {
    /// Whether the domain was made and has not ended.
    pub fn lives(&self, domain: DomainId) -> bool
        ensures { result ≡ lives_in self.now.domains.domains domain.0 }
    {
        match self.domains.state(domain) {
            Some(state) => state.ended.is_none(),
            None => false,
        }
    }

    /// Whether the caller of the call can go on: it lives, and has an answer that it hasn't got yet.
    pub fn is_resumable(&self, system: &System, call: CallId) -> bool
        requires { IsOf system.now self.now }
        ensures { result ≡ Calls.is_resumable (past_in self.now) call.0 }
    {
        let _ = system;
        match self.calls.call(call) {
            Some(call) => is_answered(call.state) && self.lives(call.caller),
            None => false,
        }
    }

    // The resume of a thread that does this.
    #[tactic(auto, unfolding(jx_model::specs::Permits::resume_in))]
    fn resume_in(&self, system: &System, state: ThreadState) -> Option<Act>
        requires { IsOf system.now self.now }
        ensures { result ≡ Permits.resume_in (past_in self.now) state }
    {
        match state {
            ThreadState::Waiting(call) => if self.is_resumable(system, call) {
                Some(Act::Resume(call))
            } else {
                None
            },
            _ => None,
        }
    }

    // The resume of a thread of a live domain.
    fn resume_of(&self, system: &System, domain: DomainId, thread: ThreadId) -> Option<Act>
        requires tables { IsOf system.now self.now }
        requires live { is_live (past_in self.now) domain.0 ≡ true }
        ensures { result ≡ Permits.resume_at (past_in self.now) domain.0 thread.0 }
    {
        let state = self.domains.thread(domain, thread)?;
        self.resume_in(system, state)
    }

    // The first resume of a live domain.
    fn first_resume(&self, system: &System, domain: DomainId) -> Option<Act>
        requires tables { IsOf system.now self.now }
        requires live { is_live (past_in self.now) domain.0 ≡ true }
        ensures { result ≡ first_some (Permits.resume_at (past_in self.now) domain.0)
            (threads_of (past_in self.now) domain.0) }
    {
        for number in 0..self.domains.threads(domain) {
            if let Some(act) = self.resume_of(system, domain, ThreadId(number)) {
                return Some(act);
            }
        }
        None
    }

    // The take of a service's first call, where a thread of the live domain is idle for it.
    fn take_of(&self, system: &System, domain: DomainId, service: ServiceId) -> Option<Act>
        requires tables { IsOf system.now self.now }
        requires live { is_live (past_in self.now) domain.0 ≡ true }
        ensures { result ≡ Permits.take_at (past_in self.now) domain.0 service.0 }
    {
        let _ = system;
        match self.domains.idle(domain, service) {
            Some(_) => Some(Act::Take(self.calls.first(service)?)),
            None => None,
        }
    }

    // The first take of a live domain.
    fn first_take(&self, system: &System, domain: DomainId) -> Option<Act>
        requires tables { IsOf system.now self.now }
        requires live { is_live (past_in self.now) domain.0 ≡ true }
        ensures { result ≡ first_some (λ k. Permits.take_at (past_in self.now) domain.0 k.0)
            (service_threads (past_in self.now) domain.0) }
    {
        for number in 1..self.domains.threads(domain) {
            let service = self.domains.service(domain, ThreadId(number)).unwrap();
            if let Some(act) = self.take_of(system, domain, service) {
                return Some(act);
            }
        }
        None
    }

    // The first go of a live domain.
    fn first_go(&self, system: &System, domain: DomainId) -> Option<Act>
        requires tables { IsOf system.now self.now }
        requires live { is_live (past_in self.now) domain.0 ≡ true }
        ensures { result ≡ first_some (Permits.go_at (past_in self.now) domain.0)
            (threads_of (past_in self.now) domain.0) }
    {
        let _ = system;
        Some(Act::Go(self.domains.yielded(domain)?))
    }

    // The first choice of a live domain in which no thread runs.
    fn first_of_choices(&self, system: &System, domain: DomainId) -> Option<Act>
        requires tables { IsOf system.now self.now }
        requires live { is_live (past_in self.now) domain.0 ≡ true }
        ensures { result ≡ Permits.first_of_choices (past_in self.now) domain.0 }
    {
        if let Some(act) = self.first_resume(system, domain) {
            return Some(act);
        }
        match self.first_take(system, domain) {
            Some(act) => Some(act),
            None => self.first_go(system, domain),
        }
    }

    /// The first choice of a domain: resumes come before takes, takes before goes.
    pub fn choice(&self, system: &System, domain: DomainId) -> Option<Act>
        requires { IsOf system.now self.now }
        ensures { result ≡ Permits.first_choice (past_in self.now) domain.0 }
    {
        match self.domains.running(domain) {
            Some(_) => None,
            None => if self.lives(domain) {
                self.first_of_choices(system, domain)
            } else {
                None
            },
        }
    }
}
