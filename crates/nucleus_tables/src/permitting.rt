//! Whether an act may come next, and in which thread, or why not.
ghost use Rattle.std.specs.Prelude.{◌≡◌, ◌⊎◌, IfErr, IfOk, Some, false, true};
ghost use Rattle.jx_base.specs.declared.act.Act.TheVariants.{Create, Halt, Quiet};
ghost use Rattle.jx_base.specs.declared.states.Why.TheVariants.{WrongThread};
ghost use Rattle.jx_base.specs.Basics.{is_number, passes};
ghost use Rattle.jx_model.specs.Calls.{service_of_call};
ghost use Rattle.jx_model.specs.Domains.{is_live};
ghost use Rattle.jx_model.specs.Journal as Journal;
ghost use Rattle.jx_model.specs.Permits as Permits;
ghost use Rattle.jx_model.specs.Threads.{thread_state};
ghost use Rattle.jx_model.specs.WhyNot as WhyNot;
ghost use Rattle.std.specs.Option.{option_map};
ghost use Rattle.nucleus_tables.specs.Inner.{IsOf, past_in};

use crate::tables::Tables;
use jx_base::{Act, CallId, DomainId, ServiceId, System, ThreadId, ThreadState, Why};

#[tactic(auto, unfolding(jx_model::specs::Permits::is_yielded, jx_base::specs::Basics::passes))]
fn has_yielded(state: Option<ThreadState>) -> bool
    ensures { result ≡ passes Permits.is_yielded state }
{
    matches!(state, Some(ThreadState::Yielded))
}

#[tactic(auto, unfolding(jx_model::specs::Permits::is_serving, jx_base::specs::Basics::passes))]
fn serves(state: Option<ThreadState>, call: CallId) -> bool
    ensures { result ≡ passes (Permits.is_serving call.0) state }
{
    match state {
        Some(ThreadState::Serving(served)) => served.0 == call.0,
        _ => false,
    }
}

#[tactic(auto, unfolding(jx_base::specs::Basics::is_number))]
fn is_first(head: Option<CallId>, call: CallId) -> bool
    ensures { result ≡ is_number (option_map (λ c. c.0) head) call.0 }
{
    match head {
        Some(head) => head.0 == call.0,
        None => false,
    }
}

impl Tables {
    // Whether Domain Zero may create the template now.
    fn permit_create(&self, system: &System, template: u32) -> Result<(), Why>
        requires tables { IsOf system.now self.now }
        ensures may { IfOk result (λ _.
            Permits.next_boot system.now (past_in self.now) ≡ Some template) }
        ensures why { IfErr result (λ why.
            WhyNot.why_not_zero system.now (past_in self.now) (Create template) ≡ Some why) }
    {
        match self.next_boot(system) {
            None => Err(Why::Extra),
            Some(boot) => {
                if boot == template {
                    Ok(())
                } else {
                    Err(Why::Boot(boot))
                }
            }
        }
    }

    // Whether the run may end in quiet now.
    fn permit_quiet(&self, system: &System) -> Result<(), Why>
        requires tables { IsOf system.now self.now }
        ensures may { IfOk result (λ _.
            Permits.zero_may system.now (past_in self.now) Quiet ≡ true) }
        ensures why { IfErr result (λ why.
            WhyNot.why_not_zero system.now (past_in self.now) Quiet ≡ Some why) }
    {
        match (self.next_boot(system), self.first_alive(system)) {
            (Some(boot), _) => Err(Why::Boot(boot)),
            (None, Some(domain)) => Err(Why::Alive(domain)),
            (None, None) => Ok(()),
        }
    }

    // Whether the run may be halted now.
    fn permit_halt(&self, system: &System) -> Result<(), Why>
        requires tables { IsOf system.now self.now }
        ensures may { IfOk result (λ _. Journal.is_full system.now (past_in self.now) ≡ true) }
        ensures why { IfErr result (λ why.
            WhyNot.why_not_zero system.now (past_in self.now) Halt ≡ Some why) }
    {
        if self.is_full(system) {
            return Ok(());
        }
        match self.next_boot(system) {
            Some(boot) => Err(Why::Boot(boot)),
            None => Err(Why::NotFull(self.journal.words())),
        }
    }

    /// Whether Domain Zero may perform the act.
    pub fn permit_zero(&self, system: &System, act: &Act) -> Result<(), Why>
        requires tables { IsOf system.now self.now }
        requires room { (Journal.is_full system.now (past_in self.now) ≡ false)
            ⊎ (Permits.is_halt act.now ≡ true) }
        ensures may { IfOk result (λ _.
            Permits.zero_may_now system.now (past_in self.now) act.now ≡ true) }
        ensures why { IfErr result (λ why.
            WhyNot.why_not_zero system.now (past_in self.now) act.now ≡ Some why) }
    {
        match act {
            Act::Create(template) => self.permit_create(system, *template),
            Act::Quiet => self.permit_quiet(system),
            Act::Halt => self.permit_halt(system),
            _ => Err(Why::WrongActor),
        }
    }

    // Whether an idle thread of a live domain may take the call of the service.
    fn permit_take_of(
        &self,
        system: &System,
        domain: DomainId,
        call: CallId,
        service: ServiceId,
    ) -> Result<ThreadId, Why>
        requires tables { IsOf system.now self.now }
        requires live { is_live (past_in self.now) domain.0 ≡ true }
        requires service { service_of_call (past_in self.now) call.0 ≡ Some service.0 }
        ensures may { IfOk result (λ t.
            Permits.taking_thread (past_in self.now) domain.0 call.0 ≡ Some t.0) }
        ensures why { IfErr result (λ why.
            WhyNot.why_not_take (past_in self.now) domain.0 call.0 ≡ Some why) }
    {
        let _ = system;
        let head = self.calls.first(service);
        if !is_first(head, call) {
            return Err(Why::NotHead(head));
        }
        if !self.owns(domain, service) {
            return Err(Why::NotHead(head));
        }
        match self.domains.idle(domain, service) {
            Some(thread) => Ok(thread),
            None => Err(Why::NoIdle(service)),
        }
    }

    // Whether a live domain may take the call.
    fn permit_take(&self, system: &System, domain: DomainId, call: CallId) -> Result<ThreadId, Why>
        requires tables { IsOf system.now self.now }
        requires live { is_live (past_in self.now) domain.0 ≡ true }
        ensures may { IfOk result (λ t.
            Permits.taking_thread (past_in self.now) domain.0 call.0 ≡ Some t.0) }
        ensures why { IfErr result (λ why.
            WhyNot.why_not_take (past_in self.now) domain.0 call.0 ≡ Some why) }
    {
        match self.calls.call(call) {
            Some(made) => self.permit_take_of(system, domain, call, made.service),
            None => Err(Why::NotHead(None)),
        }
    }

    // The thread of a live domain that may go on after the call.
    fn resuming(&self, system: &System, domain: DomainId, call: CallId) -> Option<ThreadId>
        requires tables { IsOf system.now self.now }
        requires live { is_live (past_in self.now) domain.0 ≡ true }
        ensures { option_map (λ t. t.0) result
            ≡ Permits.resuming_thread (past_in self.now) domain.0 call.0 }
    {
        if self.is_resumable(system, call) {
            self.domains.waiting(domain, call)
        } else {
            None
        }
    }

    // Whether a live domain in which no thread runs may perform the act.
    fn permit_asleep(&self, system: &System, domain: DomainId, act: &Act) -> Result<ThreadId, Why>
        requires tables { IsOf system.now self.now }
        requires live { is_live (past_in self.now) domain.0 ≡ true }
        ensures may { IfOk result (λ t.
            Permits.choice_thread (past_in self.now) domain.0 act.now ≡ Some t.0) }
        ensures why { IfErr result (λ why.
            WhyNot.why_not_asleep (past_in self.now) domain.0 act.now ≡ Some why) }
    {
        match act {
            Act::Take(call) => self.permit_take(system, domain, *call),
            Act::Resume(call) => match self.resuming(system, domain, *call) {
                Some(thread) => Ok(thread),
                None => Err(Why::NotWaiting(*call)),
            },
            Act::Go(thread) => {
                if has_yielded(self.domains.thread(domain, *thread)) {
                    Ok(*thread)
                } else {
                    Err(Why::NotYielded(*thread))
                }
            }
            _ => Err(Why::Asleep),
        }
    }

    // Whether the running thread of a live domain serves the call, or why it may not answer it.
    fn permit_answer(
        &self,
        system: &System,
        domain: DomainId,
        thread: ThreadId,
        call: CallId,
    ) -> Result<ThreadId, Why>
        requires tables { IsOf system.now self.now }
        requires live { is_live (past_in self.now) domain.0 ≡ true }
        ensures same { IfOk result (λ t. t ≡ thread) }
        ensures may { IfOk result (λ t. passes (Permits.is_serving call.0)
            (thread_state (past_in self.now) domain.0 thread.0) ≡ true) }
        ensures wrong { IfErr result (λ why. (why ≡ WrongThread thread)
            × (passes (Permits.is_serving call.0)
            (thread_state (past_in self.now) domain.0 thread.0) ≡ false)) }
    {
        let _ = system;
        if serves(self.domains.thread(domain, thread), call) {
            Ok(thread)
        } else {
            Err(Why::WrongThread(thread))
        }
    }

    // Whether the running thread of a live domain may perform the act.
    fn permit_running(
        &self,
        system: &System,
        domain: DomainId,
        thread: ThreadId,
        act: &Act,
    ) -> Result<ThreadId, Why>
        requires tables { IsOf system.now self.now }
        requires live { is_live (past_in self.now) domain.0 ≡ true }
        requires domain { Permits.is_zero_act act.now ≡ false }
        ensures same { IfOk result (λ t. t ≡ thread) }
        ensures may { IfOk result (λ t.
            Permits.may_perform (past_in self.now) domain.0 thread.0 act.now ≡ true) }
        ensures why { IfErr result (λ why.
            WhyNot.why_not_running (past_in self.now) domain.0 thread.0 act.now ≡ Some why) }
    {
        match act {
            Act::Take(_) => Err(Why::Running(thread)),
            Act::Resume(_) => Err(Why::Running(thread)),
            Act::Go(_) => Err(Why::Running(thread)),
            Act::Return { call, .. } => self.permit_answer(system, domain, thread, *call),
            Act::Throw { call, .. } => self.permit_answer(system, domain, thread, *call),
            Act::EndThread(_) => if thread.0 == 0 {
                Ok(thread)
            } else {
                Err(Why::WrongThread(thread))
            },
            _ => Ok(thread),
        }
    }

    /// Whether a live domain may perform the act once the start is done.
    pub fn permit_domain(
        &self,
        system: &System,
        domain: DomainId,
        act: &Act,
    ) -> Result<ThreadId, Why>
        requires tables { IsOf system.now self.now }
        requires live { is_live (past_in self.now) domain.0 ≡ true }
        requires domain { Permits.is_zero_act act.now ≡ false }
        ensures may { IfOk result (λ t.
            Permits.domain_thread (past_in self.now) domain.0 act.now ≡ Some t.0) }
        ensures why { IfErr result (λ why.
            WhyNot.why_not_domain (past_in self.now) domain.0 act.now ≡ Some why) }
    {
        match self.domains.running(domain) {
            Some(thread) => self.permit_running(system, domain, thread, act),
            None => self.permit_asleep(system, domain, act),
        }
    }
}
