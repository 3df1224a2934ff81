//! What is kept of a thread.
ghost use Rattle.std.specs.Prelude.{◌≡◌};
ghost use Rattle.domain_table.specs.DomainLists.{record_of, with_state};
ghost use Rattle.jx_model.specs.Permits as Permits;
ghost use Rattle.jx_model.specs.Threads as Spec;
ghost use Rattle.table_threads.specs.ThreadChanges.{idle_record};

use jx_base::{CallId, ServiceId, ThreadState};

/// The service of a thread, what it does, and the call that it serves, also while it waits or has
/// yielded. Thread 0 has no service.
#[derive(Clone, Copy)]
pub struct ThreadRow {
    pub service: Option<ServiceId>,
    pub state: ThreadState,
    pub serves: Option<CallId>,
}

impl ThreadRow {
    /// A thread of a service that serves no call.
    pub fn idle(service: ServiceId) -> ThreadRow
        ensures { record_of result ≡ idle_record service }
    {
        ThreadRow {
            service: Some(service),
            state: ThreadState::Idle(service),
            serves: None,
        }
    }

    /// The thread in that state: one that serves a call knows it until it is idle again.
    pub fn with_state(self, state: ThreadState) -> ThreadRow
        ensures { record_of result ≡ with_state state (record_of self) }
    {
        ThreadRow {
            service: self.service,
            state,
            serves: match state {
                ThreadState::Serving(call) => Some(call),
                ThreadState::Idle(_) => None,
                _ => self.serves,
            },
        }
    }

    #[tactic(auto, unfolding(jx_model::specs::Threads::is_running_state))]
    pub fn is_running(&self) -> bool
        ensures { result ≡ Spec.is_running_state self.now.state }
    {
        match self.state {
            ThreadState::Running | ThreadState::Serving(_) => true,
            _ => false,
        }
    }

    #[tactic(auto, unfolding(jx_model::specs::Permits::is_yielded))]
    pub fn has_yielded(&self) -> bool
        ensures { result ≡ Permits.is_yielded self.now.state }
    {
        matches!(self.state, ThreadState::Yielded)
    }

    #[tactic(auto, unfolding(jx_model::specs::Permits::is_idle_for))]
    pub fn is_idle_for(&self, service: ServiceId) -> bool
        ensures { result ≡ Permits.is_idle_for service.0 self.now.state }
    {
        match self.state {
            ThreadState::Idle(idle) => idle.0 == service.0,
            _ => false,
        }
    }

    #[tactic(auto, unfolding(jx_model::specs::Permits::is_waiting_for))]
    pub fn waits_for(&self, call: CallId) -> bool
        ensures { result ≡ Permits.is_waiting_for call.0 self.now.state }
    {
        match self.state {
            ThreadState::Waiting(awaited) => awaited.0 == call.0,
            _ => false,
        }
    }
}
