//! The table of calls.
ghost use Rattle.std.specs.Prelude.{◌≡◌, ◌+◌, ◌++◌, ◌∷◌, ◌<◌, ◌-◌, [], true, false, Some, IfNone, IfOk, IfSome, IsSome, IsSomeAnd, length, map, option_map};
ghost use Rattle.std.specs.List.{list_any};
ghost use Rattle.std.specs.Option.{option_map};
ghost use Rattle.call_table.specs.CallLists.{IsAnswered, IsPending, IsService};
ghost use Rattle.call_table.specs.CallLists.{ended_for, first_queued, in_state, is_pending_for, new_call};
ghost use Rattle.jx_base.specs.declared.states.CallState.TheVariants.{Answered, Resumed, Running};
ghost use Rattle.jx_base.specs.Basics.{numbered};
ghost use Rattle.table_threads.specs.Changes.{changed_at};

use crate::queues::Queues;
use jx_base::{AnswerKind, CallId, CallState, DomainId, OutOfMemory, ServiceId, ThreadId};
use std::alloc::Global;
use std::marker::Model;

// A queue for each number of a service, up to 256. Services are numbered from 1, so that of 0 stays
// empty.
const QUEUES: u32 = 257;

/// A call: who made it in which thread, its service, and where it stands.
#[derive(Clone, Copy)]
pub struct Call {
    pub caller: DomainId,
    pub thread: ThreadId,
    pub service: ServiceId,
    pub state: CallState,
}

/// The calls by their numbers, from 1. Only `open` takes memory.
#[derive(Drop)]
pub struct Calls {
    calls: Vec<Call>,
    queued: Queues,
    running: Queues,
    limit: u32,
}

impl Model for Calls {
    ghost use Rattle.call_table.specs.CallLists.{CallsState};
    ghost use Rattle.call_table.specs.Inner.{IsCalls, calls_state};

    ghost Value = { CallsState };

    ghost view = { calls_state };

    ghost invariant = { IsCalls };
}

impl Calls {
    /// No calls yet, with room for so many.
    pub fn open(alloc: Global, limit: u32) -> Result<Calls, OutOfMemory>
        ensures { IfOk result (λ calls. calls ≡ record { calls = []; limit = limit }) }
    {
        Ok(Calls {
            calls: Vec::with_capacity(alloc, limit as usize)?,
            queued: Queues::open(alloc, QUEUES, limit)?,
            running: Queues::open(alloc, QUEUES, limit)?,
            limit,
        })
    }

    /// How many calls were made.
    pub fn made(&self) -> u32
        ensures { result ≡ length self.now.calls }
    {
        self.calls.len() as u32
    }

    /// Makes a call, behind the others of its service, and gives its number.
    pub fn queue(&mut self, caller: DomainId, thread: ThreadId, service: ServiceId) -> CallId
        requires room { length self.old.calls < self.old.limit }
        requires service { IsService service.0 }
        ensures number { result.0 ≡ length self.old.calls + 1 }
        ensures after { self.new ≡ record self.old {
          calls = self.old.calls ++ new_call caller thread service ∷ [];
        } }
    {
        let place = self.calls.len() as u32;
        self.calls.push_reserved(Call {
            caller,
            thread,
            service,
            state: CallState::Queued,
        });
        self.queued.push(service.0, place);
        CallId(place + 1)
    }

    /// The first call in the queue of a service. `None` where the queue is empty.
    pub fn first(&self, service: ServiceId) -> Option<CallId>
        ensures { option_map (λ c. c.0) result ≡ first_queued self.now service.0 }
    {
        Some(CallId(self.queued.first(service.0)? + 1))
    }

    /// Takes the first call out of the queue of a service, and runs it.
    pub fn take(&mut self, service: ServiceId) -> CallId
        requires { IsSome (first_queued self.old service.0) }
        ensures number { Some result.0 ≡ first_queued self.old service.0 }
        ensures after { self.new ≡ record self.old {
          calls = changed_at (result.0 - 1) (in_state Running) self.old.calls;
        } }
    {
        let place = self.queued.first(service.0).unwrap();
        self.queued.remove(service.0, place);
        self.running.push(service.0, place);
        self.calls[place as usize].state = CallState::Running;
        CallId(place + 1)
    }

    /// Answers a call that is queued or runs.
    pub fn answer(&mut self, call: CallId, kind: AnswerKind)
        requires { IsPending self.old call.0 }
        ensures { self.new ≡ record self.old {
          calls = changed_at (call.0 - 1) (in_state (Answered kind)) self.old.calls;
        } }
    {
        let place = call.0 - 1;
        let Call { service, state, .. } = self.calls[place as usize];
        self.calls[place as usize].state = CallState::Answered(kind);
        match state {
            CallState::Queued => self.queued.remove(service.0, place),
            _ => self.running.remove(service.0, place),
        }
    }

    /// Notes that the caller goes on after an answered call.
    pub fn resume(&mut self, call: CallId)
        requires { IsAnswered self.old call.0 }
        ensures { self.new ≡ record self.old {
          calls = changed_at (call.0 - 1) (in_state Resumed) self.old.calls;
        } }
    {
        self.calls[call.0 as usize - 1].state = CallState::Resumed;
    }

    /// The call of that number. `None` where it wasn't made.
    pub fn call(&self, call: CallId) -> Option<Call>
        ensures { result ≡ numbered self.now.calls call.0 }
    {
        let place = call.0.checked_sub(1)?;
        self.calls.get(place as usize).copied()
    }

    /// Where a call stands.
    pub fn state(&self, call: CallId) -> CallState
        requires { IsSome (numbered self.now.calls call.0) }
        ensures { Some result ≡ option_map (λ c. c.state) (numbered self.now.calls call.0) }
    {
        self.calls[call.0 as usize - 1].state
    }

    // A call that the service owes an answer. `None` where it owes none.
    fn first_pending(&self, service: ServiceId) -> Option<CallId>
        ensures found { IfSome result (λ c.
            IsSomeAnd (numbered self.now.calls c.0) (λ x. is_pending_for service.0 x ≡ true)) }
        ensures none { IfNone result (list_any (is_pending_for service.0) self.now.calls ≡ false) }
    {
        let running = self.running.first(service.0);
        let place = self.queued.first(service.0).or(running)?;
        Some(CallId(place + 1))
    }

    /// Answers each call that is queued for the service or runs in it: the service ended.
    pub fn end_service(&mut self, service: ServiceId)
        ensures { self.new ≡ record self.old {
          calls = map (ended_for service.0) self.old.calls;
        } }
    {
        while let Some(call) = self.first_pending(service) {
            self.answer(call, AnswerKind::Ended);
        }
    }
}
