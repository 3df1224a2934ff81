//! A table of calls in which each step is asked before it is done.
ghost use Rattle.std.specs.Prelude.{◌≡◌, true, IsSome};
ghost use Rattle.call_table.specs.CallLists.{IsAnswered, IsPending};

use call_table::Calls;
use jx_base::{AnswerKind, CallId, CallState, DomainId, OutOfMemory, ServiceId, ThreadId};
use std::alloc::Global;

/// The calls, with how many there may be.
#[derive(Drop)]
pub struct Desk {
    calls: Calls,
    limit: u32,
    ghost room: { calls.limit ≡ limit },
}

fn is_pending(calls: &Calls, call: CallId) -> bool
    ensures { result ≡ true → IsPending calls.now call.0 }
{
    match calls.call(call) {
        Some(found) => match found.state {
            CallState::Queued | CallState::Running => true,
            _ => false,
        },
        None => false,
    }
}

fn is_answered(calls: &Calls, call: CallId) -> bool
    ensures { result ≡ true → IsAnswered calls.now call.0 }
{
    match calls.call(call) {
        Some(found) => match found.state {
            CallState::Answered(_) => true,
            _ => false,
        },
        None => false,
    }
}

impl Desk {
    pub fn open(alloc: Global, limit: u32) -> Result<Desk, OutOfMemory> {
        Ok(Desk {
            calls: Calls::open(alloc, limit)?,
            limit,
        })
    }

    /// Queues a call of the service, where there is room and that may be one.
    pub fn queue(&mut self, service: u32) -> Option<u32> {
        if service == 0 || service > 256 || self.calls.made() >= self.limit {
            return None;
        }
        let caller = DomainId(1);
        let call = self.calls.queue(caller, ThreadId(0), ServiceId(service));
        Some(call.0)
    }

    pub fn first(&self, service: u32) -> Option<u32> {
        Some(self.calls.first(ServiceId(service))?.0)
    }

    /// Takes the first call of the service, where there is one.
    pub fn take(&mut self, service: u32) -> Option<u32> {
        if self.calls.first(ServiceId(service)).is_none() {
            return None;
        }
        Some(self.calls.take(ServiceId(service)).0)
    }

    /// Answers the call, where it waits for that.
    pub fn answer(&mut self, call: u32, kind: AnswerKind) -> Option<u32> {
        if !is_pending(&self.calls, CallId(call)) {
            return None;
        }
        self.calls.answer(CallId(call), kind);
        Some(call)
    }

    /// Resumes the caller, where the call was answered.
    pub fn resume(&mut self, call: u32) -> Option<u32> {
        if !is_answered(&self.calls, CallId(call)) {
            return None;
        }
        self.calls.resume(CallId(call));
        Some(call)
    }

    pub fn end_service(&mut self, service: u32) {
        self.calls.end_service(ServiceId(service));
    }

    pub fn made(&self) -> u32 {
        self.calls.made()
    }

    /// Where the call of that number stands.
    pub fn state(&self, call: u32) -> Option<CallState> {
        Some(self.calls.call(CallId(call))?.state)
    }
}
