//! States of domains, threads and calls, and why an act may not come.

use crate::act::Reason;
use crate::ids::{CallId, ClassId, DomainId, ServiceId, ThreadId};

/// What a thread of a domain does.
#[derive(Clone, Copy)]
pub enum ThreadState {
    Running,
    Waiting(CallId),
    Yielded,
    Idle(ServiceId),
    Serving(CallId),
    Over,
}

/// A domain that was made. `template` is a place in the plan, `at` the first granule of the heap;
/// `ended` is `None` while the domain is live.
#[derive(Clone, Copy)]
pub struct DomainState {
    pub template: u32,
    pub creator: DomainId,
    pub at: u32,
    pub ended: Option<Reason>,
}

/// How a call was answered.
#[derive(Clone, Copy)]
pub enum AnswerKind {
    Value,
    Thrown,
    CopyFailed,
    Ended,
    Discarded,
}

/// Where a call stands.
#[derive(Clone, Copy)]
pub enum CallState {
    Queued,
    Running,
    Answered(AnswerKind),
    Resumed,
}

/// An exported object of a domain, by its place in the domain's list of objects.
#[derive(Clone, Copy)]
pub struct Exported {
    pub object: u32,
    pub service: ServiceId,
    pub iface: ClassId,
}

/// Why an act may not come now. `Boot` has the place of the template that is created next,
/// `NotFull` the words of the history.
#[derive(Clone, Copy)]
pub enum Why {
    WrongActor,
    Boot(u32),
    Extra,
    NotFull(u32),
    Alive(DomainId),
    Running(ThreadId),
    Asleep,
    NotHead(Option<CallId>),
    NoIdle(ServiceId),
    NotWaiting(CallId),
    NotYielded(ThreadId),
    WrongThread(ThreadId),
}
