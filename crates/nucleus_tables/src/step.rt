//! What a step of the nucleus answers.

use jx_base::{DomainId, Reason, Reply, ThreadId, Why};

/// What has ended: a domain, and why, or the whole run.
#[derive(Clone, Copy)]
pub enum Ending {
    Domain(Reason),
    Run,
}

/// What a step answers. `Replied` and `Born` carry the thread and the reply of the entry that was
/// made, `Born` the domain that it made too; `Full` the words of the history, `Busy` the pass that
/// has lent the bytes. After all but `Replied` and `Born` nothing has changed.
#[derive(Drop)]
pub enum Step {
    Replied(ThreadId, Reply),
    Born(ThreadId, Reply, DomainId),
    Over(Ending),
    Full(u32),
    NotNow(Why),
    Busy(u32),
    OutOfMemory,
}
