//! What a domain does next.

use jx_base::{Act, Reason};

/// What a domain does next: an act, nothing, since no thread runs, or its own end.
#[derive(Drop)]
pub enum Next {
    Act(Act),
    Idle,
    End(Reason),
}
