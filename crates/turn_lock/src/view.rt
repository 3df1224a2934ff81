//! What the lock's rule knows of each pass. No value of these types is made.

use jx_base::{Entry, System};
use std::collections::LinkedList;

/// Where a pass stands in the queue. The number is that of its ticket, counted from 0 without end.
pub enum Stage {
    Idle,
    Waiting(u64),
    /// It has the turn, and the slot is out with it.
    Served(u64),
    /// It has the turn and the value, and the slot is back, empty.
    Holding(u64),
}

/// What a pass has seen and made.
pub struct Page {
    pub system: System,
    pub domain: u32,
    pub seen: LinkedList<Entry>,
    pub made: LinkedList<Entry>,
    /// Whether a pass was split from this one since its last entry.
    pub parted: bool,
    /// Whether the pass was joined into another one, and is gone.
    pub spent: bool,
    /// What was seen before the last join, and what the other pass of that join had seen and made.
    pub seen_before: LinkedList<Entry>,
    pub other_seen: LinkedList<Entry>,
    pub other_domain: u32,
    pub other_made: LinkedList<Entry>,
}

/// A pass, as the rule knows it. `turns` is how often it was served.
pub struct View {
    pub page: Page,
    pub turns: u64,
    pub stage: Stage,
}
