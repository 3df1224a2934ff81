//! The heap of a domain.
#![tactic(auto)]

mod heap;

pub use heap::Heap;
