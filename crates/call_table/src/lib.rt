//! The calls, and who waits for which service.
#![tactic(auto)]

mod calls;
mod links;
mod queues;

pub use calls::{Call, Calls};
