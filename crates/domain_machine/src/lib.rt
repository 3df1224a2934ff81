//! The machine of a domain.
#![tactic(auto)]

mod advancing;
mod entries;
mod fate;
mod held;
mod machine;
mod next;
mod running;
mod settling;
mod starting;
mod threads;
mod working;

pub use machine::Machine;
pub use next::Next;
