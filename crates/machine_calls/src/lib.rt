//! Calls between domains: a call that is taken, its answer, and how a thread's code ends.
#![tactic(auto)]

mod ending;
mod resuming;
mod selected;
mod taking;
mod unpacked;

pub use ending::ending_act;
pub use resuming::resume;
pub use taking::take_call;
