//! The nucleus: a history that grows entry by entry, each permitted and with the reply that those
//! before it give.
#![tactic(auto)]

mod nucleus;
mod stepping;

pub use nucleus::Nucleus;
pub use nucleus_tables::{Ending, Step};
