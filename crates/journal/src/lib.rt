//! The journal: the entries of a run, and the words that they cost.
#![tactic(auto)]

mod journal;
mod words;

pub use journal::Journal;
pub use words::entry_words;
