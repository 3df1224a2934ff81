//! The laws of admitted histories.
#![tactic(auto)]

mod laws;

pub use laws::{law_1, law_2, law_3, law_4, law_5, law_6};
