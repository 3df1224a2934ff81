//! A ticket lock round a value that lists what was done. Its list only grows, and each pass knows
//! what it has seen of it.
#![tactic(auto)]

mod rule;
mod turn;
mod view;

pub use turn::{Pass, Turn};
