//! The constants of a class file that is assembled: by what they say, in order of first need.
#![tactic(auto)]

mod content;
mod numbers;
mod pool;

pub use content::{Content, Reference};
pub use numbers::{four_bytes, two_bytes};
pub use pool::Pool;
