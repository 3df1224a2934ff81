//! The domains that were made, and their threads.
#![tactic(auto)]

mod domains;
mod limits;
mod rows;
mod threads;

pub use domains::Domains;
