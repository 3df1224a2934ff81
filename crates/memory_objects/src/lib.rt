//! The memory objects: their parts of extents, who holds them, and how many calls carry them.
#![tactic(auto)]

mod objects;
mod ranges;
mod records;
mod rows;

pub use objects::Objects;
