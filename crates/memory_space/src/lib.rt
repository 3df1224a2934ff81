//! Memory: the objects, the bytes of their extents, and the machine's granules.
#![tactic(auto)]

mod cells;
mod extents;
mod numbers;
mod rows;
mod space;

pub use space::Space;
