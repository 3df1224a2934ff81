//! The pool that gives granules of machine memory, first fit.
#![tactic(auto)]

mod heaps;
mod hole;
mod pool;

pub use heaps::heap_granules;
pub use hole::Hole;
pub use pool::Pool;
