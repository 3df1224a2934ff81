//! The bytes of memory objects.
#![tactic(auto)]

mod bytes;
mod extents;
mod numbers;
mod runs;

pub use bytes::Bytes;
