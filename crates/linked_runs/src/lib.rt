//! A linked system has the instructions that its code reads, and its domains can be run.
#![tactic(auto)]

mod laws;

pub use laws::{linked_can_run, linked_is_listed};
