//! Computed cases of the definitions.
#![tactic(auto)]

mod laws;

pub use laws::first_system_prints;
