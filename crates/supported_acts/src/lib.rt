//! Which acts have code by now. All of this goes, whole, once each act has it.
#![tactic(auto)]

mod supported;

pub use supported::is_supported;
