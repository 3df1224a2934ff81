//! Reads the description of a system.
#![tactic(auto)]

mod class_faults;
mod domain_faults;
mod fault;
mod laws;
mod plan_faults;
mod plans;
mod read;
mod text_sets;
mod texts;
mod unknown_keys;
mod value_faults;
mod values;

pub use fault::{PlanError, PlanFault};
pub use laws::{one_class_is_in_range, plan_is_in_range};
pub use read::{one_class, read_system};
