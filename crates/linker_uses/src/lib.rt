//! The faults of what code uses constants as, and what constants mean.
#![tactic(auto)]

mod abstract_uses;
mod constants;
mod file_uses;
mod fitting;
mod known_classes;
mod late_faults;
mod members;
mod systems;
mod use_faults;

pub use constants::meanings_of;
pub use late_faults::{first_late_fault, first_use_fault, template_use_fault};
pub use systems::linked_system;
