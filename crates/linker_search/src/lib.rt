//! The outline of a linked system, in which classes and their members are found at once.
#![tactic(auto)]

mod fields;
mod instances;
mod methods;
mod names;
mod outline;
mod places;
mod statics;
mod supers;
mod walk;

pub use outline::Outline;
