//! What a domain has at the start.
#![tactic(auto)]

mod arguments;
mod classes;
mod cores;
mod found;
mod groups;
mod methods;
mod selectors;

pub use arguments::start_arguments;
pub use cores::first_core;
pub use methods::first_methods;
