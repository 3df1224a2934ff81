//! The methods of interfaces that services have.
#![tactic(auto)]

mod methods;

pub use methods::has_method;
