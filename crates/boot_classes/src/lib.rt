//! The built-in classes.
#![tactic(auto)]

mod classes;
mod methods;
mod places;
mod shapes;
mod throwables;

pub use classes::boot;
