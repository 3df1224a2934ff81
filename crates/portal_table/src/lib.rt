//! The services, who holds portals to them, and the names that they are bound to.
#![tactic(auto)]

mod names;
mod services;

pub use services::Services;
