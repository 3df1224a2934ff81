//! The linked system of a plan and its class files, and the first fault of those that link to none.
#![tactic(auto)]

mod fault;
mod uses;

pub use fault::{LinkFault, LinkKind};
pub use uses::{Use, Used};
