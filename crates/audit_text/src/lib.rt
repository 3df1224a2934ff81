//! The audit of a history, put by way of a page.
#![tactic(auto)]

mod audit;
mod call_tables;
mod calls;
mod console;
mod domains;
mod reasons;
mod totals;

pub use audit::render;
pub use calls::write_calls;
