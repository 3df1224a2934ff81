//! The lines of entries in an audit, put by way of a page.
#![tactic(auto)]

mod acts;
mod entries;
mod memory_acts;
mod names;
mod parcels;
mod replies;
mod words;

pub use entries::write_entries;
pub use names::template_name;
