//! Entries of acts on services, names and calls.
#![tactic(auto)]

mod asking;
mod calls;
mod copies;
mod portals;
mod receiving;

pub use calls::{enter_call, enter_return, enter_throw};
pub use portals::{enter_bind, enter_export, enter_lookup};
pub use receiving::{enter_resume, enter_take};
