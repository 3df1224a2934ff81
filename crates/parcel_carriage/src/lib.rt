//! Parcels: copies of them, and what their portals and memory objects say of the tables.
#![tactic(auto)]

mod carriage;
mod changes;
mod copies;

pub use carriage::{give_objects, give_portals, holds_all, land, ride};
pub use copies::copy_parcel;
