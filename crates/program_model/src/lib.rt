//! What a linked program is and means, as definitions, and a law of parcels.
#![tactic(auto)]

mod laws;

pub use laws::walks_end;
