//! Flags of domains.
#![tactic(auto)]

mod flags;

pub use flags::DomainFlags;
