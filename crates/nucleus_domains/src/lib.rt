//! Entries that make and end domains, and those of acts that change no table or their thread alone.
#![tactic(auto)]

mod birth;
mod ends;
mod entering;

pub use birth::enter_create;
pub use ends::enter_end;
pub use entering::{enter_ending, enter_plain, enter_thread};
