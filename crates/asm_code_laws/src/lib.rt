//! Laws of the code that is assembled.
#![tactic(auto)]

mod laws;

pub use laws::assembled_code;
