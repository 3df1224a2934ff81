//! Lines and words of an assembler text, and the numbers, flags and texts that words are.
#![tactic(auto)]

mod laws;
mod numbers;
mod quotes;
mod units;
mod words;

pub use laws::one_reading;
pub use numbers::{flags, number};
pub use quotes::unquoted;
pub use units::units_of;
pub use words::{Position, is_text, lines_of, words_of};
