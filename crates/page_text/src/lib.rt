//! Printing by way of a page: numbers, quoted texts and lines of words.
#![tactic(auto)]

mod page;
mod pieces;

pub use page::{Page, put_bytes};
pub use pieces::{Piece, put_line, write_behind, write_line, write_units, write_words};
