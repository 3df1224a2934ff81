//! Reads class files.
#![tactic(auto)]

mod class;
mod code;
mod constants;
mod error;
mod laws;
mod members;
mod names;
mod pool;

pub use class::read_class;
pub use class_texts::{utf8_read, utf8_write};
pub use error::ReadFault;
pub use laws::one_reading;
