//! Texts of class files: modified UTF-8, and descriptors (JVMS 4.3, 4.4.7).
#![tactic(auto)]

mod descriptors;
mod utf8;

pub use descriptors::{argument_slots, is_field_descriptor, is_floating_field, is_floating_method};
pub use utf8::{utf8_length, utf8_read, utf8_write};
