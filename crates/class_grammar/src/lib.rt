//! The grammars of class files and of code, their laws, and the reading of their smallest parts.
#![tactic(auto)]

mod big_endian;
mod constants;
mod flags;

pub use big_endian::{Front, bytes_at, place, u8_at, u16_at, u32_at, u64_at};
pub use constants::{names_class, names_member, names_text, text_at};
pub use flags::{is_abstract, is_interface_flag, is_native, is_static, is_synchronized};
