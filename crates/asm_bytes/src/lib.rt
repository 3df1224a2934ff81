//! The bytes of the class file (JVMS 4) that an assembler text says.
#![tactic(auto)]

mod catches;
mod code;
mod counts;
mod file;
mod indices;
mod members;
mod methods;
mod numbers;

pub use file::file_bytes;
