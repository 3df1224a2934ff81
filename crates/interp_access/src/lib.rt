//! The instructions that read, write and make objects.
#![tactic(auto)]

mod array_names;
mod arrays;
mod classes;
mod constants;
mod fields;
mod leaving;
mod nested;
mod statics;
mod taking;

pub use arrays::{length_row, load_row, new_array_row, new_reference_array_row, store_row};
pub use classes::{check_row, class_row, instance_row, new_row, throw_row};
pub use constants::constant_row;
pub use fields::{get_field_row, put_field_row};
pub use nested::multi_array_row;
pub use statics::{get_static_row, put_static_row};
