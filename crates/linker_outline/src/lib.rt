//! The outline of a linked system: its classes, methods and selectors, without what the constants
//! mean.
#![tactic(auto)]

mod all_classes;
mod arrays;
mod classes;
mod code_arrays;
mod fields;
mod file_arrays;
mod method_selectors;
mod methods;
mod names;
mod parts;
mod selectors;
mod whole;

pub use all_classes::linked_classes;
pub use arrays::add_arrays_of;
pub use classes::{array_class, class_of_file};
pub use code_arrays::{add_arrays_of_code, add_arrays_of_instr};
pub use file_arrays::array_names;
pub use method_selectors::all_selectors;
pub use methods::all_methods;
pub use names::{Names, Units};
pub use parts::Parts;
pub use selectors::Selectors;
pub use whole::outline;
