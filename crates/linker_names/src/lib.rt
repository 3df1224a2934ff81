//! What a class file names, and what its code uses its constants as.
#![tactic(auto)]

mod members;
mod names;
mod read_class;
mod uses;

pub use members::{class_of_constant, member_of_constant};
pub use names::{
    NameAndType, class_name_in, constant_in, selector_in, super_name, text_in, this_name,
};
pub use read_class::ReadClass;
pub use uses::{catch_use, index_operand, use_by, used_by};
