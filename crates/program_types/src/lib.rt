//! Types of a linked system, and which values fit them.
#![tactic(auto)]

mod built_in;
mod classes;
mod shapes;
mod signatures;
mod types;

pub use built_in::{
    ARITHMETIC_EXCEPTION, ARRAY_INDEX_EXCEPTION, ARRAY_STORE_EXCEPTION, BUILDER, BUILT_IN_COUNT,
    CLASS_CAST_EXCEPTION, COPY_EXCEPTION, MEMORY, NEGATIVE_SIZE_EXCEPTION, NULL_POINTER_EXCEPTION,
    PORTAL, RANGE_EXCEPTION, STACK_OVERFLOW_ERROR, STRING, STRING_INDEX_EXCEPTION, THROWABLE, ZERO,
};
pub use classes::{class_named, class_of_type, fits_type, is_below, is_interface, knows_class};
pub use shapes::{Shape, shape_fits, shape_fits_class};
pub use signatures::{Parameters, parameter_count, result_type};
pub use types::{
    CHAR, cut_to_type, element_type, is_int_type, is_long_type, is_primitive_type,
    is_reference_type, is_void, lies_in_type,
};
