//! What code uses constants as.

use jx_base::Invocation;

/// What a constant is used as: an Integer or a String, a Long, a static field or one of an instance,
/// a method, a class to be made, a class, or an array class of so many dimensions.
#[derive(Clone, Copy)]
pub enum Use {
    AsWord,
    AsLong,
    AsField(bool),
    AsMethod(Invocation),
    AsNew,
    AsClass,
    AsArray(u32),
}

/// A use of the constant at an index.
#[derive(Clone, Copy)]
pub struct Used {
    pub use_of: Use,
    pub index: u32,
}
