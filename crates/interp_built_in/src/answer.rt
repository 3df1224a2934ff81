//! What a built-in method comes to.

use jx_base::{Act, ClassId, Value};

/// What a built-in method comes to. Only `Gives` may leave the heap changed.
#[derive(Drop)]
pub enum BuiltInAnswer {
    /// A result, none of a method without one.
    Gives(Option<Value>),
    /// An act that the nucleus performs, whose reply is the result.
    Performs(Act),
    /// A new exception of that class.
    Raises(ClassId),
    /// Object 0 is thrown, since a new String has no room.
    HasNoRoom,
    /// It was passed values that no linked call passes.
    Unfit,
}
