//! How far a thread has come.

use jx_base::Value;

/// What a thread has come to.
#[derive(Clone, Copy)]
pub enum Stage {
    /// It goes on in its frames, or is idle.
    Going,
    /// Its last frame returned.
    Returned(Option<Value>),
    /// No frame of it catches the object.
    Threw(u32),
    /// Its code breaks the rules.
    Bad,
}
