//! What an instruction on objects comes to.

use jx_base::{Act, ClassId, Value};

/// What became of an instruction on objects. `Raise` has the class of an exception that the machine
/// makes, `Raised` an object that is thrown; `Ask` waits for a reply, and after `Finish` no frame is
/// left.
#[derive(Drop)]
pub enum ObjStep {
    /// The instruction at the running frame's pc follows.
    Next,
    /// An exception of that class is thrown.
    Raise(ClassId),
    /// That object is thrown.
    Raised(u32),
    /// The system is asked for the act.
    Ask(Act),
    /// The thread's last frame returned.
    Finish(Option<Value>),
    /// The code breaks the rules.
    BadCode,
    /// The instruction is none on objects.
    NotMine,
}
