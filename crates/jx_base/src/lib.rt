//! The types of the nucleus, of linked programs and of class files, and the traits of the outside.
#![tactic(auto)]

mod act;
mod chronicle;
mod class_file;
mod class_name;
mod constant_tag;
mod error;
mod fault;
mod frame;
mod gate;
mod ids;
mod listed;
mod program;
mod row;
mod shelf;
mod sink;
mod states;
mod value;

pub use act::{Act, Entry, History, Reason, Refusal, Reply};
pub use chronicle::Chronicle;
pub use class_file::{ClassFile, Code, Constant, Instr, Member, Range};
pub use class_name::is_class_name;
pub use constant_tag::ConstantTag;
pub use error::Error;
pub use fault::{ClassFault, ClassKind, CodeFault, CodeKind};
pub use frame::{Frame, Locals, OperandStack};
pub use gate::{Gate, OpenGate};
pub use ids::{CallId, ClassId, DomainId, MethodId, ObjectId, ServiceId, ThreadId};
pub use listed::{Cells, Entries, Listed, Name, Nodes, Numbers, Text, text_of};
pub use program::{
    Class, Declared, Field, Method, Plan, Program, Resolved, Selector, System, Template,
};
pub use row::{
    Comparison, Conversion, Division, Element, Form, Invocation, Kind, Local, Operator, Row, Shift,
    Slots,
};
pub use shelf::{Fetch, HonestShelf, MAX_FILE, MemoryShelf, Shelf};
pub use sink::{Failed, MemorySink, Sink};
pub use states::{AnswerKind, CallState, DomainState, Exported, ThreadState, Why};
use std::alloc::AllocError;
pub use value::{Node, Parcel, Value, Word};

/// Memory was refused.
pub type OutOfMemory = AllocError;
