//! Values of a domain, and the parcels that go between domains.

use crate::ids::{ClassId, ObjectId, ServiceId};
use crate::listed::{Cells, Nodes};

/// A value of a domain's machine. `Ref` is a place in the domain's list of objects; `Portal` has
/// the interface that its service was exported with.
#[derive(Clone, Copy)]
pub enum Value {
    Int(i32),
    Long(i64),
    Null,
    Ref(u32),
    Portal(ServiceId, ClassId),
    Mem(ObjectId),
}

/// A word of a parcel. `Node` is a place in the parcel's nodes, from 0.
#[derive(Clone, Copy)]
pub enum Word {
    Int(i32),
    Long(i64),
    Null,
    Node(u32),
    Portal(ServiceId, ClassId),
    Mem(ObjectId),
}

/// A copied object: its class, and its fields, elements or units.
#[derive(Drop)]
pub struct Node {
    pub class: ClassId,
    pub cells: Cells,
}

/// What a call, an answer or a job carries: values, and copies of the objects that they reach. At
/// most 1,024 nodes and 4,096 words.
#[derive(Drop)]
pub struct Parcel {
    pub roots: Cells,
    pub nodes: Nodes,
}
