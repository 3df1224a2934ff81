//! The frames of a thread, and what all threads of its domain share.

use domain_heap::Heap;
use jx_base::{Exported, Frame, Text, Value};

/// A thread's frames, the running one last, with the heap of its domain, the values of the static
/// fields by their places, the String object of each text that an ldc has made, and the exported
/// objects.
#[derive(Drop)]
pub struct Core {
    pub frames: Vec<Frame>,
    pub heap: Heap,
    pub statics: Vec<Value>,
    pub literals: Vec<(Text, u32)>,
    pub exports: Vec<Exported>,
}
