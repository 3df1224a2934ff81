//! Heaps that are built object by object.

use domain_heap::Heap;
use jx_base::{ClassId, OutOfMemory, Value};
use std::alloc::Global;

/// An object to be made: the number of its class, and its cells.
pub type Object = (u32, &'static [Value]);

/// Puts the value where there is such a cell.
pub fn put(heap: &mut Heap, object: u32, cell: u32, value: Value) {
    if heap.has_object(object) && cell < heap.len(object) {
        heap.put(object, cell, value);
    }
}

/// Makes the object, and puts its cells.
pub fn add(heap: &mut Heap, class: u32, cells: &[Value]) {
    let count = u32::try_from(cells.len()).unwrap_or(u32::MAX);
    if let Some(object) = heap.make(ClassId(class), count) {
        let mut cell: u32 = 0;
        for value in cells {
            put(heap, object, cell, *value);
            cell = cell.wrapping_add(1);
        }
    }
}

/// A heap of so many cells with these objects.
pub fn heap_of(alloc: Global, room: u32, objects: &[Object]) -> Result<Heap, OutOfMemory> {
    let mut heap = Heap::open(alloc, room)?;
    for (class, cells) in objects {
        add(&mut heap, *class, cells);
    }
    Ok(heap)
}
