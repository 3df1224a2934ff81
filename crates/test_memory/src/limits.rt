//! The limits of a parcel: 1,024 nodes and 4,096 words.

use crate::limits::Shape::{Array, Ints, List};
use crate::objects::{add, put};
use crate::packed::packed;
use domain_heap::Heap;
use jx_base::{OutOfMemory, Value};
use param_copy::PackFault;
use std::alloc::Global;
use std::test::Fail;

// An array with so many objects without cells, an array of so many ints, or a list of so many
// objects.
#[derive(Clone, Copy)]
enum Shape {
    Array(u32),
    Ints(u32),
    List(u32),
}

fn array_of_objects(alloc: Global, count: u32) -> Result<Heap, OutOfMemory> {
    let mut heap = Heap::open(alloc, 10_000)?;
    let mut cells = Vec::new(alloc);
    for object in 0..count {
        cells.push(Value::Ref(object.saturating_add(1)))?;
    }
    add(&mut heap, 40, cells.as_slice());
    for _ in 0..count {
        add(&mut heap, 0, &[]);
    }
    Ok(heap)
}

fn ints(alloc: Global, count: u32) -> Result<Heap, OutOfMemory> {
    let mut heap = Heap::open(alloc, 10_000)?;
    let mut cells = Vec::new(alloc);
    for number in 0..count {
        cells.push(Value::Int((number % 1000) as i32))?;
    }
    add(&mut heap, 41, cells.as_slice());
    Ok(heap)
}

// Each object refers to the next.
fn list(alloc: Global, count: u32) -> Result<Heap, OutOfMemory> {
    let mut heap = Heap::open(alloc, 400_000)?;
    for object in 0..count {
        add(&mut heap, 30, &[Value::Null]);
        if object > 0 {
            put(&mut heap, object - 1, 0, Value::Ref(object));
        }
    }
    Ok(heap)
}

fn heap_of_shape(alloc: Global, shape: Shape) -> Result<Heap, OutOfMemory> {
    match shape {
        Array(count) => array_of_objects(alloc, count),
        Ints(count) => ints(alloc, count),
        List(count) => list(alloc, count),
    }
}

// The nodes and the words of the parcel of the first object; none where it is too large.
fn measured(alloc: Global, heap: &Heap) -> Result<Option<(usize, usize)>, PackFault> {
    match packed(alloc, heap, &[], &[Value::Ref(0)]) {
        Ok(parcel) => {
            let nodes = parcel.nodes.as_slice();
            let mut words = parcel.roots.as_slice().len();
            for node in nodes {
                words = words
                    .saturating_add(node.cells.as_slice().len())
                    .saturating_add(2);
            }
            Ok(Some((nodes.len(), words)))
        }
        Err(PackFault::TooMany) => Ok(None),
        Err(PackFault::OutOfMemory) => Err(PackFault::OutOfMemory),
    }
}

static LIMITS: [(Shape, Option<(usize, usize)>); 7] = [
    (Array(1023), Some((1024, 3072))),
    (Array(1024), None),
    (Ints(4093), Some((1, 4096))),
    (Ints(4094), None),
    (List(1024), Some((1024, 3073))),
    (List(1025), None),
    (List(100_000), None),
];

#[test]
fn a_parcel_has_1024_nodes_and_4096_words(rt: HostRuntime) -> Result<(), Fail> {
    for (shape, due) in &LIMITS {
        let heap = heap_of_shape(rt.alloc(), *shape)?;
        assert!(rt; measured(rt.alloc(), &heap)? == *due);
    }
    Ok(())
}

// So many nulls, and the first object.
fn roots_of(alloc: Global, nulls: u32) -> Result<Vec<Value>, OutOfMemory> {
    let mut roots = Vec::new(alloc);
    for _ in 0..nulls {
        roots.push(Value::Null)?;
    }
    roots.push(Value::Ref(0))?;
    Ok(roots)
}

// Whether an array of four ints fits behind so many roots that are null.
fn fits_behind(alloc: Global, nulls: u32) -> Result<bool, PackFault> {
    let heap = ints(alloc, 4)?;
    let roots = roots_of(alloc, nulls)?;
    match packed(alloc, &heap, &[], roots.as_slice()) {
        Ok(_) => Ok(true),
        Err(PackFault::TooMany) => Ok(false),
        Err(PackFault::OutOfMemory) => Err(PackFault::OutOfMemory),
    }
}

#[test]
fn roots_are_words(rt: HostRuntime) -> Result<(), Fail> {
    assert!(rt; fits_behind(rt.alloc(), 4089)?);
    assert!(rt; !fits_behind(rt.alloc(), 4090)?);
    Ok(())
}
