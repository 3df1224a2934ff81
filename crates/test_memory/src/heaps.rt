//! Heaps.

use crate::objects::{Object, heap_of, put};
use domain_heap::Heap;
use jx_base::{ClassId, OutOfMemory, Value};
use std::alloc::Global;
use std::test::Fail;

// What is made in a heap of so many cells, one object after another: cells, place, cells left.
type Case = (u32, &'static [(u32, Option<u32>, u32)]);

static MAKES: [Case; 5] = [
    (
        16,
        &[
            (4, Some(0), 10),
            (9, None, 10),
            (8, Some(1), 0),
            (0, None, 0),
        ],
    ),
    (16, &[(15, None, 16), (14, Some(0), 0)]),
    (
        16,
        &[(u32::MAX, None, 16), (12, Some(0), 2), (0, Some(1), 0)],
    ),
    (1, &[(0, None, 1)]),
    (0, &[(0, None, 0)]),
];

// Whether the object of so many cells is made at that place, so that so many cells are left.
fn is_made(heap: &mut Heap, count: u32, place: Option<u32>, left: u32) -> bool {
    heap.make(ClassId(3), count) == place && heap.left() == left
}

fn are_made(alloc: Global, case: &Case) -> Result<bool, OutOfMemory> {
    let mut heap = Heap::open(alloc, case.0)?;
    for (count, place, left) in case.1 {
        if !is_made(&mut heap, *count, *place, *left) {
            return Ok(false);
        }
    }
    Ok(true)
}

#[test]
fn an_object_takes_its_cells_and_two(rt: HostRuntime) -> Result<(), Fail> {
    for case in &MAKES {
        assert!(rt; are_made(rt.alloc(), case)?);
    }
    Ok(())
}

static OBJECTS: [Object; 3] = [
    (5, &[Value::Null, Value::Null, Value::Null]),
    (6, &[]),
    (7, &[Value::Null, Value::Null]),
];

// An object, one of its cells, and the number that is put there.
static NUMBERS: [(u32, u32, i32); 5] = [(0, 0, 10), (0, 1, 11), (0, 2, 12), (2, 0, 20), (2, 1, 21)];

// An object, its class, and how many cells it has.
static SIZES: [(u32, u32, u32); 3] = [(0, 5, 3), (1, 6, 0), (2, 7, 2)];

fn is_of(heap: &Heap, object: u32, class: u32, count: u32) -> bool {
    heap.has_object(object) && heap.class_of(object).0 == class && heap.len(object) == count
}

fn holds(heap: &Heap, object: u32, cell: u32, number: i32) -> bool {
    heap.has_object(object)
        && cell < heap.len(object)
        && matches!(heap.get(object, cell), Value::Int(got) if got == number)
}

#[test]
fn no_two_objects_share_a_cell(rt: HostRuntime) -> Result<(), Fail> {
    let mut heap = heap_of(rt.alloc(), 100, &OBJECTS)?;
    assert_eq!(rt; heap.objects(), 3);
    assert_eq!(rt; heap.left(), 100 - 11);
    assert!(rt; heap.has_object(2) && !heap.has_object(3));
    for (object, cell, number) in &NUMBERS {
        put(&mut heap, *object, *cell, Value::Int(*number));
    }
    for (object, class, count) in &SIZES {
        assert!(rt; is_of(&heap, *object, *class, *count));
    }
    for (object, cell, number) in &NUMBERS {
        assert!(rt; holds(&heap, *object, *cell, *number));
    }
    Ok(())
}
