//! Parcels of heaps whose references were looked at.
ghost use Rattle.std.specs.Prelude.{◌≡◌, true, IfOk, length};
ghost use Rattle.std.specs.List.{list_all};
ghost use Rattle.param_copy.specs.Copies.{AreClosed, ArePlaced};
ghost use Rattle.test_memory.specs.Checks.{is_placed};

use domain_heap::Heap;
use jx_base::{Exported, Parcel, Value};
use param_copy::{PackFault, pack};
use std::alloc::Global;

fn is_placed(value: Value, objects: u32) -> bool
    ensures { result ≡ is_placed objects value }
{
    match value {
        Value::Ref(object) => object < objects,
        _ => true,
    }
}

fn are_placed(values: &[Value], objects: u32) -> bool
    ensures { result ≡ list_all (is_placed objects) values.now }
{
    values.iter().all(|value| is_placed(*value, objects))
}

fn are_closed(heap: &Heap) -> bool
    ensures { result ≡ true → AreClosed heap.now.objects }
{
    for object in 0..heap.objects() {
        if !are_placed(heap.cells(object), heap.objects()) {
            return false;
        }
    }
    true
}

/// The parcel, where all references are of objects that there are.
pub fn packed(
    alloc: Global,
    heap: &Heap,
    exports: &[Exported],
    roots: &[Value],
) -> Result<Parcel, PackFault>
    ensures { IfOk result ArePlaced }
{
    if are_placed(roots, heap.objects()) && are_closed(heap) {
        pack(alloc, heap, exports, roots)
    } else {
        Err(PackFault::OutOfMemory)
    }
}
