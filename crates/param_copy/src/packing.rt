//! Packing: the parcel of values.
ghost use Rattle.std.specs.Prelude.{◌≡◌, ◌≤◌, ◌<◌, None, Some, IfOk, IsErrOf, length, map, ◌==◌};
ghost use Rattle.std.specs.Option.{unwrap_or};
ghost use Rattle.std.specs.List.{All, position};
ghost use Rattle.program_model.specs.Parcels.{word_of, nodes_of, packed};
ghost use Rattle.param_copy.specs.Copies.{IsPlaced, AreClosed, ArePlaced};

use crate::exports::Exports;
use crate::fault::PackFault;
use crate::walking::walk_of;
use domain_heap::Heap;
use indexmap::IndexSet;
use jx_base::{Cells, Exported, Listed, Node, Nodes, OutOfMemory, Parcel, Value, Word};
use std::alloc::Global;

// A value as a word: a reference is its place in the walk, or the portal of an exported object.
fn word_of(exports: &Exports<'_>, walk: &IndexSet<u32>, value: Value) -> Word
    requires { length walk.now.keys ≤ 1024 }
    ensures { result ≡ word_of exports.now walk.now.keys value }
{
    match value {
        Value::Int(number) => Word::Int(number),
        Value::Long(number) => Word::Long(number),
        Value::Null => Word::Null,
        Value::Portal(service, iface) => Word::Portal(service, iface),
        Value::Mem(object) => Word::Mem(object),
        Value::Ref(object) => match exports.export_of(object) {
            Some(export) => Word::Portal(export.service, export.iface),
            None => Word::Node(place_of(walk, object)),
        },
    }
}

// The place of an object in the walk, or 0.
fn place_of(walk: &IndexSet<u32>, object: u32) -> u32
    requires { length walk.now.keys ≤ 1024 }
    ensures { result ≡ unwrap_or (position (λ other. other == object) walk.now.keys) 0 }
{
    match walk.get_index_of(&object) {
        Some(place) => place as u32,
        None => 0,
    }
}

// Values as words.
fn words_of(
    alloc: Global,
    exports: &Exports<'_>,
    walk: &IndexSet<u32>,
    values: &[Value],
) -> Result<Cells, OutOfMemory>
    requires { length walk.now.keys ≤ 1024 }
    ensures { IfOk result (λ words. words ≡ map (word_of exports.now walk.now.keys) values.now) }
{
    let mut words = Vec::with_capacity(alloc, values.len())?;
    for value in values {
        words.push(word_of(exports, walk, *value))?;
    }
    Ok(Listed::from_vec(words))
}

// The nodes of the walk's objects.
fn nodes_of(
    alloc: Global,
    heap: &Heap,
    exports: &Exports<'_>,
    walk: &IndexSet<u32>,
) -> Result<Nodes, OutOfMemory>
    requires small { length walk.now.keys ≤ 1024 }
    requires placed { All (λ r. r < length heap.now.objects) walk.now.keys }
    ensures { IfOk result (λ nodes. nodes
        ≡ nodes_of heap.now.objects exports.now walk.now.keys walk.now.keys) }
{
    let objects = walk.as_slice();
    let mut nodes = Vec::with_capacity(alloc, objects.len())?;
    for object in objects {
        let cells = words_of(alloc, exports, walk, heap.cells(*object))?;
        nodes.push(Node {
            class: heap.class_of(*object),
            cells,
        })?;
    }
    Ok(Listed::from_vec(nodes))
}

// The parcel of the values.
fn parcel_of(
    alloc: Global,
    heap: &Heap,
    exports: &Exports<'_>,
    roots: &[Value],
) -> Result<Parcel, PackFault>
    requires roots { All (IsPlaced (length heap.now.objects)) roots.now }
    requires objects { AreClosed heap.now.objects }
    ensures packed { IfOk result
        (λ parcel. packed heap.now.objects exports.now roots.now ≡ Some parcel) }
    ensures refused { IsErrOf result PackFault.TooMany
        → packed heap.now.objects exports.now roots.now ≡ None }
    ensures places { IfOk result ArePlaced }
{
    let walk = walk_of(alloc, heap, exports, roots)?;
    let words = words_of(alloc, exports, &walk, roots)?;
    let nodes = nodes_of(alloc, heap, exports, &walk)?;
    Ok(Parcel {
        roots: words,
        nodes,
    })
}

/// The parcel of the values: their words, and a node for each object that they reach, once, but for
/// exported ones. The walk ends as soon as the parcel is known to have over 1,024 nodes or 4,096
/// words, which is `TooMany`, whatever else the heap has.
pub fn pack(
    alloc: Global,
    heap: &Heap,
    exports: &[Exported],
    roots: &[Value],
) -> Result<Parcel, PackFault>
    requires roots { All (IsPlaced (length heap.now.objects)) roots.now }
    requires objects { AreClosed heap.now.objects }
    ensures packed { IfOk result
        (λ parcel. packed heap.now.objects exports.now roots.now ≡ Some parcel) }
    ensures refused { IsErrOf result PackFault.TooMany
        → packed heap.now.objects exports.now roots.now ≡ None }
    ensures places { IfOk result ArePlaced }
{
    let table = Exports::new(alloc, exports)?;
    parcel_of(alloc, heap, &table, roots)
}
