//! Unpacking: new objects for the nodes of a parcel.
ghost use Rattle.std.specs.Prelude.{◌≡◌, ◌+◌, ◌-◌, ◌^◌, ◌<◌, ◌≤◌, ◌↔◌, ◌∷◌, [], IfOk, OnOk, OnErr};
ghost use Rattle.std.specs.Prelude.{IsErrOf, length, map, nat_le, sum_by};
ghost use Rattle.std.specs.List.{All};
ghost use Rattle.program_model.specs.ParcelParts.{node_size, node_cells};
ghost use Rattle.program_model.specs.Parcels.{value_of};
ghost use Rattle.param_copy.specs.Copies.{IsPlaced, AreClosed, ArePlaced, HasPlace, with_nodes};

use crate::fault::UnpackFault;
use domain_heap::Heap;
use jx_base::{Node, OutOfMemory, Parcel, Value, Word};
use std::alloc::Global;

// Whether the nodes have room in so many cells.
fn have_room(nodes: &[Node], cells: u32) -> bool
    ensures { result ≡ nat_le (sum_by node_size nodes.now) cells }
{
    let mut left = cells as usize;
    for node in nodes {
        let size = node.cells.as_slice().len() + 2;
        if size > left {
            return false;
        }
        left -= size;
    }
    true
}

// A word as a value, where the first node is that object.
fn value_of(first: u32, word: Word) -> Value
    requires { HasPlace first word }
    ensures { result ≡ value_of first word }
{
    match word {
        Word::Int(number) => Value::Int(number),
        Word::Long(number) => Value::Long(number),
        Word::Null => Value::Null,
        Word::Portal(service, iface) => Value::Portal(service, iface),
        Word::Mem(object) => Value::Mem(object),
        Word::Node(place) => Value::Ref(first + place),
    }
}

// Words as values.
fn values_of(alloc: Global, first: u32, words: &[Word]) -> Result<Vec<Value>, OutOfMemory>
    requires { All (HasPlace first) words.now }
    ensures { IfOk result (λ values. values.items ≡ map (value_of first) words.now) }
{
    let mut values = Vec::with_capacity(alloc, words.len())?;
    for word in words {
        values.push(value_of(first, *word))?;
    }
    Ok(values)
}

// Makes an object for the node.
fn add_node(heap: &mut Heap, first: u32, node: &Node)
    requires room { node_size node.now ≤ heap.old.left }
    requires small { node_size node.now < 2 ^ 32 }
    requires places { All (HasPlace first) node.now.cells }
    ensures { heap.new ≡ with_nodes heap.old first (node.now ∷ []) }
{
    let words = node.cells.as_slice();
    let Some(object) = heap.make(node.class, words.len() as u32) else {
        unreachable!();
    };
    for (cell, word) in words.iter().enumerate() {
        heap.put(object, cell as u32, value_of(first, *word));
    }
}

/// Makes an object for each node of the parcel, in order, and gives the roots as values. `NoRoom` where
/// the objects need more cells than are left. The heap is unchanged where there is a fault.
pub fn unpack(alloc: Global, heap: &mut Heap, parcel: &Parcel) -> Result<Vec<Value>, UnpackFault>
    requires { ArePlaced parcel.now }
    ensures room { IsErrOf result UnpackFault.NoRoom ↔ (heap.old.left < node_cells parcel.now) }
    ensures roots { IfOk result (λ values. values.items
        ≡ map (value_of (length heap.old.objects)) parcel.now.roots) }
    ensures objects { OnOk result
        (heap.new ≡ with_nodes heap.old (length heap.old.objects) parcel.now.nodes) }
    ensures places { IfOk result
        (λ values. All (IsPlaced (length heap.new.objects)) values.items) }
    ensures closed { AreClosed heap.old.objects → AreClosed heap.new.objects }
    ensures unchanged { OnErr result (heap.new ≡ heap.old) }
{
    let nodes = parcel.nodes.as_slice();
    if !have_room(nodes, heap.left()) {
        return Err(UnpackFault::NoRoom);
    }
    let first = heap.objects();
    let roots = values_of(alloc, first, parcel.roots.as_slice())?;
    for node in nodes {
        add_node(heap, first, node);
    }
    Ok(roots)
}
