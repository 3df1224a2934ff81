//! Copies of parcels.
ghost use Rattle.std.specs.Prelude.{◌≡◌, IfOk};

use jx_base::{Listed, Node, Nodes, OutOfMemory, Parcel};
use std::alloc::Global;

// The same node once more.
fn copy_node(alloc: Global, node: &Node) -> Result<Node, OutOfMemory>
    ensures { IfOk result (λ copy. copy ≡ node.now) }
{
    Ok(Node {
        class: node.class,
        cells: node.cells.copy(alloc)?,
    })
}

// The same nodes once more.
fn copy_nodes(alloc: Global, nodes: &[Node]) -> Result<Nodes, OutOfMemory>
    ensures { IfOk result (λ copies. copies ≡ nodes.now) }
{
    let mut copies = Vec::with_capacity(alloc, nodes.len())?;
    for node in nodes {
        copies.push(copy_node(alloc, node)?)?;
    }
    Ok(Listed::from_vec(copies))
}

/// The same parcel once more.
pub fn copy_parcel(alloc: Global, parcel: &Parcel) -> Result<Parcel, OutOfMemory>
    ensures { IfOk result (λ copy. copy ≡ parcel.now) }
{
    Ok(Parcel {
        roots: parcel.roots.copy(alloc)?,
        nodes: copy_nodes(alloc, parcel.nodes.as_slice())?,
    })
}
