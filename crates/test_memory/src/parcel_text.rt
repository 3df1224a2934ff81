//! Parcels as texts.
//!
//! Ints are written as 7, longs as 7L, null as null, nodes as @7 with their place, portals as p5:40
//! with the numbers of the service and of the class, memory objects as m7. The roots stand first, and
//! then each node, by the number of its class.

use jx_base::{Node, OutOfMemory, Parcel, Word};
use std::alloc::Global;

fn word_text(alloc: Global, word: Word) -> Result<String, OutOfMemory> {
    match word {
        Word::Int(n) => format!(in alloc; " {n}"),
        Word::Long(n) => format!(in alloc; " {n}L"),
        Word::Null => String::from_str(alloc, " null"),
        Word::Node(n) => format!(in alloc; " @{n}"),
        Word::Portal(service, class) => format!(in alloc; " p{}:{}", service.0, class.0),
        Word::Mem(object) => format!(in alloc; " m{}", object.0),
    }
}

fn words_text(alloc: Global, words: &[Word]) -> Result<String, OutOfMemory> {
    let mut text = String::new(alloc);
    for word in words {
        text.push_str(word_text(alloc, *word)?.as_str())?;
    }
    Ok(text)
}

fn node_text(alloc: Global, node: &Node) -> Result<String, OutOfMemory> {
    let mut text = format!(in alloc; " | {}:", node.class.0)?;
    text.push_str(words_text(alloc, node.cells.as_slice())?.as_str())?;
    Ok(text)
}

/// The roots and the nodes.
pub fn parcel_text(alloc: Global, parcel: &Parcel) -> Result<String, OutOfMemory> {
    let mut text = String::from_str(alloc, "roots:")?;
    text.push_str(words_text(alloc, parcel.roots.as_slice())?.as_str())?;
    for node in parcel.nodes.as_slice() {
        text.push_str(node_text(alloc, node)?.as_str())?;
    }
    Ok(text)
}
