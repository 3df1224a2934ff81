//! The walk: the objects that values reach, breadth first.
ghost use Rattle.std.specs.Prelude.{◌≡◌, ℕ, List, ◌++◌, true, None, OnOk, IfOk, MatchResult, length};
ghost use Rattle.std.specs.List.{All};
ghost use Rattle.jx_base.specs.Basics.{firsts};
ghost use Rattle.program_model.specs.Parcels.{references_of, walk_of, packed};
ghost use Rattle.param_copy.specs.Copies.{IsPlaced, AreClosed, is_small_walk};

use crate::exports::Exports;
use crate::fault::PackFault;
use domain_heap::Heap;
use indexmap::IndexSet;
use jx_base::{OutOfMemory, Value};
use std::alloc::Global;

// The nodes of a parcel, at most.
const NODE_LIMIT: usize = 1024;

// The words of a parcel, at most.
const PARCEL_LIMIT: usize = 4096;

// Adds the objects that the values refer to, but for exported ones, behind those that were met before.
fn add_references(
    walk: &mut IndexSet<u32>,
    exports: &Exports<'_>,
    values: &[Value],
) -> Result<(), OutOfMemory>
    ensures { OnOk result ((mentioned : List ℕ) → walk.old.keys ≡ firsts mentioned
        → walk.new.keys ≡ firsts (mentioned ++ references_of exports.now values.now)) }
{
    for value in values {
        if let Some(object) = exports.reference_of(*value) {
            walk.insert(object)?;
        }
    }
    Ok(())
}

/// The walk of these roots, in which each object has its place. It ends as soon as it is too long for a
/// parcel.
pub fn walk_of(
    alloc: Global,
    heap: &Heap,
    exports: &Exports<'_>,
    roots: &[Value],
) -> Result<IndexSet<u32>, PackFault>
    requires roots { All (IsPlaced (length heap.now.objects)) roots.now }
    requires objects { AreClosed heap.now.objects }
    ensures walk { MatchResult result
        (λ walk. walk.keys
        ≡ walk_of heap.now.objects exports.now (references_of exports.now roots.now))
        (λ fault. fault ≡ PackFault.TooMany
        → packed heap.now.objects exports.now roots.now ≡ None) }
    ensures small { IfOk result
        (λ walk. is_small_walk heap.now.objects (length roots.now) walk.keys ≡ true) }
{
    let mut words = roots.len();
    if words > PARCEL_LIMIT {
        return Err(PackFault::TooMany);
    }
    let mut walk = IndexSet::new(alloc);
    add_references(&mut walk, exports, roots)?;
    let mut next = 0;
    while let Some(object) = walk.get_index(next).copied() {
        let cells = heap.cells(object);
        words += cells.len() + 2;
        if next == NODE_LIMIT || words > PARCEL_LIMIT {
            return Err(PackFault::TooMany);
        }
        add_references(&mut walk, exports, cells)?;
        next += 1;
    }
    Ok(walk)
}
