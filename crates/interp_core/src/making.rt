//! New objects.
ghost use Rattle.std.specs.Prelude.{◌≡◌, ◌<◌, Some, None, length, slice_get, if◌then◌else◌};
ghost use Rattle.domain_heap.specs.Heaps.{has_room};
ghost use Rattle.machine_model.specs.State as Spec;
ghost use Rattle.interp_core.specs.Cores.{store_of};
ghost use Rattle.interp_core.specs.Making.{Makes, contents_cells, heap_with};

use crate::cores::Core;
use crate::kept::default_of;
use domain_heap::Heap;
use jx_base::{ClassId, Field, Value};

/// What the cells of a new object hold: so many times the same value, these values, the units of a
/// text, or the defaults of fields.
#[derive(Clone, Copy)]
pub enum Contents<'a> {
    Same(u32, Value),
    Values(&'a [Value]),
    Units(&'a [u16]),
    Defaults(&'a [Field]),
}

// How many cells that are.
fn cell_count(contents: Contents<'_>) -> usize
    ensures { result ≡ length (contents_cells contents.entry) }
{
    match contents {
        Contents::Same(count, _) => count as usize,
        Contents::Values(values) => values.len(),
        Contents::Units(units) => units.len(),
        Contents::Defaults(fields) => fields.len(),
    }
}

// What one of the cells holds.
fn content_at(contents: Contents<'_>, cell: u32) -> Value
    requires { cell < length (contents_cells contents) }
    ensures { slice_get (contents_cells contents.entry) cell ≡ Some result }
{
    match contents {
        Contents::Same(_, value) => value,
        Contents::Values(values) => values[cell as usize],
        Contents::Units(units) => Value::Int(i32::from(units[cell as usize])),
        Contents::Defaults(fields) => default_of(fields[cell as usize].descriptor.as_slice()),
    }
}

// Makes an object in a heap, and gives its place.
fn make_in(heap: &mut Heap, class: ClassId, contents: Contents<'_>) -> Option<u32>
    ensures place { result ≡ (if has_room heap.old (length (contents_cells contents.entry))
        then Some (length heap.old.objects) else None) }
    ensures after { heap.new ≡ (if has_room heap.old (length (contents_cells contents.entry))
        then heap_with heap.old class (contents_cells contents.entry) else heap.old) }
{
    let count = cell_count(contents);
    if count > heap.left() as usize {
        return None;
    }
    let count = count as u32;
    let object = heap.make(class, count)?;
    for cell in 0..count {
        heap.put(object, cell, content_at(contents, cell));
    }
    Some(object)
}

/// Makes an object with these contents, and gives its place. `None` where its cells and the two of
/// its head are not left. Takes no memory.
pub fn make_object(core: &mut Core, class: ClassId, contents: Contents<'_>) -> Option<u32>
    ensures made { Makes result (store_of core.old) (store_of core.new)
        (Spec.new_object (store_of core.old) class.0 (contents_cells contents.entry)) }
    ensures frames { core.new.frames ≡ core.old.frames }
{
    make_in(&mut core.heap, class, contents)
}

/// Makes an array of equal elements.
pub fn make_array(core: &mut Core, class: ClassId, count: u32, element: Value) -> Option<u32>
    ensures made { Makes result (store_of core.old) (store_of core.new)
        (Spec.new_array (store_of core.old) class.0 count element) }
    ensures frames { core.new.frames ≡ core.old.frames }
{
    make_object(core, class, Contents::Same(count, element))
}
