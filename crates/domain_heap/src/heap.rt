//! The heap of a domain: a list of objects, whose cells lie in one reserved run.
ghost use Rattle.std.specs.Prelude.{◌≡◌, ◌+◌, ◌*◌, ◌^◌, ◌<◌, Some, None, IfOk, [], length, nat_lt, slice_get, if◌then◌else◌};
ghost use Rattle.std.specs.Option.{option_map};
ghost use Rattle.program_model.specs.Parcels.{cells_at};
ghost use Rattle.domain_heap.specs.Heaps.{has_room, with_object, with_cell};

use jx_base::{ClassId, OutOfMemory, Value};
use std::alloc::Global;
use std::marker::Model;

/// The cells that the head of an object takes.
const HEAD: u32 = 2;

// Where the cells of an object lie in the run.
#[derive(Clone, Copy)]
struct Place {
    class: ClassId,
    at: u32,
    count: u32,
}

/// The objects of a domain in the order in which they were made, and the cells that are left. An
/// object is named by its place in that order, from 0. A cell is counted as 8 bytes of the machine's
/// memory, whatever a `Value` takes here. Only `open` takes memory.
#[derive(Drop)]
pub struct Heap {
    places: Vec<Place>,
    cells: Vec<Value>,
    left: u32,
}

impl Model for Heap {
    ghost use Rattle.domain_heap.specs.Heaps.{HeapState};

    ghost Value = { HeapState };

    ghost use Rattle.domain_heap.specs.Layout.{heap_state, IsHeap};

    ghost view = { heap_state };

    ghost invariant = { IsHeap };
}

impl Heap {
    /// A heap of so many cells, without objects.
    pub fn open(alloc: Global, cells: u32) -> Result<Heap, OutOfMemory>
        ensures { IfOk result (λ heap. heap ≡ record { objects = []; left = cells }) }
    {
        Ok(Heap {
            places: Vec::with_capacity(alloc, (cells / HEAD) as usize)?,
            cells: Vec::with_capacity(alloc, cells as usize)?,
            left: cells,
        })
    }

    /// Makes an object of so many cells, each null, and gives its place. `None` where its cells and
    /// the two of its head are not left.
    pub fn make(&mut self, class: ClassId, count: u32) -> Option<u32>
        ensures place { result
            ≡ (if has_room self.old count then Some (length self.old.objects) else None) }
        ensures after { self.new
            ≡ (if has_room self.old count then with_object self.old class count else self.old) }
    {
        if self.left < HEAD || self.left - HEAD < count {
            return None;
        }
        let at = self.cells.len();
        let object = self.places.len() as u32;
        let place = Place {
            class,
            at: at as u32,
            count,
        };
        // Both are reserved, so neither is refused.
        if self.places.push(place).is_err()
            || self.cells.resize(at + count as usize, Value::Null).is_err()
        {
            unreachable!();
        }
        self.left -= count + HEAD;
        Some(object)
    }

    /// The value in a cell of an object.
    pub fn get(&self, object: u32, cell: u32) -> Value
        requires { cell < length (cells_at self.now.objects object) }
        ensures { slice_get (cells_at self.now.objects object) cell ≡ Some result }
    {
        self.cells(object)[cell as usize]
    }

    /// Puts the value into a cell of an object.
    pub fn put(&mut self, object: u32, cell: u32, value: Value)
        requires { cell < length (cells_at self.old.objects object) }
        ensures { self.new
            ≡ record self.old { objects = with_cell self.old.objects object cell value } }
    {
        let place = self.places[object as usize];
        self.cells[place.at as usize + cell as usize] = value;
    }

    /// All cells of an object: its fields, elements or units.
    pub fn cells(&self, object: u32) -> &[Value]
        requires { object < length self.now.objects }
        ensures { result.now ≡ cells_at self.now.objects object }
    {
        let place = self.places[object as usize];
        let at = place.at as usize;
        &self.cells.as_slice()[at..at + place.count as usize]
    }

    pub fn class_of(&self, object: u32) -> ClassId
        requires { object < length self.now.objects }
        ensures { option_map (λ o. o.class) (slice_get self.now.objects object) ≡ Some result }
    {
        self.places[object as usize].class
    }

    /// How many cells an object has, without its head.
    pub fn len(&self, object: u32) -> u32
        requires { object < length self.now.objects }
        ensures { result ≡ length (cells_at self.now.objects object) }
    {
        self.places[object as usize].count
    }

    /// Whether the place is an object's.
    pub fn has_object(&self, object: u32) -> bool
        ensures { result ≡ nat_lt object (length self.now.objects) }
    {
        object < self.objects()
    }

    /// How many objects there are.
    pub fn objects(&self) -> u32
        ensures { result ≡ length self.now.objects }
    {
        self.places.len() as u32
    }

    /// How many cells are left.
    pub fn left(&self) -> u32
        ensures left { result ≡ self.now.left }
        ensures small { 2 * length self.now.objects + result < 2 ^ 32 }
    {
        self.left
    }
}
