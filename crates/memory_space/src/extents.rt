//! The extents, and their bytes in one row of cells.
ghost use Rattle.std.specs.Prelude.{◌≡◌, ◌++◌, ◌∷◌, ◌+◌, ◌*◌, ◌-◌, ◌<◌, ◌≤◌, [], Some, IsSome, IfOk, length, slice_get, IfSome};
ghost use Rattle.jx_base.specs.Basics.{low_byte, numbered};
ghost use Rattle.jx_model.specs.Granules.{extent_granules};
ghost use Rattle.jx_model.specs.Tables.{ExtentRecord};
ghost use Rattle.memory_space.specs.ExtentLists.{AreDisjoint, IsClear, LieWithin, byte_in};
ghost use Rattle.memory_space.specs.ExtentLists.{bytes_in, number_in, with_written};
ghost use Rattle.memory_space.specs.ExtentLists.{without_bytes, zeros};
ghost use Rattle.region_bytes.specs.Extents.{IsWidth};
ghost use Rattle.table_threads.specs.Changes.{changed_at};

use crate::cells::{move_within, put_number, put_same, read};
use crate::rows::{ExtentRow, extent_granules};
use jx_base::OutOfMemory;
use std::alloc::Global;
use std::marker::Model;

// The extents that are ever made.
const MOST: usize = 65_536;

/// The extents by their numbers, from 1, in so many granules. Only `open` takes memory.
#[derive(Drop)]
pub struct Extents {
    cells: Vec<u8>,
    rows: Vec<ExtentRow>,
    granules: u32,
}

impl Model for Extents {
    ghost use Rattle.memory_space.specs.ExtentLists.{ExtentsState};
    ghost use Rattle.memory_space.specs.Cells.{IsExtents, extents_state};

    ghost Value = { ExtentsState };

    ghost view = { extents_state };

    ghost invariant = { IsExtents };
}

// The cell of that byte of an extent.
fn cell_of(rows: &[ExtentRow], extent: u32, at: u32) -> usize
    requires first { 1 ≤ extent }
    requires last { extent ≤ length rows.now }
    ensures { IfSome (slice_get rows.now (extent - 1)) (λ row. result ≡ 64 * row.at + at) }
{
    rows[extent as usize - 1].start() + at as usize
}

impl Extents {
    /// No extents yet.
    pub fn open(alloc: Global, granules: u32) -> Result<Extents, OutOfMemory>
        ensures { IfOk result (λ extents. extents ≡ record { granules = granules; items = [] }) }
    {
        Ok(Extents {
            cells: vec![in alloc; 0; granules as usize * 64]?,
            rows: Vec::with_capacity(alloc, MOST)?,
            granules,
        })
    }

    /// A new extent of so many zeros behind the others, and its number.
    pub fn add(&mut self, at: u32, size: u32) -> u32
        requires room { length self.old.items < 65536 }
        requires some { 1 ≤ size }
        requires within { at + extent_granules size ≤ self.old.granules }
        requires clear { IsClear self.old.items (at, extent_granules size) }
        ensures number { result ≡ length self.old.items + 1 }
        ensures after { self.new ≡ record self.old {
          items = self.old.items ++ zeros at size ∷ [];
        } }
    {
        let row = ExtentRow {
            at,
            size,
            live: true,
        };
        put_same(self.cells.as_mut_slice(), row.start(), size as usize, 0);
        self.rows.push_reserved(row);
        self.rows.len() as u32
    }

    /// The number of 1, 2 or 4 bytes there, the lowest first; one of 4 has a sign.
    pub fn get(&self, extent: u32, at: u32, width: u8) -> i32
        requires within { LieWithin self.now.items extent at width }
        requires width { IsWidth width }
        ensures { result ≡ number_in self.now.items extent at width }
    {
        let from = cell_of(self.rows.as_slice(), extent, at);
        let cells = self.cells.as_slice();
        read(&cells[from..from + width as usize])
    }

    /// Puts the low bytes of the value there, the lowest first.
    pub fn set(&mut self, extent: u32, at: u32, width: u8, value: i32)
        requires within { LieWithin self.old.items extent at width }
        requires width { IsWidth width }
        ensures { self.new ≡ record self.old {
          items = with_written self.old.items extent at width (low_byte value);
        } }
    {
        let from = cell_of(self.rows.as_slice(), extent, at);
        put_number(self.cells.as_mut_slice(), from, width as usize, value);
    }

    /// Puts the byte at so many places.
    pub fn fill(&mut self, extent: u32, at: u32, count: u32, byte: u8)
        requires { LieWithin self.old.items extent at count }
        ensures { self.new ≡ record self.old {
          items = with_written self.old.items extent at count (λ _. byte);
        } }
    {
        let from = cell_of(self.rows.as_slice(), extent, at);
        put_same(self.cells.as_mut_slice(), from, count as usize, byte);
    }

    /// Copies bytes from one extent to another or the same, as if through a second place.
    pub fn copy(&mut self, extent: u32, at: u32, target: u32, target_at: u32, count: u32)
        requires from { LieWithin self.old.items extent at count }
        requires to { LieWithin self.old.items target target_at count }
        ensures { self.new ≡ record self.old {
          items = with_written self.old.items target target_at count
              (byte_in self.old.items extent at);
        } }
    {
        let from = cell_of(self.rows.as_slice(), extent, at);
        let to = cell_of(self.rows.as_slice(), target, target_at);
        move_within(self.cells.as_mut_slice(), from, to, count as usize);
    }

    /// Gives the bytes of an extent up, and gives its first granule and how many it has.
    pub fn forget(&mut self, extent: u32) -> (u32, u32)
        requires { IsSome (bytes_in self.old.items extent) }
        ensures run { IfSome (numbered self.old.items extent) (λ item. item.run ≡ result) }
        ensures clear { IsClear self.new.items result }
        ensures after { self.new ≡ record self.old {
          items = changed_at (extent - 1) without_bytes self.old.items;
        } }
    {
        let place = extent as usize - 1;
        let row = self.rows[place];
        self.rows[place] = ExtentRow { live: false, ..row };
        (row.at, extent_granules(row.size))
    }
}
