//! The table of extents.
ghost use Rattle.std.specs.Prelude.{◌≡◌, ◌++◌, ◌∷◌, ◌+◌, ◌-◌, [], Some, None, IsSome, IfOk, length};
ghost use Rattle.std.specs.Prelude.{IsErr, drop, replicate, take};
ghost use Rattle.std.specs.Option.{option_map};
ghost use Rattle.jx_base.specs.Basics.{low_byte};
ghost use Rattle.region_bytes.specs.Extents.{IsWidth, LieWithin, byte_from, bytes_of};
ghost use Rattle.region_bytes.specs.Extents.{number_read, with_written};
ghost use Rattle.table_threads.specs.Changes.{changed_at};

use crate::extents::{bytes_at, put_bytes, take_bytes};
use crate::numbers::read;
use crate::runs::{copy_from, move_within, put_number, put_same};
use jx_base::OutOfMemory;
use std::alloc::{AllocError, Global};
use std::marker::Model;

// No memory holds more extents.
const MOST: usize = u32::MAX as usize;

/// The bytes of extents, each by its number from 1. Only `open` and `add` take memory.
#[derive(Drop)]
pub struct Bytes {
    extents: Vec<Option<Vec<u8>>>,
}

impl Model for Bytes {
    ghost use Rattle.std.specs.Prelude.{List, Option, ℕ};
    ghost use Rattle.region_bytes.specs.Extents.{extents_of};

    ghost Value = { List (Option (List ℕ)) };

    ghost view = { λ bytes. extents_of bytes.extents.items };
}

impl Bytes {
    /// No extents yet.
    pub fn open(alloc: Global) -> Result<Bytes, OutOfMemory>
        ensures { IfOk result (λ bytes. bytes ≡ []) }
    {
        Ok(Bytes {
            extents: Vec::new(alloc),
        })
    }

    /// A new extent of so many zeros behind the others, and its number.
    pub fn add(&mut self, alloc: Global, size: u32) -> Result<u32, OutOfMemory>
        ensures number { IfOk result (λ x. x ≡ length self.old + 1) }
        ensures after { IfOk result
            (λ _. self.new ≡ self.old ++ Some (replicate size 0) ∷ []) }
        ensures same { IsErr result → self.new ≡ self.old }
    {
        if self.extents.len() >= MOST {
            return Err(AllocError);
        }
        let bytes = vec![in alloc; 0; size as usize]?;
        let number = self.extents.len() as u32 + 1;
        self.extents.push(Some(bytes))?;
        Ok(number)
    }

    /// The number of 1, 2 or 4 bytes there, the lowest first; one of 4 has a sign.
    pub fn get(&self, x: u32, at: u32, width: u8) -> i32
        requires within { LieWithin self.now x at width }
        requires width { IsWidth width }
        ensures { option_map (λ bytes. number_read (take width (drop at bytes)))
            (bytes_of self.now x) ≡ Some result }
    {
        let bytes = bytes_at(self.extents.as_slice(), x);
        read(&bytes[at as usize..at as usize + width as usize])
    }

    /// Puts the low bytes of the value there, the lowest first.
    pub fn set(&mut self, x: u32, at: u32, width: u8, value: i32)
        requires within { LieWithin self.old x at width }
        requires width { IsWidth width }
        ensures { self.new ≡ with_written self.old x at width (low_byte value) }
    {
        let mut bytes = take_bytes(&mut self.extents, x);
        put_number(bytes.as_mut_slice(), at as usize, width as usize, value);
        put_bytes(&mut self.extents, x, bytes);
    }

    /// Puts the byte at so many places.
    pub fn fill(&mut self, x: u32, at: u32, count: u32, byte: u8)
        requires { LieWithin self.old x at count }
        ensures { self.new ≡ with_written self.old x at count (λ _. byte) }
    {
        let mut bytes = take_bytes(&mut self.extents, x);
        put_same(bytes.as_mut_slice(), at as usize, count as usize, byte);
        put_bytes(&mut self.extents, x, bytes);
    }

    /// Copies bytes from one extent to another or the same, as if through a second place.
    pub fn copy(&mut self, x: u32, at: u32, y: u32, y_at: u32, count: u32)
        requires from { LieWithin self.old x at count }
        requires to { LieWithin self.old y y_at count }
        ensures { self.new ≡ with_written self.old y y_at count (byte_from self.old x at) }
    {
        let (at, to, count) = (at as usize, y_at as usize, count as usize);
        let mut bytes = take_bytes(&mut self.extents, y);
        if x == y {
            move_within(bytes.as_mut_slice(), at, to, count);
        } else {
            let source = bytes_at(self.extents.as_slice(), x);
            copy_from(bytes.as_mut_slice(), to, source, at, count);
        }
        put_bytes(&mut self.extents, y, bytes);
    }

    /// Gives the bytes of an extent up.
    pub fn forget(&mut self, x: u32)
        requires { IsSome (bytes_of self.old x) }
        ensures { self.new ≡ changed_at (x - 1) (λ _. None) self.old }
    {
        let _ = take_bytes(&mut self.extents, x);
    }
}
