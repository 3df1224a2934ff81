//! The pool of the machine's granules.
ghost use Rattle.std.specs.Prelude.{◌≡◌, ◌+◌, ◌-◌, ◌<◌, false, true, not, None, IfOk, IfSome, length, map, replicate, count_by};
ghost use Rattle.std.specs.List.{range_with_len};
ghost use Rattle.jx_model.specs.Granules.{least_free};
ghost use Rattle.extent_pool.specs.Holes.{AreApart, granules_of};
ghost use Rattle.extent_pool.specs.Taken.{is_taken, AreTaken, with_run};

use crate::hole::{Hole, cut, first_large, holes_before, one_hole, release};
use jx_base::OutOfMemory;
use std::alloc::Global;
use std::marker::Model;

/// The granules of the machine's memory, each of 64 bytes and each taken or free. Contracts see for
/// each in turn whether it is taken. Only `open` takes memory.
#[derive(Drop)]
pub struct Pool {
    holes: Vec<Hole>,
    spare: u32,
    granules: u32,
}

impl Model for Pool {
    ghost use Rattle.std.specs.Prelude.{List, Bool};

    ghost Value = { List Bool };

    ghost use Rattle.extent_pool.specs.Inside.{taken_granules, IsPool};

    ghost view = { taken_granules };

    ghost invariant = { IsPool };
}

impl Pool {
    /// A pool of so many granules, all free.
    pub fn open(alloc: Global, granules: u32) -> Result<Pool, OutOfMemory>
        ensures { IfOk result (λ pool. pool ≡ replicate granules false) }
    {
        let holes = one_hole(alloc, granules)?;
        Ok(Pool {
            holes,
            spare: granules,
            granules,
        })
    }

    /// Takes n granules in a row at the least place, and gives the place of the first; they may be
    /// given back. `None` where no n free granules stand together.
    pub fn take(&mut self, n: u32) -> Option<u32>
        requires { 0 < n }
        ensures place { result
            ≡ least_free (is_taken self.old) n (length self.old + 1 - n) 0 }
        ensures taken { IfSome result (λ at. self.new ≡ with_run self.old at n true) }
        ensures given { IfSome result (λ at. AreTaken self.new at n) }
        ensures unchanged { result ≡ None → self.new ≡ self.old }
    {
        let place = first_large(self.holes.as_slice(), n)?;
        let at = cut(&mut self.holes, place, n);
        self.spare -= n;
        Some(at)
    }

    /// Gives n granules back, from that place on.
    pub fn give(&mut self, at: u32, n: u32)
        requires { AreTaken self.old at n }
        ensures { self.new ≡ with_run self.old at n false }
    {
        if n == 0 {
            return;
        }
        let before = holes_before(self.holes.as_slice(), at);
        release(&mut self.holes, before, Hole { at, count: n });
        self.spare += n;
    }

    /// How many granules are free.
    pub fn spare(&self) -> u32
        ensures { result ≡ count_by not self.now }
    {
        self.spare
    }

    /// The free granules: holes in order of place, none empty, no two touching.
    pub fn holes(&self) -> &[Hole]
        ensures free { self.now ≡ granules_of (length self.now) result.now }
        ensures apart { AreApart 0 (length self.now + 1) result.now }
    {
        self.holes.as_slice()
    }
}
