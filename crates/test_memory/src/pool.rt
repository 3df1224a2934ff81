//! A pool that takes and gives what can be taken and given.
ghost use Rattle.std.specs.Prelude.{◌≡◌, true, length};
ghost use Rattle.std.specs.List.{list_all};
ghost use Rattle.extent_pool.specs.Taken.{AreTaken};
ghost use Rattle.test_memory.specs.Checks.{lies_apart};

use extent_pool::{Hole, Pool};
use jx_base::OutOfMemory;
use std::alloc::Global;

/// A pool, with the number of its granules.
#[derive(Drop)]
pub struct Memory {
    pool: Pool,
    granules: u32,
    ghost size: { length pool ≡ granules },
}

// Whether a hole has none of the granules.
fn lies_apart(hole: &Hole, at: u32, n: u32) -> bool
    ensures { result ≡ lies_apart at n hole.now }
{
    let end = u64::from(hole.at) + u64::from(hole.count);
    end <= u64::from(at) || u64::from(at) + u64::from(n) <= u64::from(hole.at)
}

fn all_apart(holes: &[Hole], at: u32, n: u32) -> bool
    ensures { result ≡ list_all (lies_apart at n) holes.now }
{
    holes.iter().all(|hole| lies_apart(hole, at, n))
}

fn are_taken(pool: &Pool, granules: u32, at: u32, n: u32) -> bool
    requires { length pool.now ≡ granules }
    ensures { result ≡ true → AreTaken pool.now at n }
{
    if at > granules || granules - at < n {
        return false;
    }
    all_apart(pool.holes(), at, n)
}

impl Memory {
    pub fn open(alloc: Global, granules: u32) -> Result<Memory, OutOfMemory> {
        Ok(Memory {
            pool: Pool::open(alloc, granules)?,
            granules,
        })
    }

    pub fn take(&mut self, n: u32) -> Option<u32> {
        if n == 0 {
            return None;
        }
        self.pool.take(n)
    }

    /// Gives the granules, where they are taken.
    pub fn give(&mut self, at: u32, n: u32) -> bool {
        let taken = are_taken(&self.pool, self.granules, at, n);
        if taken {
            self.pool.give(at, n);
        }
        taken
    }

    pub fn spare(&self) -> u32 {
        self.pool.spare()
    }

    /// Whether these are the holes, each a place and a count.
    pub fn has_holes(&self, holes: &[(u32, u32)]) -> bool {
        let own = self.pool.holes();
        own.len() == holes.len()
            && own
                .iter()
                .zip(holes)
                .all(|(hole, due)| hole.at == due.0 && hole.count == due.1)
    }
}
