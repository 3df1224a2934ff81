//! Where text goes.
ghost use Rattle.std.specs.Prelude.{◌≡◌, ◌+◌, ◌≤◌, ◌++◌, [], IfOk, length, is_err};
ghost use Rattle.std.specs.Prelude.{vec_len, vec_capacity};
ghost use Rattle.jx_base.specs.Puts.{Puts, SinkState};
ghost use Rattle.jx_base.specs.InMemory.{put_fails, after_put, shown_by_sink};

use crate::OutOfMemory;
use crate::shelf::is_listed;
use std::alloc::Global;
use std::marker::Model;

/// A fault of a sink.
#[derive(Clone, Copy)]
pub struct Failed;

/// A place that takes bytes.
pub trait Sink {
    /// The bytes that were taken, where the sink tells them, and how often it has failed.
    ghost state: { Self → SinkState };

    /// Puts the piece behind what was taken.
    fn put(&mut self, bytes: &[u8]) -> Result<(), Failed>
        ensures puts { Puts bytes.now (state self.old) (state self.new) result };
}

/// A sink in memory. A put fails where its place, from 0, is listed, and then takes nothing, or
/// where the piece is longer than the room left, and then takes what fits.
#[derive(Drop)]
pub struct MemorySink {
    taken: Vec<u8>,
    room: usize,
    failing: Vec<u32>,
    calls: u64,
    faults: u64,
}

impl Model for MemorySink {
    ghost use Rattle.std.specs.Prelude.{length, ◌≤◌, vec_capacity};
    ghost use Rattle.jx_base.specs.InMemory.{MemorySinkState};

    ghost Value = { MemorySinkState };

    ghost view = { λ sink. record {
      taken = sink.taken.items;
      room = sink.room;
      failing = sink.failing.items;
      calls = sink.calls;
      faults = sink.faults;
    } };

    ghost invariant = { λ sink. (length sink.taken.items ≤ sink.room)
        × (sink.room ≤ vec_capacity sink.taken) };
}

impl MemorySink {
    /// Reserves room for so many bytes. The puts take no memory.
    pub fn open(alloc: Global, room: u32, failing: Vec<u32>) -> Result<MemorySink, OutOfMemory>
        ensures { IfOk result (λ sink.
            sink ≡ record {
              taken = [];
              room = room;
              failing = failing.items;
              calls = 0;
              faults = 0;
            }) }
    {
        let room = room as usize;
        Ok(MemorySink {
            taken: Vec::with_capacity(alloc, room)?,
            room,
            failing,
            calls: 0,
            faults: 0,
        })
    }

    /// What was taken.
    pub fn bytes(&self) -> &[u8]
        ensures { result.now ≡ self.now.taken }
    {
        self.taken.as_slice()
    }
}

// Takes bytes for which there is room.
fn take(taken: &mut Vec<u8>, bytes: &[u8])
    requires { vec_len taken.old + length bytes.now ≤ vec_capacity taken.old }
    ensures items { taken.new.items ≡ taken.old.items ++ bytes.now }
    ensures capacity { vec_capacity taken.old ≤ vec_capacity taken.new }
{
    taken.extend_from_slice(bytes).unwrap();
}

impl Sink for MemorySink {
    ghost state = { shown_by_sink };

    fn put(&mut self, bytes: &[u8]) -> Result<(), Failed>
        ensures puts { Puts bytes.now (shown_by_sink self.old) (shown_by_sink self.new) result }
        ensures fails { is_err result ≡ put_fails self.old bytes.now }
        ensures after { self.new ≡ after_put self.old bytes.now }
    {
        let place = self.calls;
        self.calls = place.saturating_add(1);
        if is_listed(&self.failing, place) {
            self.faults = self.faults.saturating_add(1);
            return Err(Failed);
        }
        let left = self.room - self.taken.len();
        if bytes.len() > left {
            let (front, _rest) = bytes.split_at(left);
            take(&mut self.taken, front);
            self.faults = self.faults.saturating_add(1);
            return Err(Failed);
        }
        take(&mut self.taken, bytes);
        Ok(())
    }
}
