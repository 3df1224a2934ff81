//! Queues of numbers, doubly linked, each number in one of them at most.
ghost use Rattle.std.specs.Prelude.{◌≡◌, ◌<◌, [], IfOk, length, replicate, slice_get};
ghost use Rattle.call_table.specs.QueueLists.{IsFree, IsIn, queue_at, with_last, without};
ghost use Rattle.table_threads.specs.Changes.{changed_at};

use crate::links::{Ends, Link, set_next, set_prev};
use jx_base::OutOfMemory;
use std::alloc::Global;
use std::marker::Model;

/// The queues by their places, of numbers below `room`. Only `open` takes memory, and each other
/// call takes constant time.
#[derive(Drop)]
pub struct Queues {
    ends: Vec<Ends>,
    links: Vec<Link>,
}

impl Model for Queues {
    ghost use Rattle.call_table.specs.Linked.{IsQueues, queues_state};
    ghost use Rattle.call_table.specs.QueueLists.{QueuesState};

    ghost Value = { QueuesState };

    ghost view = { queues_state };

    ghost invariant = { IsQueues };
}

impl Queues {
    /// So many empty queues.
    pub fn open(alloc: Global, queues: u32, room: u32) -> Result<Queues, OutOfMemory>
        ensures { IfOk result (λ q. q ≡ record { queues = replicate queues []; room = room }) }
    {
        let no_ends = Ends {
            first: None,
            last: None,
        };
        let no_link = Link {
            prev: None,
            next: None,
        };
        let mut ends = Vec::with_capacity(alloc, queues as usize)?;
        ends.resize(queues as usize, no_ends)?;
        let mut links = Vec::with_capacity(alloc, room as usize)?;
        links.resize(room as usize, no_link)?;
        Ok(Queues { ends, links })
    }

    /// The first number of a queue. `None` also where there is no such queue.
    pub fn first(&self, queue: u32) -> Option<u32>
        ensures { result ≡ slice_get (queue_at self.now queue) 0 }
    {
        self.ends.get(queue as usize)?.first
    }

    /// Puts a number behind the others of a queue.
    pub fn push(&mut self, queue: u32, number: u32)
        requires queue { queue < length self.old.queues }
        requires number { number < self.old.room }
        requires free { IsFree self.old number }
        ensures { self.new ≡ record self.old {
          queues = changed_at queue (with_last number) self.old.queues;
        } }
    {
        let ends = self.ends[queue as usize];
        self.links[number as usize] = Link {
            prev: ends.last,
            next: None,
        };
        set_next(&mut self.links, ends.last, Some(number));
        self.ends[queue as usize] = ends.with_last(number);
    }

    /// Takes a number out of its queue. The others keep their order.
    pub fn remove(&mut self, queue: u32, number: u32)
        requires queue { queue < length self.old.queues }
        requires there { IsIn self.old queue number }
        ensures { self.new ≡ record self.old {
          queues = changed_at queue (without number) self.old.queues;
        } }
    {
        let link = self.links[number as usize];
        set_next(&mut self.links, link.prev, link.next);
        set_prev(&mut self.links, link.next, link.prev);
        let ends = self.ends[queue as usize];
        self.ends[queue as usize] = ends.without(link);
    }
}
