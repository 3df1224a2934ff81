//! The threads of one domain.
ghost use Rattle.std.specs.Prelude.{◌≡◌, ◌+◌, ◌++◌, ◌<◌, ◌≤◌, [], IfOk, length, map, replicate, option_map, slice_get};
ghost use Rattle.std.specs.List.{position};
ghost use Rattle.std.specs.Option.{option_map};
ghost use Rattle.domain_table.specs.DomainLists.{has_yielded, is_idle, is_running, record_of, waits_for, with_state};
ghost use Rattle.table_threads.specs.Changes.{changed_at};
ghost use Rattle.table_threads.specs.ThreadChanges.{first_records, idle_record};

use crate::rows::ThreadRow;
use jx_base::{CallId, OutOfMemory, ServiceId, ThreadState};
use std::alloc::Global;
use std::marker::Model;

fn first_running(rows: &[ThreadRow]) -> Option<usize>
    ensures { result ≡ position (λ row. is_running (record_of row)) rows.now }
{
    rows.iter().position(|row| row.is_running())
}

fn first_yielded(rows: &[ThreadRow]) -> Option<usize>
    ensures { result ≡ position (λ row. has_yielded (record_of row)) rows.now }
{
    rows.iter().position(|row| row.has_yielded())
}

fn first_idle(rows: &[ThreadRow], service: ServiceId) -> Option<usize>
    ensures { result ≡ position (λ row. is_idle service.0 (record_of row)) rows.now }
{
    rows.iter().position(|row| row.is_idle_for(service))
}

fn first_waiting(rows: &[ThreadRow], call: CallId) -> Option<usize>
    ensures { result ≡ position (λ row. waits_for call.0 (record_of row)) rows.now }
{
    rows.iter().position(|row| row.waits_for(call))
}

/// The threads of a domain by their numbers, with room for so many, which is reserved.
#[derive(Drop)]
pub struct Threads {
    rows: Vec<ThreadRow>,
    room: usize,
}

impl Model for Threads {
    ghost use Rattle.std.specs.Prelude.{◌≤◌, length, map, vec_capacity};
    ghost use Rattle.domain_table.specs.DomainLists.{ThreadsState, record_of};

    ghost Value = { ThreadsState };

    ghost view = { λ threads. record { records = map record_of threads.rows.items; room = threads.room } };

    ghost invariant = { λ threads. (length threads.rows.items ≤ threads.room)
        × (threads.room ≤ vec_capacity threads.rows) };
}

impl Threads {
    /// No threads yet.
    pub fn with_room(alloc: Global, room: usize) -> Result<Threads, OutOfMemory>
        ensures { IfOk result (λ threads. threads ≡ record { records = []; room = room }) }
    {
        Ok(Threads {
            rows: Vec::with_capacity(alloc, room)?,
            room,
        })
    }

    /// Puts the thread that runs first behind the others. Takes no memory.
    pub fn add_first(&mut self)
        requires { length self.old.records < self.old.room }
        ensures { self.new ≡ record self.old { records = self.old.records ++ first_records } }
    {
        self.rows.push_reserved(ThreadRow {
            service: None,
            state: ThreadState::Running,
            serves: None,
        });
    }

    /// Puts so many idle threads of the service behind the others. Takes no memory.
    pub fn add_idle(&mut self, service: ServiceId, count: u8)
        requires { length self.old.records + count ≤ self.old.room }
        ensures { self.new ≡ record self.old {
          records = self.old.records ++ map idle_record (replicate count service);
        } }
    {
        for _ in 0..count {
            self.rows.push_reserved(ThreadRow::idle(service));
        }
    }

    pub fn get(&self, thread: u32) -> Option<ThreadRow>
        ensures { option_map record_of result ≡ slice_get self.now.records thread }
    {
        self.rows.get(thread as usize).copied()
    }

    /// The least thread that runs.
    pub fn running(&self) -> Option<usize>
        ensures { result ≡ position is_running self.now.records }
    {
        first_running(self.rows.as_slice())
    }

    /// The least thread that has yielded.
    pub fn yielded(&self) -> Option<usize>
        ensures { result ≡ position has_yielded self.now.records }
    {
        first_yielded(self.rows.as_slice())
    }

    /// The least thread that is idle for the service.
    pub fn idle(&self, service: ServiceId) -> Option<usize>
        ensures { result ≡ position (is_idle service.0) self.now.records }
    {
        first_idle(self.rows.as_slice(), service)
    }

    /// The least thread that waits for the call.
    pub fn waiting(&self, call: CallId) -> Option<usize>
        ensures { result ≡ position (waits_for call.0) self.now.records }
    {
        first_waiting(self.rows.as_slice(), call)
    }

    /// How many threads there are.
    pub fn len(&self) -> usize
        ensures { result ≡ length self.now.records }
    {
        self.rows.len()
    }

    pub fn set_state(&mut self, thread: u32, state: ThreadState)
        requires { thread < length self.old.records }
        ensures { self.new ≡ record self.old {
          records = changed_at thread (with_state state) self.old.records;
        } }
    {
        let row = self.rows[thread as usize];
        self.rows[thread as usize] = row.with_state(state);
    }
}
