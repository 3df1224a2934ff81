//! What the worker of a run holds.
ghost use Rattle.std.specs.Prelude.{◌≡◌, IfOk};
ghost use Rattle.jx_base.specs.Histories.{past_of};
ghost use Rattle.machine_replies.specs.Leaving.{CanRun};
ghost use Rattle.program_model.specs.Plans.{IsPlanInRange};
ghost use Rattle.run_alone.specs.Workers.{IsGoing, past_in};

use crate::actor::Actor;
use jx_base::{History, OutOfMemory, System};
use nucleus::Nucleus;
use std::alloc::Global;

/// The nucleus of the run, and the domains that were made, domain d at place d - 1.
#[derive(Drop)]
pub struct Worker {
    pub nucleus: Nucleus,
    pub actors: Vec<Actor>,
}

impl Worker {
    /// The worker before its first entry.
    pub fn open(alloc: Global, system: &System) -> Result<Worker, OutOfMemory>
        requires machines { CanRun system.now }
        requires plan { IsPlanInRange system.now.plan }
        ensures { IfOk result (IsGoing system.now) }
    {
        Ok(Worker {
            nucleus: Nucleus::open(alloc, system)?,
            actors: Vec::new(alloc),
        })
    }

    /// The history of all entries.
    pub fn close(self) -> History
        ensures { past_of result ≡ past_in self }
    {
        self.nucleus.close()
    }
}
