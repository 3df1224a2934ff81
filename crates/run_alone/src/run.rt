//! The history of one worker.
ghost use Rattle.std.specs.Prelude.{◌≡◌, IfErr, IfOk};
ghost use Rattle.jx_model.specs.SingleWorker.{IsSingleWorkerHistory};
ghost use Rattle.machine_replies.specs.Leaving.{CanRun};
ghost use Rattle.program_model.specs.Plans.{IsPlanInRange};
ghost use Rattle.run_alone.specs.RunsAlone.{IsStop};
ghost use Rattle.run_alone.specs.Workers.{HasActed, HasRoom, IsGoing, past_in};
ghost use Rattle.supported_acts.specs.SupportedActs.{HasSupportedActs};

use crate::stopped::Stopped;
use crate::worker::Worker;
use jx_base::{History, System};
use std::alloc::Global;

impl Worker {
    // The act of the domain whose turn it is, or quiet. Whether the run goes on.
    fn act_in_turn(&mut self, alloc: Global, system: &System) -> Result<bool, Stopped>
        requires worker { IsGoing system.now self.old }
        requires room { HasRoom system.now (past_in self.old) }
        ensures acted { IfOk result (HasActed system.now self.old self.new) }
        ensures stop { IfErr result (IsStop system.now) }
    {
        match self.next_domain(system) {
            Some(domain) => {
                self.take_turn(alloc, system, domain)?;
                Ok(true)
            }
            None => {
                self.rest(alloc, system);
                Ok(false)
            }
        }
    }

    // What one worker does next. Whether the run goes on.
    fn act(&mut self, alloc: Global, system: &System) -> Result<bool, Stopped>
        requires worker { IsGoing system.now self.old }
        ensures acted { IfOk result (HasActed system.now self.old self.new) }
        ensures stop { IfErr result (IsStop system.now) }
    {
        if self.nucleus.is_full(system) {
            self.halt(alloc, system);
            return Ok(false);
        }
        match self.nucleus.next_boot(system) {
            Some(template) => {
                self.create(alloc, system, template)?;
                Ok(true)
            }
            None => self.act_in_turn(alloc, system),
        }
    }
}

/// Runs the system with one worker up to quiet or halt, and gives the whole history. It waits for
/// nobody.
pub fn run_alone(alloc: Global, system: &System) -> Result<History, Stopped>
    requires machines { CanRun system.now }
    requires plan { IsPlanInRange system.now.plan }
    ensures history { IfOk result (IsSingleWorkerHistory system.now) }
    ensures supported { IfOk result HasSupportedActs }
    ensures stop { IfErr result (IsStop system.now) }
{
    let mut worker = Worker::open(alloc, system)?;
    let mut going = true;
    while going {
        going = worker.act(alloc, system)?;
    }
    Ok(worker.close())
}
