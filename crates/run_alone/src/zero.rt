//! What Domain Zero does.
ghost use Rattle.std.specs.Prelude.{◌≡◌, IfOk, None, Some, false, true};
ghost use Rattle.jx_model.specs.Journal.{is_full};
ghost use Rattle.jx_model.specs.Permits.{next_boot};
ghost use Rattle.run_alone.specs.Workers.{HasGoneOn, IsDone, IsGoing, IsTurnOf, past_in};
ghost use Rattle.run_alone.specs.Ends.{IsLast};

use crate::actor::first_actor;
use crate::worker::Worker;
use jx_base::{Act, DomainId, OutOfMemory, System};
use nucleus::Step;
use std::alloc::Global;

impl Worker {
    // Enters the act that ends the run.
    fn end_run(&mut self, alloc: Global, system: &System, act: Act)
        requires worker { IsGoing system.now self.old }
        requires last { IsLast system.now (past_in self.old) act }
        ensures { IsDone system.now self.new }
    {
        match self.nucleus.step(alloc, system, DomainId(0), act) {
            Step::Replied(..) => {}
            _ => {
                // The act is permitted.
                unreachable!();
            }
        }
    }

    /// Ends the run, whose journal is full.
    pub fn halt(&mut self, alloc: Global, system: &System)
        requires worker { IsGoing system.now self.old }
        requires full { is_full system.now (past_in self.old) ≡ true }
        ensures { IsDone system.now self.new }
    {
        self.end_run(alloc, system, Act::Halt);
    }

    /// Ends the run, in which nobody can act.
    pub fn rest(&mut self, alloc: Global, system: &System)
        requires worker { IsGoing system.now self.old }
        requires turn { IsTurnOf system.now (past_in self.old) None }
        ensures { IsDone system.now self.new }
    {
        self.end_run(alloc, system, Act::Quiet);
    }

    /// Creates the next domain of the start, or is refused it.
    pub fn create(
        &mut self,
        alloc: Global,
        system: &System,
        template: u32,
    ) -> Result<(), OutOfMemory>
        requires worker { IsGoing system.now self.old }
        requires room { is_full system.now (past_in self.old) ≡ false }
        requires boot { next_boot system.now (past_in self.old) ≡ Some template }
        ensures { IfOk result (λ _. HasGoneOn system.now self.old self.new) }
    {
        match self
            .nucleus
            .step(alloc, system, DomainId(0), Act::Create(template))
        {
            Step::Born(..) => {
                self.actors.push(first_actor(alloc, system, template)?)?;
                Ok(())
            }
            Step::Replied(..) => Ok(()),
            _ => {
                // The create is permitted.
                unreachable!();
            }
        }
    }
}
