//! The turn of a domain.
ghost use Rattle.std.specs.Prelude.{◌≡◌, IfErr, IfOk, Some, false, true};
ghost use Rattle.jx_model.specs.Journal.{is_full};
ghost use Rattle.jx_model.specs.Permits.{can_act};
ghost use Rattle.supported_acts.specs.SupportedActs.{IsSupported};
ghost use Rattle.run_alone.specs.RunsAlone.{IsStop};
ghost use Rattle.run_alone.specs.Workers.{FindsAct, HasGoneOn, IsGoing, IsTurn, IsTurnOf};
ghost use Rattle.run_alone.specs.Workers.{SaysNext, past_in};

use crate::actor::{run_actor, take_entry};
use crate::stopped::Stopped;
use crate::worker::Worker;
use domain_machine::Next;
use jx_base::{Act, DomainId, OutOfMemory, System};
use nucleus::Step;
use std::alloc::{AllocError, Global};
use supported_acts::is_supported;

impl Worker {
    // What the domain's code does next.
    fn next_of(
        &mut self,
        alloc: Global,
        system: &System,
        domain: DomainId,
    ) -> Result<Next, OutOfMemory>
        requires worker { IsGoing system.now self.old }
        requires live { can_act (past_in self.old) domain.0 ≡ true }
        ensures { IfOk result (SaysNext system.now self.old self.new domain.0) }
    {
        run_actor(alloc, system, &mut self.actors[domain.0 as usize - 1])
    }

    // The act of the domain's turn: that of its code, or its first choice.
    fn act_of_turn(
        &mut self,
        alloc: Global,
        system: &System,
        domain: DomainId,
    ) -> Result<Act, OutOfMemory>
        requires worker { IsGoing system.now self.old }
        requires live { can_act (past_in self.old) domain.0 ≡ true }
        requires room { is_full system.now (past_in self.old) ≡ false }
        ensures { IfOk result (FindsAct system.now self.old self.new domain.0) }
    {
        match self.next_of(alloc, system, domain)? {
            Next::Act(act) => Ok(act),
            Next::End(reason) => Ok(Act::End(reason)),
            Next::Idle => match self.nucleus.choice(system, domain) {
                Some(act) => Ok(act),
                None => {
                    // A domain that can act and in which no thread runs has a choice.
                    unreachable!();
                }
            }
        }
    }

    // Enters the act of the domain's turn.
    fn enter(
        &mut self,
        alloc: Global,
        system: &System,
        domain: DomainId,
        act: Act,
    ) -> Result<(), OutOfMemory>
        requires worker { IsGoing system.now self.old }
        requires turn { IsTurn system.now (past_in self.old) domain.0 act }
        requires supported { IsSupported act }
        ensures { IfOk result (λ _. HasGoneOn system.now self.old self.new) }
    {
        match self.nucleus.step(alloc, system, domain, act) {
            Step::Replied(..) => {}
            Step::OutOfMemory => return Err(AllocError),
            _ => {
                // The act is permitted.
                unreachable!();
            }
        }
        let place = domain.0 as usize - 1;
        take_entry(alloc, system, &mut self.actors[place], self.nucleus.last())
    }

    /// The domain acts.
    pub fn take_turn(
        &mut self,
        alloc: Global,
        system: &System,
        domain: DomainId,
    ) -> Result<(), Stopped>
        requires worker { IsGoing system.now self.old }
        requires turn { IsTurnOf system.now (past_in self.old) (Some domain.0) }
        ensures on { IfOk result (λ _. HasGoneOn system.now self.old self.new) }
        ensures stop { IfErr result (IsStop system.now) }
    {
        let act = self.act_of_turn(alloc, system, domain)?;
        if !is_supported(&act) {
            return Err(Stopped::NoCode(self.actors[domain.0 as usize - 1].template));
        }
        self.enter(alloc, system, domain, act)?;
        Ok(())
    }
}
