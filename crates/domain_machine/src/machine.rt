//! The machine of a domain.
ghost use Rattle.std.specs.Prelude.{[], IfOk, IsSome};
ghost use Rattle.domain_machine.specs.Machines.{HasArrived, HasRun, HasTaken, IsEntryOf};
ghost use Rattle.domain_machine.specs.Machines.{IsMachineOf, StandsFor};
ghost use Rattle.machine_replies.specs.Leaving.{CanRun};
ghost use Rattle.program_model.specs.Lookup.{template_at};

use crate::advancing::run_held;
use crate::entries::take_entry;
use crate::fate::{Fate, fate_after};
use crate::held::Held;
use crate::next::Next;
use crate::starting::first_held;
use jx_base::{Entry, OutOfMemory, Reason, System};
use jx_model::Follower;
use std::alloc::Global;
use std::marker::Model;

/// Runs the code of one domain, from act to act. It stands for a template of a system and for the
/// domain's own entries (`StandsFor`). One that was refused memory is spent.
#[derive(Drop)]
pub struct Machine {
    held: Held,
    fate: Fate,
}

impl Model for Machine {
    ghost use Rattle.domain_machine.specs.Machines.{MachineState};
    ghost use Rattle.domain_machine.specs.Entering.{held_state};

    ghost Value = { MachineState };

    ghost view = { λ machine. record { fate = machine.fate; state = held_state machine.held } };
}

impl Follower for Machine {
    ghost use Rattle.domain_machine.specs.Machines.{StandsFor};

    ghost stands = { λ machine s t own. StandsFor s t own machine };
}

impl Machine {
    /// A domain of the template of that place, before its first instruction.
    pub fn start(alloc: Global, system: &System, template: u32) -> Result<Machine, OutOfMemory>
        requires system { CanRun system.now }
        requires template { IsSome (template_at system.now template) }
        ensures { IfOk result (λ machine. StandsFor system.now template [] machine) }
    {
        let (held, bad) = first_held(alloc, system, template)?;
        Ok(Machine {
            held,
            fate: fate_after(bad),
        })
    }

    /// Runs instructions up to the next act, and says what it is. Run again, it says the same, and
    /// packs the act anew.
    pub fn run(&mut self, alloc: Global, system: &System) -> Result<Next, OutOfMemory>
        requires { IsMachineOf system.now self.old }
        ensures { IfOk result (HasRun system.now self.old self.new) }
    {
        match self.fate {
            Fate::MetBadCode => Ok(Next::End(Reason::BadCode)),
            Fate::Over => Ok(Next::Idle),
            Fate::OnTheWay | Fate::AtAct => match run_held(alloc, system, &mut self.held)? {
                Some(next) => {
                    self.fate = Fate::AtAct;
                    Ok(next)
                }
                None => {
                    self.fate = Fate::MetBadCode;
                    Ok(Next::End(Reason::BadCode))
                }
            },
        }
    }

    // Runs up to the next act, where that wasn't done.
    fn arrive(&mut self, alloc: Global, system: &System) -> Result<(), OutOfMemory>
        requires { IsMachineOf system.now self.old }
        ensures { IfOk result (λ _. HasArrived system.now self.old self.new) }
    {
        match self.fate {
            Fate::OnTheWay => {
                self.run(alloc, system)?;
                Ok(())
            }
            Fate::AtAct | Fate::MetBadCode | Fate::Over => Ok(()),
        }
    }

    /// Takes the entry of the act that `run` gave, or of a choice where it gave `Idle`.
    pub fn took(&mut self, alloc: Global, system: &System, entry: &Entry) -> Result<(), OutOfMemory>
        requires { IsEntryOf system.now self.old entry.now }
        ensures { IfOk result (λ _. HasTaken system.now self.old self.new entry.now) }
    {
        self.arrive(alloc, system)?;
        match self.fate {
            Fate::AtAct => {
                let bad = take_entry(alloc, system, &mut self.held, entry)?;
                self.fate = fate_after(bad);
                Ok(())
            }
            Fate::MetBadCode => {
                self.fate = Fate::Over;
                Ok(())
            }
            Fate::OnTheWay | Fate::Over => Ok(()),
        }
    }
}
