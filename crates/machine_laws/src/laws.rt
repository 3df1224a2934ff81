//! Each function answers nothing and promises the law.

ghost use Rattle.jx_base.specs.Histories.{own_entries, past_of};
ghost use Rattle.jx_model.specs.Legal.{IsAdmitted};
ghost use Rattle.machine_laws.specs.Law.{AskedIsWellMade, NextIsWellMade, StandingHoldsValues};
ghost use Rattle.machine_laws.specs.Law.{StandingCoresHold, StatesHoldValues};
ghost use Rattle.machine_laws.specs.Sound.{IsSound};
ghost use Rattle.machine_laws.specs.Standing.{StandingHolds};

use jx_base::{DomainId, History, System};

/// What a state says that stands for a domain on the way to its next act.
pub fn runs_stand(system: &System, history: &History, domain: DomainId, template: u32)
    ensures { StandingHolds system.now template (own_entries (past_of history.now) domain.0) }
{}

/// The state of a domain holds values of its history, after its own entries and on the way to its
/// next act.
pub fn state_holds_values(system: &System, history: &History)
    requires sound { IsSound system.now }
    requires admitted { IsAdmitted system.now history.now }
    ensures settled { StatesHoldValues system.now (past_of history.now) }
    ensures standing { StandingHoldsValues system.now (past_of history.now) }
{}

/// The act that a domain's code performs next is well made.
pub fn next_act_is_well_made(system: &System, history: &History)
    requires sound { IsSound system.now }
    requires admitted { IsAdmitted system.now history.now }
    ensures next { NextIsWellMade system.now (past_of history.now) }
    ensures asked { AskedIsWellMade system.now (past_of history.now) }
{}

/// A thread that goes on can be stepped, in each state that stands for a domain on the way to its
/// next act.
pub fn standing_cores_hold(system: &System, history: &History)
    requires sound { IsSound system.now }
    requires admitted { IsAdmitted system.now history.now }
    ensures { StandingCoresHold system.now (past_of history.now) }
{}
