//! Laws of histories. Each function answers nothing and promises the law.

ghost use Rattle.std.specs.Prelude.{◌≡◌};
ghost use Rattle.jx_model.specs.Growth.{GivesNumbersOnce, RefusalsChangeNothing, RunsOneThread};
ghost use Rattle.jx_base.specs.Histories.{past_of};
ghost use Rattle.jx_model.specs.Legal.{IsAdmitted};
ghost use Rattle.jx_model.specs.Moments.{BeginsWith};
ghost use Rattle.jx_model.specs.SingleWorker.{IsSingleWorkerHistory, single_worker_history};
ghost use Rattle.jx_model.specs.WellMade.{IsWellMade, IsWellMadeTest};
ghost use Rattle.jx_model.specs.WhyNot.{CanBeAsked, IsExplained};

use jx_base::{Act, DomainId, History, System};

/// What an admitted history begins with is admitted.
pub fn start_is_admitted(system: &System, start: &History, whole: &History)
    requires begins { BeginsWith whole.now start.now }
    requires admitted { IsAdmitted system.now whole.now }
    ensures { IsAdmitted system.now start.now }
{}

/// An act that is well made stays so as the history grows.
pub fn act_stays_well_made(system: &System, start: &History, whole: &History, act: &Act)
    requires begins { BeginsWith whole.now start.now }
    requires well_made { IsWellMade system.now (past_of start.now) act.now }
    ensures { IsWellMade system.now (past_of whole.now) act.now }
{}

/// Domains, services, calls and memory objects are numbered from 1, each number given once.
pub fn numbers_are_given_once(system: &System, history: &History)
    requires { IsAdmitted system.now history.now }
    ensures { GivesNumbersOnce (past_of history.now) }
{}

/// At most one thread of a domain runs.
pub fn one_thread_runs(system: &System, history: &History)
    requires { IsAdmitted system.now history.now }
    ensures { RunsOneThread (past_of history.now) }
{}

/// A refused entry changes nothing but the answer of the call that it answers and its own thread.
pub fn refusals_change_nothing(system: &System, history: &History)
    requires { IsAdmitted system.now history.now }
    ensures { RefusalsChangeNothing system.now (past_of history.now) }
{}

/// An act is permitted exactly where no reason against it is given.
pub fn reasons_are_given(system: &System, history: &History, domain: DomainId, act: &Act)
    requires { CanBeAsked system.now (past_of history.now) domain.0 act.now }
    ensures { IsExplained system.now (past_of history.now) domain.0 act.now }
{}

/// The test of what is well made says what is.
pub fn well_made_is_tested(system: &System, history: &History, act: &Act)
    ensures { IsWellMadeTest system.now (past_of history.now) act.now }
{}

/// One worker of a system has at most one history, which is the computed one.
pub fn one_worker_has_one_history(system: &System, history: &History, other: &History)
    requires history { IsSingleWorkerHistory system.now history.now }
    requires other { IsSingleWorkerHistory system.now other.now }
    ensures same { history.now ≡ other.now }
    ensures computed { history.now.entries ≡ single_worker_history system.now }
{}
