//! Laws of runs. Each function answers nothing and promises the law.
ghost use Rattle.std.specs.Prelude.{◌≡◌};
ghost use Rattle.jx_base.specs.Histories.{past_of};
ghost use Rattle.jx_model.specs.Legal.{IsLegal};
ghost use Rattle.jx_model.specs.SingleWorker.{IsSingleWorkerHistory};
ghost use Rattle.run_alone.specs.RunLaws.{PerformOwnActs};
ghost use Rattle.supported_acts.specs.SupportedActs.{HasSupportedActs, LacksCode};

use jx_base::{History, System};

/// Each entry of a domain is of the act that its code performs next, or of a permitted choice where
/// that performs none.
pub fn code_performs_its_own_acts(system: &System, history: &History)
    requires { IsLegal system.now history.now }
    ensures { PerformOwnActs system.now (past_of history.now) }
{}

/// Where one worker comes to an act without code, no history of one worker has only acts with code.
pub fn lack_leaves_no_history(system: &System, template: u32, history: &History)
    requires lack { LacksCode system.now template }
    requires history { IsSingleWorkerHistory system.now history.now }
    ensures { HasSupportedActs history.now → ⊥ }
{}

/// One worker comes to an act without code of one template at most.
pub fn lack_has_one_template(system: &System, template: u32, other: u32)
    requires lack { LacksCode system.now template }
    requires other { LacksCode system.now other }
    ensures { template ≡ other }
{}
