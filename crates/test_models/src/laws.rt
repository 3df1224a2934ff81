//! Laws of the first system. The function answers nothing and promises the law.

ghost use Rattle.std.specs.Prelude.{◌≡◌};
ghost use Rattle.audit_model.specs.AuditText.{audit_text};
ghost use Rattle.link_model.specs.LinkFaults.{IsLinked};
ghost use Rattle.jx_model.specs.SingleWorker.{IsSingleWorkerHistory};
ghost use Rattle.test_models.specs.FirstSystem.{first_plan, first_files, first_system};
ghost use Rattle.test_models.specs.FirstSystem.{first_history, first_audit, EndsQuiet};

/// The first system is linked, one worker's history of it is complete and ends in quiet, and the
/// audit of that history is the first audit.
pub fn first_system_prints()
    ensures linked { IsLinked first_plan first_files first_system }
    ensures history { IsSingleWorkerHistory first_system first_history }
    ensures quiet { EndsQuiet first_history }
    ensures audit { audit_text first_system first_history ≡ first_audit }
{}
