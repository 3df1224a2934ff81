//! A law of audits. The function answers nothing and promises the law.

ghost use Rattle.audit_laws.specs.OneText.{AuditsDiffer};
ghost use Rattle.program_model.specs.DistinctNames.{HasDistinctNames};

use jx_base::System;

/// No two admitted histories of a system have the same audit.
pub fn audits_differ(system: &System)
    requires { HasDistinctNames system.now }
    ensures { AuditsDiffer system.now }
{}
