//! Laws of linked systems. The functions answer nothing and promise the laws.

ghost use Rattle.std.specs.Prelude.{◌<◌, ◌^◌};
ghost use Rattle.interp_core.specs.Cores.{HasShortCodes};
ghost use Rattle.link_model.specs.LinkFaults.{IsLinked};
ghost use Rattle.machine_replies.specs.Leaving.{CanRun};
ghost use Rattle.machine_steps.specs.Stepping.{AreListed};
ghost use Rattle.program_model.specs.Lookup.{class_count};

use jx_base::{ClassFile, Listed, Plan, System};

/// The instructions that a linked system has of a method are those that its code reads, and its code is short.
pub fn linked_is_listed(plan: &Plan, files: &Listed<ClassFile>, system: &System)
    requires { IsLinked plan.now files.now system.now }
    ensures listed { AreListed system.now }
    ensures short { HasShortCodes system.now }
{}

/// Domains of a linked system can be run, where its classes have numbers of 32 bits.
pub fn linked_can_run(plan: &Plan, files: &Listed<ClassFile>, system: &System)
    requires linked { IsLinked plan.now files.now system.now }
    requires numbers { class_count system.now < 2 ^ 32 }
    ensures { CanRun system.now }
{}
