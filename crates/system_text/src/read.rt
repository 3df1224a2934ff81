//! From a text to a plan.
ghost use Rattle.std.specs.Prelude.{◌≡◌, Some, IfOk, IfErr, option_map};
ghost use Rattle.toml.specs.View.{table_view};
ghost use Rattle.jx_base.specs.declared.program.Plan.{Plan};
ghost use Rattle.system_text.specs.declared.fault.PlanFault.{PlanFault};
ghost use Rattle.system_text.specs.Description.{plan_fault, table_of, Describes, IsPlan};
ghost use Rattle.system_text.specs.Description.{IsPlanFault, one_class_plan};
ghost use Rattle.system_text.specs.Answers.{IsNamed, IsPlanOrMemory, IsFaultOrMemory};

use crate::fault::{PlanError, PlanFault};
use crate::plan_faults::plan_fault;
use crate::plans::plan_of;
use crate::texts::name_of;
use jx_base::{Listed, OutOfMemory, Plan, Template, text_of};
use std::alloc::{AllocError, Global};
use toml::Table;

fn table_of(alloc: Global, bytes: &[u8]) -> Result<Option<Table>, OutOfMemory>
    ensures { IfOk result (λ table. option_map table_view table ≡ table_of bytes.now) }
{
    match toml::table_from_slice(alloc, bytes) {
        Ok(table) => Ok(Some(table)),
        Err(error) => {
            if error.is_memory() {
                Err(AllocError)
            } else {
                Ok(None)
            }
        }
    }
}

fn read_table(alloc: Global, table: &Table) -> Result<Plan, PlanError>
    ensures found { IfOk result (IsPlan (table_view table.now)) }
    ensures fault { IfErr result (IsNamed (λ f. plan_fault (table_view table.now) ≡ Some f)) }
{
    match plan_fault(alloc, table)? {
        Some(fault) => Err(PlanError::Bad(fault)),
        None => Ok(plan_of(alloc, table)?),
    }
}

fn read(alloc: Global, bytes: &[u8]) -> Result<Plan, PlanError>
    ensures found { IfOk result (Describes bytes.now) }
    ensures fault { IfErr result (IsNamed (IsPlanFault bytes.now)) }
{
    match table_of(alloc, bytes)? {
        Some(table) => read_table(alloc, &table),
        None => Err(PlanError::Bad(PlanFault::NotToml)),
    }
}

/// The plan that a TOML text describes, as docs/description.md says. Else `Bad` names the first
/// fault, and `OutOfMemory` says that memory was refused.
pub fn read_system(alloc: Global, bytes: &[u8]) -> Result<Plan, PlanError>
    ensures found { IfOk result (Describes bytes.now) }
    ensures fault { IfErr result (IsNamed (IsPlanFault bytes.now)) }
    ensures only { (plan : Plan) → Describes bytes.now plan → IsPlanOrMemory plan result }
    ensures only_fault { (f : PlanFault) → IsPlanFault bytes.now f → IsFaultOrMemory f result }
{
    read(alloc, bytes)
}

/// The plan of a system of one class, which is its one domain's main class. The domain is named
/// `main`.
#[tactic(auto, unfolding(crate::specs::Description::one_class_plan))]
pub fn one_class(alloc: Global, name: &str) -> Result<Plan, OutOfMemory>
    ensures { IfOk result (λ plan. plan ≡ one_class_plan name.now) }
{
    let template = Template {
        name: text_of(alloc, "main")?,
        main: 0,
        classes: Listed::from_vec(vec![in alloc; 0]?),
        heap: 1_024,
        fuel: 1_000_000,
        boot: true,
    };
    Ok(Plan {
        granules: 16_384,
        journal: 1_048_576,
        templates: Listed::from_vec(vec![in alloc; template]?),
        classes: Listed::from_vec(vec![in alloc; name_of(alloc, name)?]?),
    })
}
