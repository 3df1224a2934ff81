//! The first fault of a description's table.
ghost use Rattle.std.specs.Prelude.{◌≡◌, IfOk};
ghost use Rattle.toml.specs.View.{table_view};
ghost use Rattle.system_text.specs.Description.{domains_in};
ghost use Rattle.system_text.specs.Scan.{machine_fault, scanned_fault, tables_at};
ghost use Rattle.system_text.specs.Scan.{unknown_key_fault};

use crate::domain_faults::{domains_fault, optional_domains_fault};
use crate::fault::PlanFault;
use crate::unknown_keys::{unknown_in_domains, unknown_top_fault};
use crate::value_faults::{optional_number_fault, required_number_fault};
use crate::values::domains_in;
use jx_base::{OutOfMemory, text_of};
use std::alloc::Global;
use toml::Table;

#[tactic(auto, unfolding(crate::specs::Scan::machine_fault, crate::specs::Keys::first_fault))]
fn machine_fault(alloc: Global, table: &Table) -> Result<Option<PlanFault>, OutOfMemory>
    ensures { IfOk result (λ fault. fault ≡ machine_fault (table_view table.now)) }
{
    let key = text_of(alloc, "granules")?;
    if let Some(fault) = required_number_fault(key, 1, 262_144, table, "granules") {
        return Ok(Some(fault));
    }
    let key = text_of(alloc, "journal")?;
    if let Some(fault) = optional_number_fault(key, 8_208, 16_777_216, table, "journal") {
        return Ok(Some(fault));
    }
    optional_domains_fault(alloc, table)
}

#[tactic(auto, unfolding(crate::specs::Scan::unknown_key_fault, crate::specs::Keys::first_fault))]
fn unknown_key_fault(
    alloc: Global,
    table: &Table,
    domains: &[&Table],
) -> Result<Option<PlanFault>, OutOfMemory>
    requires { tables_at domains.now ≡ domains_in (table_view table.now) }
    ensures { IfOk result (λ fault. fault ≡ unknown_key_fault (table_view table.now)) }
{
    if let Some(fault) = unknown_top_fault(alloc, table)? {
        return Ok(Some(fault));
    }
    unknown_in_domains(alloc, domains)
}

/// The first fault, in the order of docs/description.md.
#[tactic(auto, unfolding(crate::specs::Scan::scanned_fault, crate::specs::Keys::first_fault))]
pub fn plan_fault(alloc: Global, table: &Table) -> Result<Option<PlanFault>, OutOfMemory>
    ensures { IfOk result (λ fault. fault ≡ scanned_fault (table_view table.now)) }
{
    if let Some(fault) = machine_fault(alloc, table)? {
        return Ok(Some(fault));
    }
    let domains = domains_in(alloc, table)?;
    if let Some(fault) = domains_fault(alloc, domains.as_slice())? {
        return Ok(Some(fault));
    }
    unknown_key_fault(alloc, table, domains.as_slice())
}
