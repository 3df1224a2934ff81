//! Keys that are not known.
ghost use Rattle.std.specs.Prelude.{◌≡◌, IfOk, find, not, option_map};
ghost use Rattle.toml.specs.View.{table_view};
ghost use Rattle.system_text.specs.Keys.{domain_key, has_text, keys_in, unknown_fault};
ghost use Rattle.system_text.specs.Description.{domain_keys, top_keys, unknown_in_domains};
ghost use Rattle.system_text.specs.Scan.{tables_at, texts_at};

use crate::fault::PlanFault;
use crate::texts::{any_domain_key, is_among, units_of};
use jx_base::OutOfMemory;
use std::alloc::Global;
use toml::Table;

fn unknown_key<'a>(known: &[&str], table: &'a Table) -> Option<&'a str>
    ensures { option_map (λ key. key.now) result
        ≡ find (λ key. not (has_text (texts_at known.now) key)) (keys_in (table_view table.now)) }
{
    for key in table.keys() {
        if !is_among(known, key.as_str()) {
            return Some(key.as_str());
        }
    }
    None
}

/// The fault of the first key of the description that is not known.
#[tactic(auto, unfolding(crate::specs::Keys::unknown_fault, crate::specs::Description::top_keys))]
pub fn unknown_top_fault(alloc: Global, table: &Table) -> Result<Option<PlanFault>, OutOfMemory>
    ensures { IfOk result (λ fault. fault
        ≡ unknown_fault top_keys (λ key. key) (table_view table.now)) }
{
    match unknown_key(&["granules", "journal", "domain"], table) {
        Some(key) => Ok(Some(PlanFault::Unknown(units_of(alloc, key)?))),
        None => Ok(None),
    }
}

#[tactic(auto, unfolding(crate::specs::Keys::unknown_fault, crate::specs::Description::domain_keys))]
fn unknown_domain_fault(
    alloc: Global,
    number: usize,
    table: &Table,
) -> Result<Option<PlanFault>, OutOfMemory>
    ensures { IfOk result (λ fault. fault
        ≡ unknown_fault domain_keys (domain_key number) (table_view table.now)) }
{
    let known = ["name", "classes", "main", "heap", "fuel", "boot"];
    match unknown_key(&known, table) {
        Some(key) => Ok(Some(PlanFault::Unknown(any_domain_key(alloc, number, key)?))),
        None => Ok(None),
    }
}

/// The fault of the first key of a domain that is not known.
pub fn unknown_in_domains(
    alloc: Global,
    domains: &[&Table],
) -> Result<Option<PlanFault>, OutOfMemory>
    ensures { IfOk result (λ fault. fault ≡ unknown_in_domains 0 (tables_at domains.now)) }
{
    for (number, table) in domains.iter().enumerate() {
        let fault = unknown_domain_fault(alloc, number, table)?;
        if fault.is_some() {
            return Ok(fault);
        }
    }
    Ok(None)
}
