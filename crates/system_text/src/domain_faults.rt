//! The faults of domains.
ghost use Rattle.std.specs.Prelude.{◌≡◌, [], IfOk, codes, map};
ghost use Rattle.std.specs.List.{list_all};
ghost use Rattle.toml.specs.Data.{get_member};
ghost use Rattle.toml.specs.View.{table_view, view};
ghost use Rattle.system_text.specs.Keys.{is_table, optional_fault};
ghost use Rattle.system_text.specs.Description.{domain_array_fault};
ghost use Rattle.system_text.specs.Scan.{domain_items_fault, naming_fault, next_domain_fault};
ghost use Rattle.system_text.specs.Scan.{next_domains_fault, sizing_fault, tables_at, texts_at};

use crate::class_faults::{array_of, required_classes_fault, required_main_fault};
use crate::fault::PlanFault;
use crate::text_sets::{insert, insert_all};
use crate::texts::domain_key;
use crate::value_faults::{required_name_fault, required_number_fault, switch_fault};
use crate::values::{classes_in, text_in, value_at};
use indexmap::IndexSet;
use jx_base::{OutOfMemory, text_of};
use std::alloc::Global;
use toml::{Table, Value};

#[tactic(auto, unfolding(crate::specs::Keys::is_table))]
fn is_table(value: &Value) -> bool
    ensures { result ≡ is_table (view value.now) }
{
    match value.as_table() {
        Some(_) => true,
        None => false,
    }
}

fn are_tables(values: &[Value]) -> bool
    ensures { result ≡ list_all is_table (map view values.now) }
{
    values.iter().all(is_table)
}

#[tactic(auto, unfolding(crate::specs::Scan::domain_items_fault, crate::specs::Keys::first_fault, crate::specs::Keys::fault_if))]
fn domain_items_fault(alloc: Global, values: &[Value]) -> Result<Option<PlanFault>, OutOfMemory>
    ensures { IfOk result (λ fault. fault ≡ domain_items_fault (map view values.now)) }
{
    let key = text_of(alloc, "domain")?;
    if !are_tables(values) {
        return Ok(Some(PlanFault::Kind(key)));
    }
    if values.len() > 64 {
        return Ok(Some(PlanFault::Range(key)));
    }
    Ok(None)
}

fn domain_array_fault(alloc: Global, value: &Value) -> Result<Option<PlanFault>, OutOfMemory>
    ensures { IfOk result (λ fault. fault ≡ domain_array_fault (view value.now)) }
{
    match array_of(value) {
        Some(values) => domain_items_fault(alloc, values),
        None => Ok(Some(PlanFault::Kind(text_of(alloc, "domain")?))),
    }
}

/// The fault of the array of domains, of which there may be none.
#[tactic(auto, unfolding(crate::specs::Keys::optional_fault))]
pub fn optional_domains_fault(
    alloc: Global,
    table: &Table,
) -> Result<Option<PlanFault>, OutOfMemory>
    ensures { IfOk result (λ fault. fault
        ≡ optional_fault domain_array_fault (get_member (codes "domain") (table_view table.now))) }
{
    match value_at(table, "domain") {
        None => Ok(None),
        Some(value) => domain_array_fault(alloc, value),
    }
}

#[tactic(auto, unfolding(crate::specs::Scan::naming_fault, crate::specs::Keys::first_fault))]
fn naming_fault(
    alloc: Global,
    number: usize,
    names: &IndexSet<&str>,
    known: &IndexSet<&str>,
    table: &Table,
) -> Result<Option<PlanFault>, OutOfMemory>
    ensures { IfOk result (λ fault. fault
        ≡ naming_fault number (texts_at names.now.keys) (texts_at known.now.keys)
        (table_view table.now)) }
{
    let key = domain_key(alloc, number, "name")?;
    if let Some(fault) = required_name_fault(alloc, key, names, table)? {
        return Ok(Some(fault));
    }
    let key = domain_key(alloc, number, "classes")?;
    if let Some(fault) = required_classes_fault(alloc, key, known, table)? {
        return Ok(Some(fault));
    }
    let key = domain_key(alloc, number, "main")?;
    required_main_fault(alloc, key, table)
}

#[tactic(auto, unfolding(crate::specs::Scan::sizing_fault, crate::specs::Keys::first_fault))]
fn sizing_fault(
    alloc: Global,
    number: usize,
    table: &Table,
) -> Result<Option<PlanFault>, OutOfMemory>
    ensures { IfOk result (λ fault. fault ≡ sizing_fault number (table_view table.now)) }
{
    let key = domain_key(alloc, number, "heap")?;
    if let Some(fault) = required_number_fault(key, 16, 131_072, table, "heap") {
        return Ok(Some(fault));
    }
    let key = domain_key(alloc, number, "fuel")?;
    if let Some(fault) = required_number_fault(key, 0, 100_000_000, table, "fuel") {
        return Ok(Some(fault));
    }
    let key = domain_key(alloc, number, "boot")?;
    Ok(switch_fault(key, table, "boot"))
}

#[tactic(auto, unfolding(crate::specs::Scan::next_domain_fault, crate::specs::Keys::first_fault))]
fn next_domain_fault(
    alloc: Global,
    number: usize,
    names: &IndexSet<&str>,
    known: &IndexSet<&str>,
    table: &Table,
) -> Result<Option<PlanFault>, OutOfMemory>
    ensures { IfOk result (λ fault. fault
        ≡ next_domain_fault number (texts_at names.now.keys) (texts_at known.now.keys)
        (table_view table.now)) }
{
    if let Some(fault) = naming_fault(alloc, number, names, known, table)? {
        return Ok(Some(fault));
    }
    sizing_fault(alloc, number, table)
}

/// The first fault of the domains, counted from 0.
pub fn domains_fault(alloc: Global, domains: &[&Table]) -> Result<Option<PlanFault>, OutOfMemory>
    ensures { IfOk result (λ fault. fault ≡ next_domains_fault 0 [] [] (tables_at domains.now)) }
{
    let mut names = IndexSet::new(alloc);
    let mut known = IndexSet::new(alloc);
    for (number, table) in domains.iter().enumerate() {
        let fault = next_domain_fault(alloc, number, &names, &known, table)?;
        if fault.is_some() {
            return Ok(fault);
        }
        insert(&mut names, text_in(table, "name"))?;
        let classes = classes_in(alloc, table)?;
        insert_all(&mut known, classes.as_slice())?;
    }
    Ok(None)
}
