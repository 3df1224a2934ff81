//! The faults of single values.
ghost use Rattle.std.specs.Prelude.{◌≡◌, ◌&&◌, IfOk, codes, nat_le};
ghost use Rattle.std.specs.List.{list_all, filter_map};
ghost use Rattle.toml.specs.Data.{as_str, get_member};
ghost use Rattle.toml.specs.View.{table_view, view};
ghost use Rattle.system_text.specs.Keys.{is_between, number_fault, switch_fault, is_domain_name};
ghost use Rattle.system_text.specs.Keys.{name_fault, main_fault, required_fault, optional_fault};
ghost use Rattle.system_text.specs.Scan.{texts_at};

use crate::fault::PlanFault;
use crate::text_sets::has_text;
use crate::values::value_at;
use indexmap::IndexSet;
use jx_base::{OutOfMemory, Text, text_of};
use std::alloc::Global;
use toml::{Table, Value};

#[tactic(auto, unfolding(crate::specs::Keys::is_between))]
fn is_between(low: u32, high: u32, number: i64) -> bool
    ensures { result ≡ is_between low high number }
{
    i64::from(low) <= number && number <= i64::from(high)
}

#[tactic(auto, unfolding(crate::specs::Keys::number_fault, crate::specs::Keys::fault_if))]
fn number_fault(key: Text, low: u32, high: u32, value: &Value) -> Option<PlanFault>
    ensures { result ≡ number_fault key low high (view value.now) }
{
    match value.as_integer() {
        None => Some(PlanFault::Kind(key)),
        Some(number) => {
            if is_between(low, high, number) {
                None
            } else {
                Some(PlanFault::Range(key))
            }
        }
    }
}

#[tactic(auto, unfolding(crate::specs::Keys::required_fault))]
pub fn required_number_fault(
    key: Text,
    low: u32,
    high: u32,
    table: &Table,
    name: &str,
) -> Option<PlanFault>
    ensures { result ≡ required_fault key (number_fault key low high)
        (get_member name.now (table_view table.now)) }
{
    match value_at(table, name) {
        None => Some(PlanFault::Missing(key)),
        Some(value) => number_fault(key, low, high, value),
    }
}

#[tactic(auto, unfolding(crate::specs::Keys::optional_fault))]
pub fn optional_number_fault(
    key: Text,
    low: u32,
    high: u32,
    table: &Table,
    name: &str,
) -> Option<PlanFault>
    ensures { result ≡ optional_fault (number_fault key low high)
        (get_member name.now (table_view table.now)) }
{
    match value_at(table, name) {
        None => None,
        Some(value) => number_fault(key, low, high, value),
    }
}

#[tactic(auto, unfolding(crate::specs::Keys::switch_fault, crate::specs::Keys::optional_fault))]
pub fn switch_fault(key: Text, table: &Table, name: &str) -> Option<PlanFault>
    ensures { result ≡ optional_fault (switch_fault key)
        (get_member name.now (table_view table.now)) }
{
    match value_at(table, name) {
        None => None,
        Some(value) => match value.as_bool() {
            None => Some(PlanFault::Kind(key)),
            Some(_) => None,
        },
    }
}

fn is_visible(byte: u8) -> bool
    ensures { result ≡ (nat_le 0x21 byte && nat_le byte 0x7e) }
{
    0x21 <= byte && byte <= 0x7e
}

fn has_visible_bytes(name: &[u8]) -> bool
    ensures { result ≡ list_all (λ b. nat_le 0x21 b && nat_le b 0x7e) name.now }
{
    name.iter().all(|byte| is_visible(*byte))
}

#[tactic(auto, unfolding(crate::specs::Keys::is_domain_name))]
fn is_domain_name(name: &[u8]) -> bool
    ensures { result ≡ is_domain_name name.now }
{
    1 <= name.len() && name.len() <= 255 && has_visible_bytes(name)
}

#[tactic(auto, unfolding(crate::specs::Keys::name_fault, crate::specs::Keys::fault_if, crate::specs::Keys::first_fault))]
fn name_fault(
    alloc: Global,
    key: Text,
    names: &IndexSet<&str>,
    value: &Value,
) -> Result<Option<PlanFault>, OutOfMemory>
    ensures { IfOk result (λ fault. fault
        ≡ name_fault key (texts_at names.now.keys) (view value.now)) }
{
    let Some(name) = value.as_str() else {
        return Ok(Some(PlanFault::Kind(key)));
    };
    if !is_domain_name(name.as_bytes()) {
        return Ok(Some(PlanFault::Range(key)));
    }
    if has_text(names, name) {
        return Ok(Some(PlanFault::Twice(text_of(alloc, name)?)));
    }
    Ok(None)
}

#[tactic(auto, unfolding(crate::specs::Keys::required_fault))]
pub fn required_name_fault(
    alloc: Global,
    key: Text,
    names: &IndexSet<&str>,
    table: &Table,
) -> Result<Option<PlanFault>, OutOfMemory>
    ensures { IfOk result (λ fault. fault
        ≡ required_fault key (name_fault key (texts_at names.now.keys))
        (get_member (codes "name") (table_view table.now))) }
{
    match value_at(table, "name") {
        None => Ok(Some(PlanFault::Missing(key))),
        Some(value) => name_fault(alloc, key, names, value),
    }
}
