//! The faults of the names of a domain's classes.
ghost use Rattle.std.specs.Prelude.{◌≡◌, IfOk, codes, map, option_map};
ghost use Rattle.std.specs.List.{list_all};
ghost use Rattle.jx_base.specs.ClassNames.{is_class_name};
ghost use Rattle.toml.specs.Data.{get_member};
ghost use Rattle.toml.specs.View.{table_view, view};
ghost use Rattle.system_text.specs.Keys.{is_text, main_fault, required_fault};
ghost use Rattle.system_text.specs.Description.{classes_in};
ghost use Rattle.system_text.specs.Scan.{array_of, are_more_classes, class_names_fault};
ghost use Rattle.system_text.specs.Scan.{class_items_fault, more_classes_fault, texts_at};

use crate::fault::PlanFault;
use crate::text_sets::{count_with, first_repeated};
use crate::texts::is_among;
use crate::values::{classes_in, texts_of, value_at};
use indexmap::IndexSet;
use jx_base::{OutOfMemory, Text, is_class_name, text_of};
use std::alloc::Global;
use toml::{Table, Value};

/// The items of what is an array.
pub fn array_of(value: &Value) -> Option<&[Value]>
    ensures { option_map (λ items. map view items.now) result ≡ array_of (view value.now) }
{
    match value.as_array() {
        Some(array) => Some(array.as_slice()),
        None => None,
    }
}

#[tactic(auto, unfolding(crate::specs::Keys::is_text))]
fn is_text(value: &Value) -> bool
    ensures { result ≡ is_text (view value.now) }
{
    match value.as_str() {
        Some(_) => true,
        None => false,
    }
}

fn are_texts(values: &[Value]) -> bool
    ensures { result ≡ list_all is_text (map view values.now) }
{
    values.iter().all(is_text)
}

fn are_class_names(names: &[&str]) -> bool
    ensures { result ≡ list_all is_class_name (texts_at names.now) }
{
    names.iter().all(|name| is_class_name(name.as_bytes()))
}

#[tactic(auto, unfolding(crate::specs::Scan::are_more_classes))]
fn are_more_classes(
    alloc: Global,
    known: &IndexSet<&str>,
    names: &[&str],
) -> Result<bool, OutOfMemory>
    ensures { IfOk result (λ answer. answer
        ≡ are_more_classes (texts_at known.now.keys) (texts_at names.now)) }
{
    if names.is_empty() || names.len() > 256 || !are_class_names(names) {
        return Ok(false);
    }
    Ok(count_with(alloc, known, names)? <= 256)
}

#[tactic(auto, unfolding(crate::specs::Scan::class_names_fault, crate::specs::Keys::first_fault, crate::specs::Keys::fault_if, crate::specs::Keys::twice_fault))]
fn class_names_fault(
    alloc: Global,
    key: Text,
    known: &IndexSet<&str>,
    names: &[&str],
) -> Result<Option<PlanFault>, OutOfMemory>
    ensures { IfOk result (λ fault. fault
        ≡ class_names_fault key (texts_at known.now.keys) (texts_at names.now)) }
{
    if !are_more_classes(alloc, known, names)? {
        return Ok(Some(PlanFault::Range(key)));
    }
    match first_repeated(alloc, names)? {
        Some(name) => Ok(Some(PlanFault::Twice(text_of(alloc, name)?))),
        None => Ok(None),
    }
}

#[tactic(auto, unfolding(crate::specs::Scan::class_items_fault, crate::specs::Keys::first_fault, crate::specs::Keys::fault_if))]
fn class_items_fault(
    alloc: Global,
    key: Text,
    known: &IndexSet<&str>,
    values: &[Value],
) -> Result<Option<PlanFault>, OutOfMemory>
    ensures { IfOk result (λ fault. fault
        ≡ class_items_fault key (texts_at known.now.keys) (map view values.now)) }
{
    if !are_texts(values) {
        return Ok(Some(PlanFault::Kind(key)));
    }
    let names = texts_of(alloc, values)?;
    class_names_fault(alloc, key, known, names.as_slice())
}

#[tactic(auto, unfolding(crate::specs::Scan::more_classes_fault))]
fn classes_fault(
    alloc: Global,
    key: Text,
    known: &IndexSet<&str>,
    value: &Value,
) -> Result<Option<PlanFault>, OutOfMemory>
    ensures { IfOk result (λ fault. fault
        ≡ more_classes_fault key (texts_at known.now.keys) (view value.now)) }
{
    match array_of(value) {
        Some(values) => class_items_fault(alloc, key, known, values),
        None => Ok(Some(PlanFault::Kind(key))),
    }
}

#[tactic(auto, unfolding(crate::specs::Keys::required_fault))]
pub fn required_classes_fault(
    alloc: Global,
    key: Text,
    known: &IndexSet<&str>,
    table: &Table,
) -> Result<Option<PlanFault>, OutOfMemory>
    ensures { IfOk result (λ fault. fault
        ≡ required_fault key (more_classes_fault key (texts_at known.now.keys))
        (get_member (codes "classes") (table_view table.now))) }
{
    match value_at(table, "classes") {
        None => Ok(Some(PlanFault::Missing(key))),
        Some(value) => classes_fault(alloc, key, known, value),
    }
}

#[tactic(auto, unfolding(crate::specs::Keys::main_fault, crate::specs::Keys::fault_if))]
fn main_fault(key: Text, classes: &[&str], value: &Value) -> Option<PlanFault>
    ensures { result ≡ main_fault key (texts_at classes.now) (view value.now) }
{
    match value.as_str() {
        None => Some(PlanFault::Kind(key)),
        Some(name) => {
            if is_among(classes, name) {
                None
            } else {
                Some(PlanFault::Range(key))
            }
        }
    }
}

#[tactic(auto, unfolding(crate::specs::Keys::required_fault))]
pub fn required_main_fault(
    alloc: Global,
    key: Text,
    table: &Table,
) -> Result<Option<PlanFault>, OutOfMemory>
    ensures { IfOk result (λ fault. fault
        ≡ required_fault key (main_fault key (classes_in (table_view table.now)))
        (get_member (codes "main") (table_view table.now))) }
{
    let classes = classes_in(alloc, table)?;
    match value_at(table, "main") {
        None => Ok(Some(PlanFault::Missing(key))),
        Some(value) => Ok(main_fault(key, classes.as_slice(), value)),
    }
}
