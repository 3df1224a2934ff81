//! What stands in a table.
ghost use Rattle.std.specs.Prelude.{◌≡◌, map, IfOk, option_map};
ghost use Rattle.std.specs.List.{filter_map};
ghost use Rattle.toml.specs.Data.{as_str, as_table, get_member};
ghost use Rattle.toml.specs.View.{table_view, view};
ghost use Rattle.system_text.specs.Keys.{array_items};
ghost use Rattle.system_text.specs.Description.{classes_in, domains_in, number_in, switch_in};
ghost use Rattle.system_text.specs.Description.{text_in};
ghost use Rattle.system_text.specs.Scan.{capped, tables_at, texts_at};

use jx_base::OutOfMemory;
use std::alloc::Global;
use toml::{Table, Value};

/// The value at a key.
pub fn value_at<'a>(table: &'a Table, key: &str) -> Option<&'a Value>
    ensures { option_map (λ value. view value.now) result
        ≡ get_member key.now (table_view table.now) }
{
    table.get(key)
}

/// The text at a key, or the empty one.
#[tactic(auto, unfolding(crate::specs::Description::text_in))]
pub fn text_in<'a>(table: &'a Table, key: &str) -> &'a str
    ensures { result.now ≡ text_in key.now (table_view table.now) }
{
    match value_at(table, key) {
        Some(value) => match value.as_str() {
            Some(text) => text,
            None => "",
        },
        None => "",
    }
}

/// The items of the array at a key, or none.
#[tactic(auto, unfolding(crate::specs::Keys::array_items))]
pub fn items_in<'a>(table: &'a Table, key: &str) -> &'a [Value]
    ensures { map view result.now ≡ array_items (get_member key.now (table_view table.now)) }
{
    match value_at(table, key) {
        Some(value) => match value.as_array() {
            Some(array) => array.as_slice(),
            None => &[],
        },
        None => &[],
    }
}

#[tactic(auto, unfolding(crate::specs::Scan::capped))]
pub fn capped(size: u64) -> u32
    ensures { result ≡ capped size }
{
    u32::try_from(size).unwrap_or(u32::MAX)
}

/// The size of the number at a key, or the default. What is above `u32` gives the greatest `u32`.
#[tactic(auto, unfolding(crate::specs::Description::number_in))]
pub fn number_in(table: &Table, key: &str, default: u32) -> u32
    ensures { result ≡ capped (number_in key.now default (table_view table.now)) }
{
    match value_at(table, key) {
        Some(value) => match value.as_integer() {
            Some(number) => capped(number.unsigned_abs()),
            None => capped(u64::from(default)),
        },
        None => capped(u64::from(default)),
    }
}

/// The truth value at a key, or the default.
#[tactic(auto, unfolding(crate::specs::Description::switch_in))]
pub fn switch_in(table: &Table, key: &str, default: bool) -> bool
    ensures { result ≡ switch_in key.now default (table_view table.now) }
{
    match value_at(table, key) {
        Some(value) => match value.as_bool() {
            Some(switch) => switch,
            None => default,
        },
        None => default,
    }
}

/// The tables among the values.
pub fn tables_of(alloc: Global, values: &[Value]) -> Result<Vec<&Table>, OutOfMemory>
    ensures { IfOk result (λ tables. tables_at tables.items
        ≡ filter_map as_table (map view values.now)) }
{
    let mut tables = Vec::new(alloc);
    for value in values {
        if let Some(table) = value.as_table() {
            tables.push(table)?;
        }
    }
    Ok(tables)
}

/// The texts among the values.
pub fn texts_of(alloc: Global, values: &[Value]) -> Result<Vec<&str>, OutOfMemory>
    ensures { IfOk result (λ texts. texts_at texts.items
        ≡ filter_map as_str (map view values.now)) }
{
    let mut texts = Vec::new(alloc);
    for value in values {
        if let Some(text) = value.as_str() {
            texts.push(text)?;
        }
    }
    Ok(texts)
}

/// The tables of the domains.
#[tactic(auto, unfolding(crate::specs::Description::domains_in))]
pub fn domains_in(alloc: Global, table: &Table) -> Result<Vec<&Table>, OutOfMemory>
    ensures { IfOk result (λ domains. tables_at domains.items ≡ domains_in (table_view table.now)) }
{
    tables_of(alloc, items_in(table, "domain"))
}

/// The names of a domain's classes.
#[tactic(auto, unfolding(crate::specs::Description::classes_in))]
pub fn classes_in(alloc: Global, table: &Table) -> Result<Vec<&str>, OutOfMemory>
    ensures { IfOk result (λ classes. texts_at classes.items ≡ classes_in (table_view table.now)) }
{
    texts_of(alloc, items_in(table, "classes"))
}
