//! The plan that a table describes.
ghost use Rattle.std.specs.Prelude.{◌≡◌, IfOk, map};
ghost use Rattle.toml.specs.View.{table_view};
ghost use Rattle.system_text.specs.Description.{place_in};
ghost use Rattle.system_text.specs.Scan.{capped, capped_plan, capped_template, names_of_all};
ghost use Rattle.system_text.specs.Scan.{tables_at, texts_at};

use crate::text_sets::{insert_all, place_in};
use crate::texts::names_of;
use crate::values::{classes_in, domains_in, number_in, switch_in, text_in};
use indexmap::IndexSet;
use jx_base::{Listed, OutOfMemory, Plan, Template, text_of};
use std::alloc::Global;
use toml::Table;

fn places_of(
    alloc: Global,
    names: &IndexSet<&str>,
    texts: &[&str],
) -> Result<Listed<u32>, OutOfMemory>
    ensures { IfOk result (λ places. places
        ≡ map (λ name. capped (place_in (texts_at names.now.keys) name)) (texts_at texts.now)) }
{
    let mut places = Vec::with_capacity(alloc, texts.len())?;
    for text in texts {
        places.push(place_in(names, text))?;
    }
    Ok(Listed::from_vec(places))
}

#[tactic(auto, unfolding(crate::specs::Scan::capped_template))]
fn template(alloc: Global, classes: &IndexSet<&str>, table: &Table) -> Result<Template, OutOfMemory>
    ensures { IfOk result (λ template. template
        ≡ capped_template (texts_at classes.now.keys) (table_view table.now)) }
{
    let listed = classes_in(alloc, table)?;
    Ok(Template {
        name: text_of(alloc, text_in(table, "name"))?,
        main: place_in(classes, text_in(table, "main")),
        classes: places_of(alloc, classes, listed.as_slice())?,
        heap: number_in(table, "heap", 0),
        fuel: number_in(table, "fuel", 0),
        boot: switch_in(table, "boot", true),
    })
}

fn templates(
    alloc: Global,
    classes: &IndexSet<&str>,
    domains: &[&Table],
) -> Result<Vec<Template>, OutOfMemory>
    ensures { IfOk result (λ templates. templates.items
        ≡ map (capped_template (texts_at classes.now.keys)) (tables_at domains.now)) }
{
    let mut templates = Vec::with_capacity(alloc, domains.len())?;
    for table in domains {
        templates.push(template(alloc, classes, table)?)?;
    }
    Ok(templates)
}

// The names of all classes, in the order in which the lists of classes first have them.
fn class_names<'a>(alloc: Global, domains: &[&'a Table]) -> Result<IndexSet<&'a str>, OutOfMemory>
    ensures { IfOk result (λ names. texts_at names.keys ≡ names_of_all (tables_at domains.now)) }
{
    let mut names = IndexSet::new(alloc);
    for table in domains {
        let classes = classes_in(alloc, table)?;
        insert_all(&mut names, classes.as_slice())?;
    }
    Ok(names)
}

/// The plan that a table without faults describes. Numbers above `u32`, which are faults, are
/// capped.
#[tactic(auto, unfolding(crate::specs::Scan::capped_plan))]
pub fn plan_of(alloc: Global, table: &Table) -> Result<Plan, OutOfMemory>
    ensures { IfOk result (λ plan. plan ≡ capped_plan (table_view table.now)) }
{
    let domains = domains_in(alloc, table)?;
    let classes = class_names(alloc, domains.as_slice())?;
    Ok(Plan {
        granules: number_in(table, "granules", 0),
        journal: number_in(table, "journal", 1_048_576),
        templates: Listed::from_vec(templates(alloc, &classes, domains.as_slice())?),
        classes: Listed::from_vec(names_of(alloc, classes.as_slice())?),
    })
}
