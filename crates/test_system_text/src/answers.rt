//! What the reading of a text answers, in words.

use jx_base::{OutOfMemory, Plan, Template, Text};
use std::alloc::Global;
use system_text::{PlanError, PlanFault, read_system};

// A word and a text, of which units beyond ASCII are written `#`.
fn said(alloc: Global, word: &str, text: &Text) -> Result<String, OutOfMemory> {
    let mut said = String::from_str(alloc, word)?;
    for unit in text.as_slice() {
        match u8::try_from(*unit) {
            Ok(byte) if byte < 128 => said.push(char::from(byte))?,
            _ => said.push('#')?,
        }
    }
    Ok(said)
}

fn said_fault(alloc: Global, fault: &PlanFault) -> Result<String, OutOfMemory> {
    match fault {
        PlanFault::NotToml => String::from_str(alloc, "not toml"),
        PlanFault::Missing(key) => said(alloc, "missing ", key),
        PlanFault::Kind(key) => said(alloc, "kind ", key),
        PlanFault::Range(key) => said(alloc, "range ", key),
        PlanFault::Twice(name) => said(alloc, "twice ", name),
        PlanFault::Unknown(key) => said(alloc, "unknown ", key),
    }
}

/// The answer to a text, as `plan` or `range domain[0].heap`.
pub fn answer(alloc: Global, text: &[u8]) -> Result<String, OutOfMemory> {
    match read_system(alloc, text) {
        Ok(_) => String::from_str(alloc, "plan"),
        Err(PlanError::Bad(fault)) => said_fault(alloc, &fault),
        Err(PlanError::OutOfMemory) => String::from_str(alloc, "out of memory"),
    }
}

fn shown_template(alloc: Global, template: &Template) -> Result<String, OutOfMemory> {
    let name = said(alloc, "", &template.name)?;
    let classes = template.classes.as_slice();
    let (main, heap, fuel, boot) = (template.main, template.heap, template.fuel, template.boot);
    format!(in alloc; " | {name} {main} {heap} {fuel} {boot} {classes:?}")
}

/// A plan: its granules and the journal's words, its classes, and of each template the name, the
/// main class, heap, fuel, boot and the classes.
pub fn shown(alloc: Global, plan: &Plan) -> Result<String, OutOfMemory> {
    let mut shown = format!(in alloc; "{} {} |", plan.granules, plan.journal)?;
    for class in plan.classes.as_slice() {
        shown.push(' ')?;
        shown.push_str(class.as_str())?;
    }
    for template in plan.templates.as_slice() {
        shown.push_str(shown_template(alloc, template)?.as_str())?;
    }
    Ok(shown)
}
