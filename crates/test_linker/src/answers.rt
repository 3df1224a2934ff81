//! What came of linking, in words.

use crate::files::Unlinked;
use jx_base::{Class, Field, OutOfMemory, Resolved, System, Text};
use link_model::LinkFault;
use std::alloc::Global;

/// What of a system is shown.
#[derive(Clone, Copy)]
pub enum Shown {
    /// That it is there.
    Whole,
    /// How many classes, methods and selectors there are.
    Counts,
    /// The number of the first array class, and the names of all of them.
    Arrays,
    /// The super of a class and its interfaces.
    Above(usize),
    /// An object's fields, each with the class that declares it, and the static fields of a class.
    Fields(usize),
    /// What the constants of a class mean: `I` a field of instances, `S` a static one, `M` a method,
    /// `C` a class.
    Constants(usize),
}

// Units beyond ASCII are written `#`.
fn said(alloc: Global, text: &Text) -> Result<String, OutOfMemory> {
    let mut said = String::new(alloc);
    for unit in text.as_slice() {
        match u8::try_from(*unit) {
            Ok(byte) if byte < 128 => said.push(char::from(byte))?,
            _ => said.push('#')?,
        }
    }
    Ok(said)
}

/// A fault, as `1 A Missing`.
pub fn fault_text(alloc: Global, fault: &LinkFault) -> Result<String, OutOfMemory> {
    let class = said(alloc, &fault.class)?;
    let name = said(alloc, &fault.name)?;
    format!(in alloc; "{} {class} {name}", fault.kind as u8)
}

fn counts(alloc: Global, system: &System) -> Result<String, OutOfMemory> {
    let program = &system.program;
    let classes = program.classes.as_slice().len();
    let methods = program.methods.as_slice().len();
    let selectors = program.selectors.as_slice().len();
    format!(in alloc; "{classes} {methods} {selectors}")
}

// Adds a word, behind a space where it isn't the first.
fn push_word(text: &mut String, word: &str) -> Result<(), OutOfMemory> {
    if !text.is_empty() {
        text.push(' ')?;
    }
    text.push_str(word)
}

fn arrays(alloc: Global, classes: &[Class]) -> Result<String, OutOfMemory> {
    let mut text = String::new(alloc);
    for (number, class) in classes.iter().enumerate() {
        if class.component.is_some() {
            if text.is_empty() {
                push_word(&mut text, format!(in alloc; "{number}")?.as_str())?;
            }
            push_word(&mut text, said(alloc, &class.name)?.as_str())?;
        }
    }
    Ok(text)
}

fn above(alloc: Global, class: &Class) -> Result<String, OutOfMemory> {
    let mut text = match class.parent {
        Some(parent) => format!(in alloc; "{}", parent.0)?,
        None => String::from_str(alloc, "none")?,
    };
    for interface in class.interfaces.as_slice() {
        text.push_str(format!(in alloc; " {}", interface.0)?.as_str())?;
    }
    Ok(text)
}

fn push_fields(text: &mut String, alloc: Global, fields: &[Field]) -> Result<(), OutOfMemory> {
    for field in fields {
        let name = said(alloc, &field.name)?;
        push_word(
            text,
            format!(in alloc; "{}.{name}", field.owner.0)?.as_str(),
        )?;
    }
    Ok(())
}

fn fields(alloc: Global, class: &Class) -> Result<String, OutOfMemory> {
    let mut text = String::new(alloc);
    push_fields(&mut text, alloc, class.fields.as_slice())?;
    push_word(&mut text, "/")?;
    push_fields(&mut text, alloc, class.statics.as_slice())?;
    Ok(text)
}

fn meaning(alloc: Global, constant: &Resolved) -> Result<String, OutOfMemory> {
    match constant {
        Resolved::Unused => Ok(String::new(alloc)),
        Resolved::Int(number) => format!(in alloc; "{number}"),
        Resolved::Long(number) => format!(in alloc; "{number}L"),
        Resolved::Str(text) => format!(in alloc; "'{}'", said(alloc, text)?),
        Resolved::Class(class) => format!(in alloc; "C{}", class.0),
        Resolved::Instance(class, place) => format!(in alloc; "I{}.{place}", class.0),
        Resolved::Static(class, place) => format!(in alloc; "S{}.{place}", class.0),
        Resolved::Method(place) => format!(in alloc; "M{place}"),
    }
}

fn constants(alloc: Global, constants: &[Resolved]) -> Result<String, OutOfMemory> {
    let mut text = String::new(alloc);
    for (index, constant) in constants.iter().enumerate() {
        let meaning = meaning(alloc, constant)?;
        if !meaning.is_empty() {
            push_word(&mut text, format!(in alloc; "{index}={meaning}")?.as_str())?;
        }
    }
    Ok(text)
}

fn of_class(alloc: Global, class: &Class, shown: Shown) -> Result<String, OutOfMemory> {
    match shown {
        Shown::Above(_) => above(alloc, class),
        Shown::Fields(_) => fields(alloc, class),
        _ => constants(alloc, class.constants.as_slice()),
    }
}

fn of_system(alloc: Global, system: &System, shown: Shown) -> Result<String, OutOfMemory> {
    let classes = system.program.classes.as_slice();
    match shown {
        Shown::Whole => String::from_str(alloc, "linked"),
        Shown::Counts => counts(alloc, system),
        Shown::Arrays => arrays(alloc, classes),
        Shown::Above(number) | Shown::Fields(number) | Shown::Constants(number) => {
            match classes.get(number) {
                Some(class) => of_class(alloc, class, shown),
                None => String::from_str(alloc, "no class"),
            }
        }
    }
}

/// What is shown of a system, or why there is none.
pub fn answer(
    alloc: Global,
    linked: Result<System, Unlinked>,
    shown: Shown,
) -> Result<String, OutOfMemory> {
    match linked {
        Ok(system) => of_system(alloc, &system, shown),
        Err(Unlinked::Bad(reason)) => Ok(reason),
        Err(Unlinked::OutOfMemory) => String::from_str(alloc, "out of memory"),
    }
}
