//! The fields of a class.
ghost use Rattle.std.specs.Prelude.{◌≡◌, ◌++◌, false, IfOk};
ghost use Rattle.class_grammar.specs.Flags.{is_static};
ghost use Rattle.link_model.specs.Linking.{class_number, field_of, layout_of, layout_within};
ghost use Rattle.link_model.specs.Linking.{own_fields};
ghost use Rattle.linker_outline.specs.Fields.{inherited_fields, is_of_kind};
ghost use Rattle.linker_outline.specs.Parts.{AreParts};

use crate::parts::Parts;
use jx_base::{ClassFile, ClassId, Field, Member, OutOfMemory};
use linker_names::super_name;
use std::alloc::Global;

const STATIC: u16 = 0x0008;

fn is_static(flags: u16) -> bool
    ensures { result ≡ is_static flags }
{
    flags & STATIC != 0
}

fn is_of_kind(member: &Member, statics: bool) -> bool
    ensures { result ≡ is_of_kind statics member.now }
{
    if statics {
        is_static(member.flags)
    } else {
        !is_static(member.flags)
    }
}

#[tactic(auto, unfolding(link_model::specs::Linking::field_of))]
fn field_of(alloc: Global, owner: u32, member: &Member) -> Result<Field, OutOfMemory>
    ensures { IfOk result (λ field. field ≡ field_of owner member.now) }
{
    Ok(Field {
        owner: ClassId(owner),
        name: member.name.copy(alloc)?,
        descriptor: member.descriptor.copy(alloc)?,
    })
}

/// The static fields that the file itself declares, or the others.
#[tactic(auto, unfolding(link_model::specs::Linking::own_fields))]
pub fn own_fields(
    alloc: Global,
    owner: u32,
    file: &ClassFile,
    statics: bool,
) -> Result<Vec<Field>, OutOfMemory>
    ensures { IfOk result (λ fields. fields.items ≡ own_fields statics owner file.now) }
{
    let mut fields = Vec::new(alloc);
    for member in file.fields.as_slice() {
        if is_of_kind(member, statics) {
            fields.push(field_of(alloc, owner, member)?)?;
        }
    }
    Ok(fields)
}

fn copy_of(alloc: Global, fields: &[Field]) -> Result<Vec<Field>, OutOfMemory>
    ensures { IfOk result (λ copies. copies.items ≡ fields.now) }
{
    let mut copies = Vec::with_capacity(alloc, fields.len())?;
    for field in fields {
        copies.push(field.copy(alloc)?)?;
    }
    Ok(copies)
}

/// The number of the class of that name, built in or of the plan.
#[tactic(auto, unfolding(link_model::specs::Linking::class_number))]
pub fn class_number(parts: &Parts<'_>, name: &[u16]) -> Option<u32>
    requires { AreParts parts.now }
    ensures { result ≡ class_number parts.now.plan.now name.now }
{
    parts.numbers.find(name)
}

#[cycle(layouts)]
fn inherited(
    alloc: Global,
    parts: &Parts<'_>,
    steps: usize,
    file: &ClassFile,
) -> Result<Vec<Field>, OutOfMemory>
    requires { AreParts parts.now }
    ensures { IfOk result (λ fields. fields.items
        ≡ inherited_fields parts.now.plan.now parts.now.files.now steps file.now) }
{
    match class_number(parts, super_name(file)) {
        Some(parent) => layout_within(alloc, parts, steps, parent),
        None => Ok(Vec::new(alloc)),
    }
}

#[cycle(layouts)]
fn file_layout(
    alloc: Global,
    parts: &Parts<'_>,
    steps: usize,
    number: u32,
    file: &ClassFile,
) -> Result<Vec<Field>, OutOfMemory>
    requires { AreParts parts.now }
    ensures { IfOk result (λ fields. fields.items
        ≡ inherited_fields parts.now.plan.now parts.now.files.now steps file.now
        ++ own_fields false number file.now) }
{
    let mut fields = inherited(alloc, parts, steps, file)?;
    fields.append(&mut own_fields(alloc, number, file, false)?)?;
    Ok(fields)
}

// The layout of a class, as far as so many steps lead.
#[cycle(layouts)]
#[tactic(auto, unfolding(link_model::specs::Linking::layout_within))]
fn layout_within(
    alloc: Global,
    parts: &Parts<'_>,
    steps: usize,
    number: u32,
) -> Result<Vec<Field>, OutOfMemory>
    requires { AreParts parts.now }
    ensures { IfOk result (λ fields. fields.items
        ≡ layout_within parts.now.plan.now parts.now.files.now steps number) }
{
    let Some(fewer) = steps.checked_sub(1) else {
        return Ok(Vec::new(alloc));
    };
    let place = number as usize;
    let Some(place) = place.checked_sub(parts.built_in.len()) else {
        return copy_of(alloc, parts.built_in[place].fields.as_slice());
    };
    match parts.files.get(place) {
        Some(class) => file_layout(alloc, parts, fewer, number, class.file()),
        None => Ok(Vec::new(alloc)),
    }
}

/// The fields of an instance of the class, those of its parent first.
#[tactic(auto, unfolding(link_model::specs::Linking::layout_of))]
pub fn layout(alloc: Global, parts: &Parts<'_>, number: u32) -> Result<Vec<Field>, OutOfMemory>
    requires { AreParts parts.now }
    ensures { IfOk result (λ fields. fields.items
        ≡ layout_of parts.now.plan.now parts.now.files.now number) }
{
    layout_within(alloc, parts, parts.files.len() + 1, number)
}
