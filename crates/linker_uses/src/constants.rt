//! What the constants of a class mean.
ghost use Rattle.std.specs.Prelude.{◌≡◌, IfOk, map, true, unwrap_or};
ghost use Rattle.std.specs.Option.{option_map};
ghost use Rattle.jx_base.specs.declared.program.Resolved.TheVariants as resolved;
ghost use Rattle.link_model.specs.Linking.{found_field, found_method, in_class, meaning_of};
ghost use Rattle.link_model.specs.Linking.{meanings_of};
ghost use Rattle.linker_names.specs.Names.{selector_of};
ghost use Rattle.std.proofs.Math.ListN.{set};
ghost use Rattle.linker_uses.specs.Constants.{AreMarked, meaning_where};
ghost use Rattle.program_model.specs.Lookup.{class_named};

use crate::file_uses::all_uses;
use crate::members::{field_in, method_in};
use jx_base::{ClassFile, ClassId, Constant, Listed, OutOfMemory, Resolved};
use link_model::Used;
use linker_names::{NameAndType, ReadClass, class_name_in, selector_in, text_in};
use linker_search::Outline;
use std::alloc::Global;

// What a class is as a constant, Unused where there is none of that name.
#[tactic(auto, unfolding(link_model::specs::Linking::in_class))]
fn class_meaning(outline: &Outline, class: &[u16]) -> Resolved
    ensures { result ≡ unwrap_or (option_map (λ c. resolved.Class (record { 0 = c }))
        (class_named outline.now class.now)) resolved.Unused }
{
    match outline.class_named(class) {
        Some(number) => Resolved::Class(ClassId(number)),
        None => Resolved::Unused,
    }
}

// What a field is as a constant.
fn field_meaning(outline: &Outline, class: &[u16], member: NameAndType<'_>) -> Resolved
    ensures { result ≡ unwrap_or (in_class outline.now class.now
        (found_field outline.now (selector_of member.entry))) resolved.Unused }
{
    match field_in(outline, class, member) {
        Some(field) => field,
        None => Resolved::Unused,
    }
}

// What a method is as a constant.
fn method_meaning(outline: &Outline, class: &[u16], member: NameAndType<'_>) -> Resolved
    ensures { result ≡ unwrap_or (option_map (λ m. resolved.Method m)
        (in_class outline.now class.now (found_method outline.now (selector_of member.entry))))
        resolved.Unused }
{
    match method_in(outline, class, member) {
        Some(place) => Resolved::Method(place),
        None => Resolved::Unused,
    }
}

// What a constant means, Unused where it names nothing that is there.
#[tactic(auto, unfolding(link_model::specs::Linking::meaning_of))]
fn meaning_of(
    alloc: Global,
    outline: &Outline,
    file: &ClassFile,
    constant: &Constant,
) -> Result<Resolved, OutOfMemory>
    ensures { IfOk result (λ meaning. meaning
        ≡ unwrap_or (meaning_of outline.now file.now constant.now) resolved.Unused) }
{
    match constant {
        Constant::Integer(number) => Ok(Resolved::Int(*number)),
        Constant::Long(number) => Ok(Resolved::Long(*number)),
        Constant::Str(text) => {
            let text = Listed::from_slice(alloc, text_in(file, *text))?;
            Ok(Resolved::Str(text))
        }
        Constant::Class(name) => Ok(class_meaning(outline, text_in(file, *name))),
        Constant::Field(class, member) => {
            let class = class_name_in(file, *class);
            Ok(field_meaning(outline, class, selector_in(file, *member)))
        }
        Constant::Method(class, member) | Constant::InterfaceMethod(class, member) => {
            let class = class_name_in(file, *class);
            Ok(method_meaning(outline, class, selector_in(file, *member)))
        }
        _ => Ok(Resolved::Unused),
    }
}

// Marks the index, where there is a mark for it.
fn mark(marks: &mut Vec<bool>, index: usize)
    ensures { marks.new.items ≡ set marks.old.items index true }
{
    if index < marks.len() {
        marks[index] = true;
    }
}

// Of each of so many indices, whether it is used.
fn marks_of(alloc: Global, uses: &[Used], count: usize) -> Result<Vec<bool>, OutOfMemory>
    ensures { IfOk result (λ marks. AreMarked (map (λ u. u.index) uses.now) count marks.items) }
{
    let mut marks = vec![in alloc; false; count]?;
    for used in uses {
        mark(&mut marks, used.index as usize);
    }
    Ok(marks)
}

// What the constant at an index means, Unused where it isn't used.
fn meaning_at(
    alloc: Global,
    outline: &Outline,
    file: &ClassFile,
    constant: &Constant,
    is_used: bool,
) -> Result<Resolved, OutOfMemory>
    ensures { IfOk result (λ meaning. meaning
        ≡ meaning_where outline.now file.now is_used constant.now) }
{
    if is_used {
        meaning_of(alloc, outline, file, constant)
    } else {
        Ok(Resolved::Unused)
    }
}

/// What the constants of a file mean, by their indices: Unused where no instruction and no catch
/// type uses them.
pub fn meanings_of(
    alloc: Global,
    outline: &Outline,
    class: &ReadClass,
) -> Result<Vec<Resolved>, OutOfMemory>
    ensures { IfOk result (λ meanings. meanings.items ≡ meanings_of outline.now class.now) }
{
    let file = class.file();
    let constants = file.constants.as_slice();
    let uses = all_uses(alloc, class)?;
    let marks = marks_of(alloc, uses.as_slice(), constants.len())?;
    let mut meanings = Vec::new(alloc);
    for index in 0..constants.len() {
        let meaning = meaning_at(alloc, outline, file, &constants[index], marks[index])?;
        meanings.push(meaning)?;
    }
    Ok(meanings)
}
