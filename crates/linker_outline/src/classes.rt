//! The classes of class files and of arrays, without what their constants mean.
ghost use Rattle.std.specs.Prelude.{◌≡◌, map, IfOk};
ghost use Rattle.std.specs.List.{filter_map};
ghost use Rattle.link_model.specs.ClassFiles.{interface_names};
ghost use Rattle.link_model.specs.Linking.{array_class_named, class_id, class_of_file};
ghost use Rattle.link_model.specs.Linking.{declared_of};
ghost use Rattle.linker_outline.specs.Parts.{AreParts};

use crate::fields::{class_number, layout, own_fields};
use crate::parts::Parts;
use jx_base::{Class, ClassFile, ClassId, Declared, Listed, Member, OutOfMemory, Selector};
use linker_names::{class_name_in, super_name, this_name};
use std::alloc::Global;

const OBJECT: ClassId = ClassId(0);

const ARRAY_MARK: u16 = b'[' as u16;

const NO_FLAGS: u16 = 0;

#[tactic(auto, unfolding(link_model::specs::Linking::declared_of, link_model::specs::ClassFiles::member_selector))]
fn declared_of(alloc: Global, member: &Member) -> Result<Declared, OutOfMemory>
    ensures { IfOk result (λ declared. declared ≡ declared_of member.now) }
{
    let selector = Selector {
        name: member.name.copy(alloc)?,
        descriptor: member.descriptor.copy(alloc)?,
    };
    Ok(Declared {
        flags: member.flags,
        selector,
    })
}

fn declared_methods(alloc: Global, members: &[Member]) -> Result<Listed<Declared>, OutOfMemory>
    ensures { IfOk result (λ methods. methods ≡ map declared_of members.now) }
{
    let mut methods = Vec::with_capacity(alloc, members.len())?;
    for member in members {
        methods.push(declared_of(alloc, member)?)?;
    }
    Ok(Listed::from_vec(methods))
}

#[tactic(auto, unfolding(link_model::specs::Linking::class_id))]
fn class_id(parts: &Parts<'_>, name: &[u16]) -> Option<ClassId>
    requires { AreParts parts.now }
    ensures { result ≡ class_id parts.now.plan.now name.now }
{
    let number = class_number(parts, name)?;
    Some(ClassId(number))
}

#[tactic(auto, unfolding(link_model::specs::ClassFiles::interface_names))]
fn interface_ids(
    alloc: Global,
    parts: &Parts<'_>,
    file: &ClassFile,
) -> Result<Listed<ClassId>, OutOfMemory>
    requires { AreParts parts.now }
    ensures { IfOk result (λ ids.
        ids ≡ filter_map (class_id parts.now.plan.now) (interface_names file.now)) }
{
    let mut ids = Vec::new(alloc);
    for index in file.interfaces.as_slice() {
        if let Some(id) = class_id(parts, class_name_in(file, *index)) {
            ids.push(id)?;
        }
    }
    Ok(Listed::from_vec(ids))
}

/// The class of that number, which its file declares.
#[tactic(auto, unfolding(link_model::specs::Linking::class_of_file))]
pub fn class_of_file(
    alloc: Global,
    parts: &Parts<'_>,
    number: u32,
    file: &ClassFile,
) -> Result<Class, OutOfMemory>
    requires { AreParts parts.now }
    ensures { IfOk result (λ class. class
        ≡ class_of_file parts.now.plan.now parts.now.files.now number file.now) }
{
    Ok(Class {
        name: Listed::from_slice(alloc, this_name(file))?,
        parent: class_id(parts, super_name(file)),
        interfaces: interface_ids(alloc, parts, file)?,
        component: None,
        fields: Listed::from_vec(layout(alloc, parts, number)?),
        statics: Listed::from_vec(own_fields(alloc, number, file, true)?),
        methods: declared_methods(alloc, file.methods.as_slice())?,
        flags: file.flags,
        constants: Listed::from_vec(Vec::new(alloc)),
    })
}

/// The array class of that name.
#[tactic(auto, unfolding(link_model::specs::Linking::array_class_named, program_model::specs::BuiltIn::array_class, program_model::specs::BuiltIn::class_below, program_model::specs::BuiltIn::built_in_class, program_model::specs::BuiltIn::object_class))]
pub fn array_class(alloc: Global, name: &[u16]) -> Result<Class, OutOfMemory>
    ensures { IfOk result (λ class. class ≡ array_class_named name.now) }
{
    let component = match name {
        [_, component @ ..] => component,
        [] => &[],
    };
    let mut name = vec![in alloc; ARRAY_MARK]?;
    name.extend_from_slice(component)?;
    Ok(Class {
        name: Listed::from_vec(name),
        parent: Some(OBJECT),
        interfaces: Listed::from_vec(Vec::new(alloc)),
        component: Some(Listed::from_slice(alloc, component)?),
        fields: Listed::from_vec(Vec::new(alloc)),
        statics: Listed::from_vec(Vec::new(alloc)),
        methods: Listed::from_vec(Vec::new(alloc)),
        flags: NO_FLAGS,
        constants: Listed::from_vec(Vec::new(alloc)),
    })
}
