//! What the built-in classes are made of.
ghost use Rattle.std.specs.Prelude.{◌≡◌, [], ◌∷◌, None, IfOk};
ghost use Rattle.program_model.specs.BuiltIn.{built_in_class, class_below, text_field};

use jx_base::{Class, ClassId, Declared, Field, Listed, OutOfMemory, text_of};
use std::alloc::Global;

#[tactic(auto, unfolding(program_model::specs::BuiltIn::text_field))]
pub fn text_field(alloc: Global, owner: ClassId, name: &str) -> Result<Field, OutOfMemory>
    ensures { IfOk result (λ field. field ≡ text_field owner.0 name.now) }
{
    Ok(Field {
        owner,
        name: text_of(alloc, name)?,
        descriptor: text_of(alloc, "Ljava/lang/String;")?,
    })
}

#[tactic(auto, unfolding(program_model::specs::BuiltIn::built_in_class))]
fn built_in_class(
    alloc: Global,
    name: &str,
    parent: Option<ClassId>,
    fields: Vec<Field>,
    methods: Listed<Declared>,
) -> Result<Class, OutOfMemory>
    ensures { IfOk result (λ class. class ≡ built_in_class name.now parent fields.items methods) }
{
    Ok(Class {
        name: text_of(alloc, name)?,
        parent,
        interfaces: Listed::from_vec(Vec::new(alloc)),
        component: None,
        fields: Listed::from_vec(fields),
        statics: Listed::from_vec(Vec::new(alloc)),
        methods,
        flags: 0x0021,
        constants: Listed::from_vec(Vec::new(alloc)),
    })
}

pub fn root_class(
    alloc: Global,
    name: &str,
    methods: Listed<Declared>,
) -> Result<Class, OutOfMemory>
    ensures { IfOk result (λ class. class ≡ built_in_class name.now None [] methods) }
{
    built_in_class(alloc, name, None, Vec::new(alloc), methods)
}

#[tactic(auto, unfolding(program_model::specs::BuiltIn::class_below))]
pub fn class_below(
    alloc: Global,
    parent: ClassId,
    name: &str,
    methods: Listed<Declared>,
) -> Result<Class, OutOfMemory>
    ensures { IfOk result (λ class. class ≡ class_below parent.0 name.now [] methods) }
{
    built_in_class(alloc, name, Some(parent), Vec::new(alloc), methods)
}

#[tactic(auto, unfolding(program_model::specs::BuiltIn::class_below))]
pub fn class_with_field(
    alloc: Global,
    parent: ClassId,
    name: &str,
    field: Field,
    methods: Listed<Declared>,
) -> Result<Class, OutOfMemory>
    ensures { IfOk result (λ class. class ≡ class_below parent.0 name.now (field ∷ []) methods) }
{
    built_in_class(alloc, name, Some(parent), vec![in alloc; field]?, methods)
}
