//! The built-in classes in their order.
ghost use Rattle.std.specs.Prelude.{◌≡◌, IfOk};
ghost use Rattle.program_model.specs.BuiltIn.{built_in_table, nucleus_classes, plain_classes};

use crate::methods::{
    builder_methods, memory_methods, object_methods, string_methods, zero_methods,
};
use crate::places::{BUILDER, OBJECT};
use crate::shapes::{class_below, class_with_field, root_class, text_field};
use crate::throwables::{language_throwables, nucleus_exceptions};
use jx_base::{Class, Listed, OutOfMemory};
use std::alloc::Global;

fn plain_classes(alloc: Global) -> Result<Vec<Class>, OutOfMemory>
    ensures { IfOk result (λ classes. classes.items ≡ plain_classes) }
{
    let object = root_class(alloc, "java/lang/Object", object_methods(alloc)?)?;
    let string = class_below(alloc, OBJECT, "java/lang/String", string_methods(alloc)?)?;
    let builder = class_with_field(
        alloc,
        OBJECT,
        "java/lang/StringBuilder",
        text_field(alloc, BUILDER, "text")?,
        builder_methods(alloc)?,
    )?;
    Ok(vec![in alloc; object, string, builder]?)
}

#[tactic(auto, unfolding(program_model::specs::BuiltIn::nucleus_classes, program_model::specs::BuiltIn::class_below, program_model::specs::BuiltIn::built_in_class, program_model::specs::BuiltIn::object_class))]
fn nucleus_classes(alloc: Global) -> Result<Vec<Class>, OutOfMemory>
    ensures { IfOk result (λ classes. classes.items ≡ nucleus_classes) }
{
    let none = Listed::from_vec(Vec::new(alloc));
    let mut portal = class_below(alloc, OBJECT, "jx/Portal", none)?;
    portal.flags = 0x0601;
    let zero = class_below(alloc, OBJECT, "jx/Zero", zero_methods(alloc)?)?;
    let memory = class_below(alloc, OBJECT, "jx/Memory", memory_methods(alloc)?)?;
    Ok(vec![in alloc; portal, zero, memory]?)
}

/// The classes that are there in every system. The place of each is its number.
#[tactic(auto, unfolding(program_model::specs::BuiltIn::built_in_table))]
pub fn boot(alloc: Global) -> Result<Vec<Class>, OutOfMemory>
    ensures { IfOk result (λ classes. classes.items ≡ built_in_table) }
{
    let mut classes = plain_classes(alloc)?;
    classes.append(&mut language_throwables(alloc)?)?;
    classes.append(&mut nucleus_classes(alloc)?)?;
    classes.append(&mut nucleus_exceptions(alloc)?)?;
    Ok(classes)
}
