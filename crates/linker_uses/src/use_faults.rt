//! The fault of a use of a constant.
ghost use Rattle.std.specs.Prelude.{◌≡◌, Some, IfOk};
ghost use Rattle.std.specs.Fmt.{decimal};
ghost use Rattle.link_model.specs.LinkFaults.{member_fault, use_fault};
ghost use Rattle.link_model.specs.declared.fault.LinkKind.TheVariants.{BadConstant};
ghost use Rattle.linker_names.specs.Names.{selector_of};
ghost use Rattle.linker_uses.specs.BuiltInFirst.{HasBuiltIns};

use crate::abstract_uses::{abstract_name, needs_abstract};
use crate::fitting::{has_shape_for, has_tag_for};
use crate::known_classes::is_known;
use crate::members::{has_member, missing_kind};
use itoa::Buffer;
use jx_base::{ClassFile, Listed, Name, OutOfMemory, text_of};
use link_model::{LinkFault, LinkKind, Use, Used};
use linker_lists::TemplateClasses;
use linker_names::{NameAndType, class_of_constant, constant_in, member_of_constant};
use linker_search::Outline;
use std::alloc::Global;

// A fault of the class, with the name that is missing or abstract.
fn fault(
    alloc: Global,
    class: &Name,
    kind: LinkKind,
    name: &[u16],
) -> Result<Option<LinkFault>, OutOfMemory>
    ensures { IfOk result (λ fault. fault
        ≡ Some (record { class = class.now; kind = kind; name = name.now })) }
{
    Ok(Some(LinkFault {
        class: text_of(alloc, class.as_str())?,
        kind,
        name: Listed::from_slice(alloc, name)?,
    }))
}

// The fault of the constant at the index.
fn bad_constant(alloc: Global, class: &Name, index: u32) -> Result<Option<LinkFault>, OutOfMemory>
    ensures { IfOk result (λ fault. fault
        ≡ Some (record { class = class.now; kind = BadConstant; name = decimal index })) }
{
    let mut digits = Buffer::new();
    Ok(Some(LinkFault {
        class: text_of(alloc, class.as_str())?,
        kind: LinkKind::BadConstant,
        name: text_of(alloc, digits.format(index))?,
    }))
}

// The first fault of a class and the member that a constant names.
fn member_fault(
    alloc: Global,
    outline: &Outline,
    classes: &TemplateClasses<'_>,
    class: &Name,
    use_of: Use,
    name: &[u16],
    member: NameAndType<'_>,
) -> Result<Option<LinkFault>, OutOfMemory>
    requires { HasBuiltIns outline.now }
    ensures { IfOk result (λ fault. fault ≡ member_fault outline.now classes.now.plan
        classes.now.template class.now use_of name.now (selector_of member.entry)) }
{
    if !is_known(outline, classes, name) {
        fault(alloc, class, LinkKind::NoClass, name)
    } else if !has_member(outline, use_of, name, member) {
        fault(alloc, class, missing_kind(use_of), member.name)
    } else if needs_abstract(outline, use_of, name, member) {
        fault(
            alloc,
            class,
            LinkKind::Abstract,
            abstract_name(use_of, name, member),
        )
    } else {
        Ok(None)
    }
}

/// The first fault of a use of a constant in the file of the class.
pub fn use_fault(
    alloc: Global,
    outline: &Outline,
    classes: &TemplateClasses<'_>,
    class: &Name,
    file: &ClassFile,
    used: Used,
) -> Result<Option<LinkFault>, OutOfMemory>
    requires { HasBuiltIns outline.now }
    ensures { IfOk result (λ fault. fault ≡ use_fault outline.now classes.now.plan
        classes.now.template class.now file.now used) }
{
    let Some(constant) = constant_in(file, used.index) else {
        return bad_constant(alloc, class, used.index);
    };
    if !has_tag_for(used.use_of, constant) {
        return bad_constant(alloc, class, used.index);
    }
    let Some(name) = class_of_constant(file, constant) else {
        return Ok(None);
    };
    if !has_shape_for(used.use_of, name) {
        return bad_constant(alloc, class, used.index);
    }
    let member = member_of_constant(file, constant);
    member_fault(alloc, outline, classes, class, used.use_of, name, member)
}
