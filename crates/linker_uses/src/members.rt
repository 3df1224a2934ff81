//! The members that uses ask for.
ghost use Rattle.std.specs.Prelude.{◌≡◌, None, Some, MatchOption};
ghost use Rattle.jx_base.specs.Basics.{passes};
ghost use Rattle.link_model.specs.LinkFaults.{calls_static, has_member, is_field_for};
ghost use Rattle.link_model.specs.LinkFaults.{is_method_for, missing_kind};
ghost use Rattle.link_model.specs.Linking.{found_field, found_method, in_class};
ghost use Rattle.linker_names.specs.Names.{selector_of};
ghost use Rattle.program_model.specs.Lookup.{class_at, is_interface, method_at};

use class_grammar::{is_interface_flag, is_static};
use jx_base::{Class, Invocation, Method, Resolved};
use link_model::{LinkKind, Use};
use linker_names::NameAndType;
use linker_search::Outline;

/// The field that a search in the class of that name finds.
#[tactic(auto, unfolding(link_model::specs::Linking::in_class))]
pub fn field_in(outline: &Outline, class: &[u16], member: NameAndType<'_>) -> Option<Resolved>
    ensures { result ≡ in_class outline.now class.now
        (found_field outline.now (selector_of member.entry)) }
{
    let class = outline.class_named(class)?;
    outline.field(class, member)
}

/// The place of the method that a search in the class of that name finds.
#[tactic(auto, unfolding(link_model::specs::Linking::in_class))]
pub fn method_in(outline: &Outline, class: &[u16], member: NameAndType<'_>) -> Option<u32>
    ensures { result ≡ in_class outline.now class.now
        (found_method outline.now (selector_of member.entry)) }
{
    let class = outline.class_named(class)?;
    outline.method(class, member)
}

#[tactic(auto, unfolding(program_model::specs::Lookup::class_at))]
pub fn class_at(outline: &Outline, class: u32) -> Option<&Class>
    ensures { MatchOption result (class_at outline.now class ≡ None)
        (λ found. class_at outline.now class ≡ Some found.now) }
{
    outline
        .system()
        .program
        .classes
        .as_slice()
        .get(class as usize)
}

#[tactic(auto, unfolding(program_model::specs::Lookup::method_at))]
pub fn method_at(outline: &Outline, place: u32) -> Option<&Method>
    ensures { MatchOption result (method_at outline.now place ≡ None)
        (λ found. method_at outline.now place ≡ Some found.now) }
{
    outline
        .system()
        .program
        .methods
        .as_slice()
        .get(place as usize)
}

#[tactic(auto, unfolding(program_model::specs::Lookup::is_interface, jx_base::specs::Basics::passes))]
fn is_interface(outline: &Outline, class: u32) -> bool
    ensures { result ≡ is_interface outline.now class }
{
    match class_at(outline, class) {
        Some(found) => is_interface_flag(found.flags),
        None => false,
    }
}

// Whether a field is static, or is one of instances that no interface declares.
#[tactic(auto, unfolding(link_model::specs::LinkFaults::is_field_for))]
fn is_field_for(outline: &Outline, wants_static: bool, field: &Resolved) -> bool
    ensures { result ≡ is_field_for outline.now wants_static field.now }
{
    match field {
        Resolved::Static(_, _) => wants_static,
        Resolved::Instance(class, _) => !wants_static && !is_interface(outline, class.0),
        _ => false,
    }
}

#[tactic(auto, unfolding(link_model::specs::LinkFaults::calls_static))]
fn calls_static(kind: Invocation) -> bool
    ensures { result ≡ calls_static kind }
{
    matches!(kind, Invocation::Static)
}

// Whether a method is static where the call is, and only there.
#[tactic(auto, unfolding(link_model::specs::LinkFaults::is_method_for, jx_base::specs::Basics::passes))]
fn is_method_for(outline: &Outline, kind: Invocation, place: u32) -> bool
    ensures { result ≡ is_method_for outline.now kind place }
{
    match method_at(outline, place) {
        Some(method) => is_static(method.flags) == calls_static(kind),
        None => false,
    }
}

// Whether the class has a field that the use of one asks for.
#[tactic(auto, unfolding(jx_base::specs::Basics::passes))]
fn has_field(outline: &Outline, wants_static: bool, class: &[u16], member: NameAndType<'_>) -> bool
    ensures { result ≡ passes (is_field_for outline.now wants_static) (in_class outline.now
        class.now (found_field outline.now (selector_of member.entry))) }
{
    match field_in(outline, class, member) {
        Some(field) => is_field_for(outline, wants_static, &field),
        None => false,
    }
}

// Whether the class has a method that the call asks for.
#[tactic(auto, unfolding(jx_base::specs::Basics::passes))]
fn has_method(outline: &Outline, kind: Invocation, class: &[u16], member: NameAndType<'_>) -> bool
    ensures { result ≡ passes (is_method_for outline.now kind) (in_class outline.now
        class.now (found_method outline.now (selector_of member.entry))) }
{
    match method_in(outline, class, member) {
        Some(place) => is_method_for(outline, kind, place),
        None => false,
    }
}

/// Whether the class has the member that the use asks for, where it asks for one.
#[tactic(auto, unfolding(link_model::specs::LinkFaults::has_member))]
pub fn has_member(outline: &Outline, use_of: Use, class: &[u16], member: NameAndType<'_>) -> bool
    ensures { result ≡ has_member outline.now use_of class.now (selector_of member.entry) }
{
    match use_of {
        Use::AsField(wants_static) => has_field(outline, wants_static, class, member),
        Use::AsMethod(kind) => has_method(outline, kind, class, member),
        _ => true,
    }
}

/// The kind of fault of a missing member.
#[tactic(auto, unfolding(link_model::specs::LinkFaults::missing_kind))]
pub fn missing_kind(use_of: Use) -> LinkKind
    ensures { result ≡ missing_kind use_of }
{
    match use_of {
        Use::AsField(_) => LinkKind::NoField,
        _ => LinkKind::NoMethod,
    }
}
