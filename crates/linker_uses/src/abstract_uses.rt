//! Uses of what is abstract.
ghost use Rattle.std.specs.Prelude.{◌≡◌};
ghost use Rattle.jx_base.specs.Basics.{passes};
ghost use Rattle.link_model.specs.LinkFaults.{abstract_name, is_abstract_method};
ghost use Rattle.link_model.specs.LinkFaults.{is_not_made, needs_abstract};
ghost use Rattle.link_model.specs.Linking.{found_method, in_class};
ghost use Rattle.linker_names.specs.Names.{selector_of};
ghost use Rattle.program_model.specs.Lookup.{class_named};

use crate::members::{class_at, method_at, method_in};
use class_grammar::{is_abstract, is_interface_flag};
use jx_base::Invocation;
use link_model::Use;
use linker_names::NameAndType;
use linker_search::Outline;

// The classes that the nucleus alone makes: java/lang/String, jx/Zero and jx/Memory.
const MADE_BY_NUCLEUS: [u32; 3] = [1, 19, 20];

// Whether a class may not be made by new.
#[tactic(auto, unfolding(link_model::specs::LinkFaults::is_not_made, jx_base::specs::Basics::passes, jx_base::specs::Basics::contains_number, program_model::specs::BuiltIn::string_class, program_model::specs::BuiltIn::zero_class, program_model::specs::BuiltIn::memory_class))]
fn is_not_made(outline: &Outline, class: u32) -> bool
    ensures { result ≡ is_not_made outline.now class }
{
    let is_abstract = match class_at(outline, class) {
        Some(found) => is_abstract(found.flags) || is_interface_flag(found.flags),
        None => false,
    };
    is_abstract || MADE_BY_NUCLEUS.contains(&class)
}

// Whether the class of that name may not be made by new.
#[tactic(auto, unfolding(jx_base::specs::Basics::passes))]
fn makes_abstract(outline: &Outline, class: &[u16]) -> bool
    ensures { result ≡ passes (is_not_made outline.now) (class_named outline.now class.now) }
{
    match outline.class_named(class) {
        Some(number) => is_not_made(outline, number),
        None => false,
    }
}

#[tactic(auto, unfolding(link_model::specs::LinkFaults::is_abstract_method, jx_base::specs::Basics::passes))]
fn is_abstract_method(outline: &Outline, place: u32) -> bool
    ensures { result ≡ is_abstract_method outline.now place }
{
    match method_at(outline, place) {
        Some(method) => is_abstract(method.flags),
        None => false,
    }
}

// Whether the method that is found in the class is abstract.
#[tactic(auto, unfolding(jx_base::specs::Basics::passes))]
fn runs_abstract(outline: &Outline, class: &[u16], member: NameAndType<'_>) -> bool
    ensures { result ≡ passes (is_abstract_method outline.now) (in_class outline.now
        class.now (found_method outline.now (selector_of member.entry))) }
{
    match method_in(outline, class, member) {
        Some(place) => is_abstract_method(outline, place),
        None => false,
    }
}

/// Whether the use needs what is abstract: a class that is made, or a method that is run as it was
/// found.
#[tactic(auto, unfolding(link_model::specs::LinkFaults::needs_abstract))]
pub fn needs_abstract(
    outline: &Outline,
    use_of: Use,
    class: &[u16],
    member: NameAndType<'_>,
) -> bool
    ensures { result ≡ needs_abstract outline.now use_of class.now (selector_of member.entry) }
{
    match use_of {
        Use::AsNew => makes_abstract(outline, class),
        Use::AsMethod(Invocation::Special | Invocation::Static) => {
            runs_abstract(outline, class, member)
        }
        _ => false,
    }
}

/// The name of what is abstract: of the class that is made, or of the method.
#[tactic(auto, unfolding(link_model::specs::LinkFaults::abstract_name))]
pub fn abstract_name<'a>(use_of: Use, class: &'a [u16], member: NameAndType<'a>) -> &'a [u16]
    ensures { result.now ≡ abstract_name use_of class.now (selector_of member.entry) }
{
    match use_of {
        Use::AsNew => class,
        _ => member.name,
    }
}
