//! Which classes a template's code may name.
ghost use Rattle.std.specs.Prelude.{◌≡◌, ◌&&◌, ◌==◌, map};
ghost use Rattle.jx_base.specs.Basics.{has_text};
ghost use Rattle.link_model.specs.LinkFaults.{is_known, is_known_plain, is_known_type};
ghost use Rattle.linker_uses.specs.BuiltInFirst.{HasBuiltIns};
ghost use Rattle.program_model.specs.BuiltIn.{built_in_table};
ghost use Rattle.program_model.specs.Types.{is_number_type};

use crate::fitting::dimensions;
use linker_lists::TemplateClasses;
use linker_search::Outline;

// How many built-in classes there are, which come first.
const BUILT_IN_COUNT: u32 = 27;

// What the type of a class begins and ends with.
const CLASS_MARK: u16 = b'L' as u16;

const CLASS_END: u16 = b';' as u16;

// The types of numbers.
const NUMBERS: [u16; 6] = [
    b'B' as u16,
    b'C' as u16,
    b'I' as u16,
    b'J' as u16,
    b'S' as u16,
    b'Z' as u16,
];

// Whether the name is that of a built-in class.
fn is_built_in(outline: &Outline, name: &[u16]) -> bool
    requires { HasBuiltIns outline.now }
    ensures { result ≡ has_text (map (λ k. k.name) built_in_table) name.now }
{
    match outline.class_named(name) {
        Some(class) => class < BUILT_IN_COUNT,
        None => false,
    }
}

// Whether a class that is no array is in the template's list or built in.
#[tactic(auto, unfolding(link_model::specs::LinkFaults::is_known_plain))]
fn is_known_plain(outline: &Outline, classes: &TemplateClasses<'_>, name: &[u16]) -> bool
    requires { HasBuiltIns outline.now }
    ensures { result ≡ is_known_plain classes.now.plan classes.now.template name.now }
{
    classes.lists(name) || is_built_in(outline, name)
}

#[tactic(auto, unfolding(program_model::specs::Types::is_number_type, jx_base::specs::Basics::contains_number))]
fn is_number_type(kind: &[u16]) -> bool
    ensures { result ≡ is_number_type kind.now }
{
    match kind {
        [unit] => NUMBERS.contains(unit),
        _ => false,
    }
}

// Whether a type begins and ends as a class's does.
fn is_class_type(first: u16, last: u16) -> bool
    ensures { result ≡ (first == 76) && (last == 59) }
{
    first == CLASS_MARK && last == CLASS_END
}

// Whether a type is a number's, or that of such a class.
fn is_known_type(outline: &Outline, classes: &TemplateClasses<'_>, kind: &[u16]) -> bool
    requires { HasBuiltIns outline.now }
    ensures { result ≡ is_known_type classes.now.plan classes.now.template kind.now }
{
    match kind {
        [first, name @ .., last] => {
            is_class_type(*first, *last) && is_known_plain(outline, classes, name)
        }
        _ => is_number_type(kind),
    }
}

/// Whether a class is in the template's list, built in, or an array over such a class or over
/// numbers.
#[tactic(auto, unfolding(link_model::specs::LinkFaults::is_known))]
pub fn is_known(outline: &Outline, classes: &TemplateClasses<'_>, name: &[u16]) -> bool
    requires { HasBuiltIns outline.now }
    ensures { result ≡ is_known classes.now.plan classes.now.template name.now }
{
    let count = dimensions(name);
    if count == 0 {
        is_known_plain(outline, classes, name)
    } else {
        is_known_type(outline, classes, &name[count..])
    }
}
