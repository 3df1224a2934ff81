//! The classes of arrays, by the types of their elements (JVMS 4.2.1, 4.3.2).
ghost use Rattle.std.specs.Prelude.{◌≡◌, ◌<◌, ◌^◌, ◌∷◌, ◌++◌, [], IfSome};
ghost use Rattle.std.specs.Option.{option_map};
ghost use Rattle.std.specs.Str.{bytes_eq};
ghost use Rattle.program_model.specs.Lookup.{class_count, class_named, type_of_name};

use jx_base::{ClassId, System};
use program_types::class_named;

const ARRAY_MARK: u16 = b'[' as u16;

// What a class's type begins with, and what it ends with.
const CLASS_MARK: u16 = b'L' as u16;

const CLASS_END: u16 = b';' as u16;

// Whether that is the name of the arrays of such elements.
fn is_array_of(name: &[u16], kind: &[u16]) -> bool
    ensures { result ≡ bytes_eq name.now (91 ∷ kind.now) }
{
    match name {
        [first, rest @ ..] => *first == ARRAY_MARK && rest == kind,
        [] => false,
    }
}

// Whether the units are those, and the end of a class's type.
fn is_ended(units: &[u16], name: &[u16]) -> bool
    ensures { result ≡ bytes_eq units.now (name.now ++ 59 ∷ []) }
{
    match units.split_last() {
        Some((last, front)) => *last == CLASS_END && front == name,
        None => false,
    }
}

// Whether that is the type of the class of that name, which is no array's.
fn is_class_type(kind: &[u16], name: &[u16]) -> bool
    ensures { result ≡ bytes_eq kind.now (76 ∷ name.now ++ 59 ∷ []) }
{
    match kind {
        [first, rest @ ..] => *first == CLASS_MARK && is_ended(rest, name),
        [] => false,
    }
}

// Whether that is the type of the class of that name.
#[tactic(auto, unfolding(program_model::specs::Lookup::type_of_name))]
fn is_type_of_name(kind: &[u16], name: &[u16]) -> bool
    ensures { result ≡ bytes_eq kind.now (type_of_name name.now) }
{
    match name {
        [] => kind.is_empty(),
        [first, ..] => {
            if *first == ARRAY_MARK {
                kind == name
            } else {
                is_class_type(kind, name)
            }
        }
    }
}

// Whether that is the name of the arrays of objects of the class of that name.
fn is_array_of_class(name: &[u16], class: &[u16]) -> bool
    ensures { result ≡ bytes_eq name.now (91 ∷ type_of_name class.now) }
{
    match name {
        [first, rest @ ..] => *first == ARRAY_MARK && is_type_of_name(rest, class),
        [] => false,
    }
}

// A place among the classes as a class.
fn class_at_place(place: Option<usize>) -> Option<ClassId>
    requires { IfSome place (λ c. c < 2 ^ 32) }
    ensures { option_map (λ c. c.0) result ≡ place }
{
    match place {
        Some(place) => Some(ClassId(place as u32)),
        None => None,
    }
}

// The class of that name.
pub(crate) fn class_of_name(system: &System, name: &[u16]) -> Option<ClassId>
    requires { class_count system.now < 2 ^ 32 }
    ensures { option_map (λ c. c.0) result ≡ class_named system.now name.now }
{
    class_at_place(class_named(system, name))
}

// The place of the class of the arrays of such elements.
#[tactic(auto, unfolding(program_model::specs::Lookup::class_named))]
fn array_place(system: &System, kind: &[u16]) -> Option<usize>
    ensures { result ≡ class_named system.now (91 ∷ kind.now) }
{
    let classes = system.program.classes.as_slice();
    classes
        .iter()
        .position(|class| is_array_of(class.name.as_slice(), kind))
}

// The class of the arrays of such elements.
pub(crate) fn array_class(system: &System, kind: &[u16]) -> Option<ClassId>
    requires { class_count system.now < 2 ^ 32 }
    ensures { option_map (λ c. c.0) result ≡ class_named system.now (91 ∷ kind.now) }
{
    class_at_place(array_place(system, kind))
}

// The place of the class of the arrays of objects of the class of that name.
#[tactic(auto, unfolding(program_model::specs::Lookup::class_named))]
fn reference_array_place(system: &System, name: &[u16]) -> Option<usize>
    ensures { result ≡ class_named system.now (91 ∷ type_of_name name.now) }
{
    let classes = system.program.classes.as_slice();
    classes
        .iter()
        .position(|class| is_array_of_class(class.name.as_slice(), name))
}

// The class of the arrays of objects of the class of that name.
pub(crate) fn reference_array_class(system: &System, name: &[u16]) -> Option<ClassId>
    requires { class_count system.now < 2 ^ 32 }
    ensures { option_map (λ c. c.0) result
        ≡ class_named system.now (91 ∷ type_of_name name.now) }
{
    class_at_place(reference_array_place(system, name))
}
