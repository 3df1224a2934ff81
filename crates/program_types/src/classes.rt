//! Classes of a system, and which objects fit a type.
ghost use Rattle.std.specs.Prelude.{◌≡◌, get_or, min, slice_set};
ghost use Rattle.program_types.specs.Vain.{AreVain};
ghost use Rattle.jx_base.specs.Basics.{contains_number};
ghost use Rattle.program_model.specs.Lookup.{class_named, class_of_type, supers_within, is_below};
ghost use Rattle.program_model.specs.Lookup.{fits_type, is_interface, lists_class};
ghost use Rattle.program_model.specs.Parcels.{knows_plain_class, knows_element, knows_class};

use crate::built_in::BUILT_IN_COUNT;
use crate::types::{
    ARRAY_MARK, base_type, class_name_of_type, is_primitive_type, is_reference_type,
};
use class_grammar::is_interface_flag;
use jx_base::System;

// For so many classes a walk keeps notes: all but some of arrays.
const NOTED: usize = 512;

/// The number of the first class of that name.
#[tactic(auto, unfolding(program_model::specs::Lookup::class_named))]
pub fn class_named(system: &System, name: &[u16]) -> Option<usize>
    ensures { result ≡ class_named system.now name.now }
{
    let classes = system.program.classes.as_slice();
    classes
        .iter()
        .position(|class| class.name.as_slice() == name)
}

/// The class of a class's or an array's type, where the system has it.
#[tactic(auto, unfolding(program_model::specs::Lookup::class_of_type))]
pub fn class_of_type(system: &System, kind: &[u16]) -> Option<usize>
    ensures { result ≡ class_of_type system.now kind.now }
{
    if is_reference_type(kind) {
        class_named(system, class_name_of_type(kind))
    } else {
        None
    }
}

// The steps that are noted for a class.
fn noted(vain: &[u16], class: usize) -> usize
    ensures { result ≡ get_or vain.now class 0 }
{
    match vain.get(class) {
        Some(steps) => *steps as usize,
        None => 0,
    }
}

// Notes so many steps for a class, or as many as can be noted.
fn note(vain: &mut [u16], class: usize, steps: usize)
    ensures { vain.new ≡ slice_set vain.old class (min steps 65535) }
{
    if class < vain.len() {
        vain[class] = steps.min(u16::MAX as usize) as u16;
    }
}

// Whether so many steps at most lead from a class over what it extends and implements to the other.
// In `vain` are for each class the steps that were walked from it in vain, so that none is walked
// again with as few.
fn reaches(system: &System, vain: &mut [u16], steps: usize, class: usize, above: usize) -> bool
    requires { AreVain system.now above vain.old }
    ensures reached { result ≡ contains_number (supers_within system.now steps class) above }
    ensures vain { AreVain system.now above vain.new }
{
    if steps <= noted(vain, class) {
        return false;
    }
    let Some(found) = system.program.classes.as_slice().get(class) else {
        return false;
    };
    if class == above {
        return true;
    }
    let interfaces = found.interfaces.as_slice();
    for interface in interfaces {
        if reaches(system, vain, steps - 1, interface.0 as usize, above) {
            return true;
        }
    }
    let by_parent = match found.parent {
        Some(parent) => reaches(system, vain, steps - 1, parent.0 as usize, above),
        None => false,
    };
    if !by_parent {
        note(vain, class, steps);
    }
    by_parent
}

/// Whether the first class is the second or extends or implements it. Takes no memory.
#[tactic(auto, unfolding(program_model::specs::Lookup::is_below, program_model::specs::Lookup::supers_of, program_model::specs::Lookup::class_count))]
pub fn is_below(system: &System, class: usize, above: usize) -> bool
    ensures { result ≡ is_below system.now class above }
{
    let mut vain = [0; NOTED];
    let steps = system.program.classes.as_slice().len();
    reaches(system, &mut vain, steps, class, above)
}

#[tactic(auto, unfolding(program_model::specs::Lookup::is_interface, program_model::specs::Lookup::class_at, jx_base::specs::Basics::passes))]
pub fn is_interface(system: &System, class: usize) -> bool
    ensures { result ≡ is_interface system.now class }
{
    match system.program.classes.as_slice().get(class) {
        Some(found) => is_interface_flag(found.flags),
        None => false,
    }
}

/// Whether an object of the class fits the type.
pub fn fits_type(system: &System, class: usize, kind: &[u16]) -> bool
    ensures { result ≡ fits_type system.now class kind.now }
{
    let [first, rest @ ..] = kind else {
        return false;
    };
    if *first != ARRAY_MARK {
        return match class_of_type(system, kind) {
            Some(other) => is_below(system, class, other),
            None => false,
        };
    }
    let Some(found) = system.program.classes.as_slice().get(class) else {
        return false;
    };
    let Some(component) = &found.component else {
        return false;
    };
    if component.as_slice() == rest {
        return true;
    }
    match class_of_type(system, component.as_slice()) {
        Some(other) => fits_type(system, other, rest),
        None => false,
    }
}

#[tactic(auto, unfolding(jx_base::specs::Basics::contains_number))]
fn contains(places: &[u32], place: usize) -> bool
    ensures { result ≡ contains_number places.now place }
{
    places.iter().any(|listed| *listed as usize == place)
}

// Whether the class of a plan's place is in the template's list.
#[tactic(auto, unfolding(program_model::specs::Lookup::lists_class, program_model::specs::Lookup::template_at, jx_base::specs::Basics::passes))]
fn lists_class(system: &System, template: u32, place: usize) -> bool
    ensures { result ≡ lists_class system.now template place }
{
    match system.plan.templates.as_slice().get(template as usize) {
        Some(found) => contains(found.classes.as_slice(), place),
        None => false,
    }
}

// Whether a class that is no array's is built in or in the template's list.
#[tactic(auto, unfolding(program_model::specs::Parcels::knows_plain_class, program_model::specs::BuiltIn::built_in_count))]
fn knows_plain_class(system: &System, template: u32, class: usize) -> bool
    ensures { result ≡ knows_plain_class system.now template class }
{
    class < BUILT_IN_COUNT || lists_class(system, template, class - BUILT_IN_COUNT)
}

// Whether the type is primitive, built in or in the template's list.
#[tactic(auto, unfolding(program_model::specs::Parcels::knows_element, jx_base::specs::Basics::passes))]
fn knows_element(system: &System, template: u32, kind: &[u16]) -> bool
    ensures { result ≡ knows_element system.now template kind.now }
{
    if is_primitive_type(kind) {
        return true;
    }
    match class_of_type(system, kind) {
        Some(class) => knows_plain_class(system, template, class),
        None => false,
    }
}

/// Whether domains of the template know the class.
#[tactic(auto, unfolding(program_model::specs::Parcels::knows_class, program_model::specs::Lookup::class_at))]
pub fn knows_class(system: &System, template: u32, class: usize) -> bool
    ensures { result ≡ knows_class system.now template class }
{
    match system.program.classes.as_slice().get(class) {
        Some(found) => match &found.component {
            Some(component) => knows_element(system, template, base_type(component.as_slice())),
            None => knows_plain_class(system, template, class),
        },
        None => false,
    }
}
