//! The handlers of a method's exceptions (JVMS 2.10).
ghost use Rattle.std.specs.Prelude.{◌≡◌, find};
ghost use Rattle.std.specs.Option.{option_map};
ghost use Rattle.machine_model.specs.State as Spec;
ghost use Rattle.program_model.specs.Lookup as Lookup;

use interp_core::{class_of_frame, code_of, constant_at};
use jx_base::{Frame, Range, Resolved, System};
use program_types::{Shape, shape_fits_class};

// The catch type of an entry that catches every object.
const EVERY_CLASS: u32 = 0;

// Whether an object of the class fits the other class.
#[tactic(auto, unfolding(program_model::specs::Lookup::class_fits))]
fn class_fits(system: &System, class: u32, other: u32) -> bool
    ensures { result ≡ Lookup.class_fits system.now class other }
{
    shape_fits_class(system, false, Shape::Object(class), other as usize)
}

// Whether a constant of the frame's class is a class that the thrown object's class fits.
#[tactic(auto, unfolding(machine_model::specs::State::is_caught_by))]
fn is_caught_by(system: &System, thrown: u32, frame: &Frame, index: u32) -> bool
    ensures { result ≡ Spec.is_caught_by system.now thrown
        (Lookup.constant_at system.now (Spec.class_of_frame system.now frame.now) index) }
{
    match constant_at(system, class_of_frame(system, frame), index) {
        Some(Resolved::Class(class)) => class_fits(system, thrown, class.0),
        _ => false,
    }
}

// Whether an entry of the exception table catches an object of that class at the frame's pc.
#[tactic(auto, unfolding(machine_model::specs::State::is_handler_for))]
fn is_handler_for(system: &System, thrown: u32, frame: &Frame, range: Range) -> bool
    ensures { result ≡ Spec.is_handler_for system.now thrown frame.now range }
{
    range.start <= frame.pc
        && frame.pc < range.end
        && (range.catch_type == EVERY_CLASS
            || is_caught_by(system, thrown, frame, range.catch_type))
}

// The handler of the first of these entries that catches an object of that class.
fn first_handler(system: &System, thrown: u32, frame: &Frame, ranges: &[Range]) -> Option<u32>
    ensures { result ≡ option_map (λ r. r.handler)
        (find (Spec.is_handler_for system.now thrown frame.now) ranges.now) }
{
    let found = ranges
        .iter()
        .find(|range| is_handler_for(system, thrown, frame, **range))?;
    Some(found.handler)
}

/// The place of the handler that a frame's method has for an object of that class at the frame's pc.
/// Takes no memory.
#[tactic(auto, unfolding(machine_model::specs::State::handler_in))]
pub fn handler_in(system: &System, thrown: u32, frame: &Frame) -> Option<u32>
    ensures { result ≡ Spec.handler_in system.now thrown frame.now }
{
    let code = code_of(system, frame.method)?;
    first_handler(system, thrown, frame, code.table.as_slice())
}
