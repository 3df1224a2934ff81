//! What of a value decides which types it fits.
ghost use Rattle.std.specs.Prelude.{◌≡◌, ◌≢◌, get_or};
ghost use Rattle.jx_base.specs.Basics.{passes};
ghost use Rattle.program_model.specs.Lookup.{class_named, class_of_type, is_interface};
ghost use Rattle.program_model.specs.Lookup.{object_fits, shape_fits, shape_fits_class};
ghost use Rattle.program_model.specs.Lookup.{type_of_name, PortalShape};
ghost use Rattle.program_types.specs.Shapes.{shape_state};

use crate::built_in::PORTAL;
use crate::classes::{class_named, class_of_type, fits_type, is_below, is_interface};
use crate::types::{ARRAY_MARK, is_int_type, is_long_type, is_reference_type};
use jx_base::System;

/// The kind of a value, and the class of an object or the interface of a portal. `Unknown` is a
/// reference to no object, which fits no type.
#[derive(Clone, Copy)]
pub enum Shape {
    Int(i32),
    Long,
    Null,
    Object(u32),
    Portal(u32),
    Unknown,
}

// Whether a portal of that interface fits the type.
#[tactic(auto, unfolding(program_model::specs::Lookup::object_fits, jx_base::specs::Basics::is_number, program_model::specs::BuiltIn::portal_class))]
fn portal_fits(system: &System, iface: u32, kind: &[u16]) -> bool
    ensures { result ≡ object_fits system.now (PortalShape iface) kind.now }
{
    if fits_type(system, iface as usize, kind) {
        return true;
    }
    match class_of_type(system, kind) {
        Some(class) => class == PORTAL.0 as usize,
        None => false,
    }
}

// Whether the type is an interface's.
#[tactic(auto, unfolding(jx_base::specs::Basics::passes))]
fn is_interface_type(system: &System, kind: &[u16]) -> bool
    ensures { result ≡ passes (is_interface system.now) (class_of_type system.now kind.now) }
{
    match class_of_type(system, kind) {
        Some(class) => is_interface(system, class),
        None => false,
    }
}

/// Whether a value fits a declared type. Where it is loose, every object and portal fits every
/// interface besides. Takes no memory.
#[tactic(auto, unfolding(program_model::specs::Lookup::shape_fits, program_model::specs::Lookup::object_fits))]
pub fn shape_fits(system: &System, loose: bool, shape: Shape, kind: &[u16]) -> bool
    ensures { result ≡ shape_fits system.now loose (shape_state shape) kind.now }
{
    match shape {
        Shape::Int(_) => is_int_type(kind),
        Shape::Long => is_long_type(kind),
        Shape::Null => is_reference_type(kind),
        Shape::Object(class) => {
            fits_type(system, class as usize, kind) || loose && is_interface_type(system, kind)
        }
        Shape::Portal(iface) => {
            portal_fits(system, iface, kind) || loose && is_interface_type(system, kind)
        }
        Shape::Unknown => false,
    }
}

// Whether a value fits the type of a class of that name that is no array's.
#[tactic(auto, using(crate::proofs::ShapeSteps::fits_named), unfolding(jx_base::specs::Basics::passes, jx_base::specs::Basics::is_number, program_model::specs::BuiltIn::portal_class))]
fn fits_plain_class(system: &System, loose: bool, shape: Shape, name: &[u16]) -> bool
    requires { get_or name.now 0 91 ≢ 91 }
    ensures { result ≡ shape_fits system.now loose (shape_state shape) (type_of_name name.now) }
{
    match shape {
        Shape::Int(_) | Shape::Long | Shape::Unknown => false,
        Shape::Null => true,
        Shape::Object(class) => match class_named(system, name) {
            Some(above) => {
                is_below(system, class as usize, above) || loose && is_interface(system, above)
            }
            None => false,
        },
        Shape::Portal(iface) => match class_named(system, name) {
            Some(above) => {
                is_below(system, iface as usize, above)
                    || above == PORTAL.0 as usize
                    || loose && is_interface(system, above)
            }
            None => false,
        },
    }
}

/// Whether a value fits the type of a class, loosely or not. Takes no memory.
pub fn shape_fits_class(system: &System, loose: bool, shape: Shape, class: usize) -> bool
    ensures { result ≡ shape_fits_class system.now loose (shape_state shape) class }
{
    let Some(found) = system.program.classes.as_slice().get(class) else {
        return false;
    };
    let name = found.name.as_slice();
    match name {
        [] => false,
        [ARRAY_MARK, ..] => shape_fits(system, loose, shape, name),
        _ => fits_plain_class(system, loose, shape, name),
    }
}
