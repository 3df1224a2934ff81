//! Which constants and which classes a use can have.
ghost use Rattle.std.specs.Prelude.{◌≡◌, ◌≤◌, length};
ghost use Rattle.link_model.specs.LinkFaults.{dimensions_of, has_shape_for, has_tag_for};

use jx_base::{Constant, Invocation};
use link_model::Use;

// What an array's name begins with, once for each dimension.
const MARK: u16 = b'[' as u16;

/// How many dimensions a class has, by its name.
pub fn dimensions(class: &[u16]) -> usize
    ensures count { result ≡ dimensions_of class.now }
    ensures within { result ≤ length class.now }
{
    let mut count = 0;
    while let Some(unit) = class.get(count) {
        if *unit != MARK {
            break;
        }
        count += 1;
    }
    count
}

/// Whether the constant is of a tag that the use can have.
#[tactic(auto, unfolding(link_model::specs::LinkFaults::has_tag_for))]
pub fn has_tag_for(use_of: Use, constant: &Constant) -> bool
    ensures { result ≡ has_tag_for use_of constant.now }
{
    match use_of {
        Use::AsWord => matches!(constant, Constant::Integer(_) | Constant::Str(_)),
        Use::AsLong => matches!(constant, Constant::Long(_)),
        Use::AsField(_) => matches!(constant, Constant::Field(_, _)),
        Use::AsMethod(Invocation::Interface) => {
            matches!(constant, Constant::InterfaceMethod(_, _))
        }
        Use::AsMethod(_) => matches!(constant, Constant::Method(_, _)),
        Use::AsNew | Use::AsClass | Use::AsArray(_) => matches!(constant, Constant::Class(_)),
    }
}

/// Whether the class can have the use by its dimensions.
#[tactic(auto, unfolding(link_model::specs::LinkFaults::has_shape_for))]
pub fn has_shape_for(use_of: Use, class: &[u16]) -> bool
    ensures { result ≡ has_shape_for use_of class.now }
{
    match use_of {
        Use::AsNew => dimensions(class) == 0,
        Use::AsArray(wanted) => dimensions(class) >= wanted as usize,
        _ => true,
    }
}
