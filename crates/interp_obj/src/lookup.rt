//! Methods and selectors by their numbers.
ghost use Rattle.std.specs.Prelude.{◌≡◌, IfOk, option_map};
ghost use Rattle.std.specs.Option.{option_map};
ghost use Rattle.program_model.specs.Lookup.{method_at, selector_at};

use jx_base::{Method, OutOfMemory, Selector, System};
use std::alloc::AllocError;

/// The method of that place.
#[tactic(auto, unfolding(program_model::specs::Lookup::method_at))]
pub fn method_at(system: &System, place: u32) -> Option<&Method>
    ensures { option_map (λ m. m.now) result ≡ method_at system.now place }
{
    system.program.methods.as_slice().get(place as usize)
}

/// The selector of that number.
#[tactic(auto, unfolding(program_model::specs::Lookup::selector_at))]
pub fn selector_at(system: &System, number: u32) -> Option<&Selector>
    ensures { option_map (λ y. y.now) result ≡ selector_at system.now number }
{
    system.program.selectors.as_slice().get(number as usize)
}

/// The place of a method as frames keep it, in 32 bits: one behind those is out of memory.
pub fn frame_place(place: usize) -> Result<u32, OutOfMemory>
    ensures { IfOk result (λ kept. kept ≡ place) }
{
    u32::try_from(place).map_err(|_| AllocError)
}
