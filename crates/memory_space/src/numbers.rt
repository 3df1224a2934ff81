//! Numbers that acts are given.
ghost use Rattle.std.specs.Prelude.{◌≡◌};
ghost use Rattle.jx_base.specs.Basics.{not_below_zero};
ghost use Rattle.memory_space.specs.Numbers as Spec;

// The bytes of an allocation.
const LARGEST: i32 = 1_048_576;

/// The number, or 0 for one below 0.
#[tactic(auto, unfolding(jx_base::specs::Basics::not_below_zero))]
pub fn natural(number: i32) -> u32
    ensures { result ≡ not_below_zero number }
{
    if number < 0 { 0 } else { number as u32 }
}

/// The bytes of an allocation of so many. `None` where there is none of so many.
#[tactic(auto, unfolding(jx_model::specs::Replies::is_positive_up_to, program_model::specs::Limits::allocation_limit, jx_base::specs::Basics::not_below_zero))]
pub fn allocation(number: i32) -> Option<u32>
    ensures { result ≡ Spec.allocation number }
{
    if number < 1 || number > LARGEST {
        None
    } else {
        Some(number as u32)
    }
}
