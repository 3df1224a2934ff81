//! Which acts have code by now.
ghost use Rattle.std.specs.Prelude.{◌≡◌};
ghost use Rattle.supported_acts.specs.SupportedActs as Spec;

use jx_base::Act;

/// Whether the act has code: all but those on memory objects, a spawn and a kill do.
#[tactic(auto, unfolding(crate::specs::SupportedActs::is_supported))]
pub fn is_supported(act: &Act) -> bool
    ensures { result ≡ Spec.is_supported act.now }
{
    match act {
        Act::Alloc(_)
        | Act::Size(_)
        | Act::Get { .. }
        | Act::Set { .. }
        | Act::Fill { .. }
        | Act::Copy { .. }
        | Act::Sub { .. }
        | Act::Split { .. }
        | Act::Revoke(_)
        | Act::Release(_)
        | Act::Spawn { .. }
        | Act::Kill(_) => false,
        _ => true,
    }
}
