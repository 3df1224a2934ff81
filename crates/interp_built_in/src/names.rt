//! The names of services: 1 to 255 units from 0x21 to 0x7E.
ghost use Rattle.std.specs.Prelude.{◌≡◌};
ghost use Rattle.std.specs.List.{list_all};
ghost use Rattle.program_model.specs.Ranges as Spec;

// The units that a service's name has at most.
const NAME_LIMIT: usize = 255;

// Whether the unit is printable and no blank.
#[tactic(auto, unfolding(program_model::specs::Ranges::is_name_unit))]
fn is_name_unit(unit: u16) -> bool
    ensures { result ≡ Spec.is_name_unit unit }
{
    33 <= unit && unit <= 126
}

fn are_name_units(units: &[u16]) -> bool
    ensures { result ≡ list_all Spec.is_name_unit units.now }
{
    units.iter().all(|unit| is_name_unit(*unit))
}

/// Whether a service can be bound to the name.
#[tactic(auto, unfolding(program_model::specs::Ranges::is_service_name, program_model::specs::Limits::name_limit))]
pub fn is_service_name(name: &[u16]) -> bool
    ensures { result ≡ Spec.is_service_name name.now }
{
    if name.is_empty() || name.len() > NAME_LIMIT {
        return false;
    }
    are_name_units(name)
}
