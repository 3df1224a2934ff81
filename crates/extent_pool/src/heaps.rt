//! How many granules a heap takes.
ghost use Rattle.std.specs.Prelude.{◌≡◌, ◌≤◌, ◌^◌};
ghost use Rattle.jx_base.specs.Basics.{parts_of};
ghost use Rattle.jx_model.specs.Granules as Spec;
ghost use Rattle.program_model.specs.Limits.{granule_cells};

use jx_base::System;

// The granules of so many cells.
#[tactic(auto, unfolding(jx_base::specs::Basics::parts_of, program_model::specs::Limits::granule_cells))]
fn granules_of(cells: u32) -> u32
    ensures granules { result ≡ parts_of granule_cells cells }
    ensures small { result ≤ 2 ^ 29 }
{
    ((u64::from(cells) + 7) / 8) as u32
}

/// The granules of the heap of a domain of the template, of eight cells each. 0 where the plan has no
/// such template.
pub fn heap_granules(system: &System, template: u32) -> u32
    ensures granules { result ≡ Spec.heap_granules system.now template }
    ensures small { result ≤ 2 ^ 29 }
{
    match system.plan.templates.as_slice().get(template as usize) {
        Some(found) => granules_of(found.heap),
        None => 0,
    }
}
