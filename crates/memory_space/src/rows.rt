//! Where an extent lies.
ghost use Rattle.std.specs.Prelude.{◌≡◌, ◌*◌, ◌^◌, ◌<◌};
ghost use Rattle.jx_base.specs.Basics.{parts_of};
ghost use Rattle.jx_model.specs.Granules as Spec;
ghost use Rattle.program_model.specs.Limits.{granule_bytes};

/// The first granule of an extent, its bytes, and whether they are kept.
#[derive(Clone, Copy)]
pub struct ExtentRow {
    pub at: u32,
    pub size: u32,
    pub live: bool,
}

/// The granules of so many bytes.
#[tactic(auto, unfolding(jx_model::specs::Granules::extent_granules, jx_base::specs::Basics::parts_of, program_model::specs::Limits::granule_bytes))]
pub fn extent_granules(size: u32) -> u32
    ensures { result ≡ Spec.extent_granules size }
{
    ((u64::from(size) + 63) / 64) as u32
}

impl ExtentRow {
    /// The cell where its bytes begin.
    pub fn start(self) -> usize
        ensures cell { result ≡ 64 * self.at }
        ensures small { result < 2 ^ 38 }
    {
        64 * self.at as usize
    }
}
