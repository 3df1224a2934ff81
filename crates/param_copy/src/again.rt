//! Packing again what was unpacked.
ghost use Rattle.param_copy.specs.Again.{PacksAgain};

/// What was packed and then unpacked into another heap is packed there as the same parcel, whatever
/// objects from before are exported there.
pub fn packs_again()
    ensures { PacksAgain }
{}
