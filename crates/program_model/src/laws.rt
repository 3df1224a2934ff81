//! Laws of parcels. The function answers nothing and promises the law.

ghost use Rattle.program_model.specs.Parcels.{WalksEnd};

/// The rounds of the walk of a parcel end in the one walk.
pub fn walks_end()
    ensures { WalksEnd }
{}
