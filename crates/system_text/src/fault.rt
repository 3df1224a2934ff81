//! Why bytes aren't read as a description.

use jx_base::{Error, Text};

/// The first fault of a description. `Twice` carries the name that is there twice, each other the
/// key, as `granules` or `domain[0].heap`; domains are counted from 0.
#[derive(Debug, Drop)]
pub enum PlanFault {
    NotToml,
    Missing(Text),
    Kind(Text),
    Range(Text),
    Twice(Text),
    Unknown(Text),
}

/// Why there is no plan.
pub type PlanError = Error<PlanFault>;
