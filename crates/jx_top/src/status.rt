//! How a command ends.
ghost use Rattle.std.specs.Prelude.{◌≡◌};
ghost use Rattle.jx_top.specs.declared.status.Status.TheVariants.{OutOfMemory};

use crate::defect::Defect;
use class_asm::AsmFault;
use link_model::LinkFault;
use std::alloc::{AllocError, AllocFailed};
use system_text::PlanFault;

/// How a command ended. `Missing` and `TooLong` carry the name of a file, `BadClass` that of a
/// class; `BadPlan`, `BadLink` and `BadAsm` the first fault of a description, of linking, and of an
/// assembler text. A run is `Done` where it ends in quiet, and `Halted` where the journal is full.
/// `NotYet` carries the name of the main class of a domain that came to an act without code.
#[derive(Drop)]
pub enum Status {
    Done,
    Usage,
    ShelfFault,
    Missing(String),
    TooLong(String),
    BadPlan(PlanFault),
    BadClass(String, Defect),
    BadLink(LinkFault),
    BadAsm(AsmFault),
    SinkFault,
    Halted,
    NotYet(String),
    OutOfMemory,
}

impl From<AllocError> for Status {
    ghost from_gives = { λ _ status. status ≡ OutOfMemory };

    fn from(_: AllocError) -> Status {
        Status::OutOfMemory
    }
}

impl<T: Drop> From<AllocFailed<T>> for Status {
    ghost from_gives = { λ _ status. status ≡ OutOfMemory };

    fn from(_: AllocFailed<T>) -> Status {
        Status::OutOfMemory
    }
}
