//! Why a class isn't read.

ghost use Rattle.std.specs.Prelude.{◌≡◌};
ghost use Rattle.jx_top.specs.declared.class_error.ClassError.TheVariants.{OutOfMemory};

use crate::defect::Defect;
use std::alloc::{AllocError, AllocFailed};

/// Why a class isn't read.
#[derive(Drop)]
pub enum ClassError {
    Bad(Defect),
    OutOfMemory,
}

impl From<AllocError> for ClassError {
    ghost from_gives = { λ _ error. error ≡ OutOfMemory };

    fn from(_: AllocError) -> ClassError {
        ClassError::OutOfMemory
    }
}

impl<T: Drop> From<AllocFailed<T>> for ClassError {
    ghost from_gives = { λ _ error. error ≡ OutOfMemory };

    fn from(_: AllocFailed<T>) -> ClassError {
        ClassError::OutOfMemory
    }
}
