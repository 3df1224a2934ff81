//! Why there is no answer.
ghost use Rattle.std.specs.Prelude.{◌≡◌};
ghost use Rattle.jx_base.specs.declared.error.Error.TheVariants.{OutOfMemory};

use std::alloc::{AllocError, AllocFailed};
use thiserror::Error as Message;

/// Why there is no answer: what was read has this fault, or memory was refused.
#[derive(Debug, Drop, Message)]
pub enum Error<F> {
    #[error("what was read has a fault")]
    Bad(F),
    #[error("out of memory")]
    OutOfMemory,
}

impl<F> From<AllocError> for Error<F> {
    ghost from_gives = { λ _ error. error ≡ OutOfMemory };

    fn from(_: AllocError) -> Error<F> {
        Error::OutOfMemory
    }
}

impl<F: Drop, T: Drop> From<AllocFailed<T>> for Error<F> {
    ghost from_gives = { λ _ error. error ≡ OutOfMemory };

    fn from(_: AllocFailed<T>) -> Error<F> {
        Error::OutOfMemory
    }
}
