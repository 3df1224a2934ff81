//! Why a copy is not made.
ghost use Rattle.std.specs.Prelude.{◌≡◌};
ghost use Rattle.param_copy.specs.declared.fault.PackFault.TheVariants.{OutOfMemory};
ghost use Rattle.param_copy.specs.declared.fault.UnpackFault.TheVariants as unpacking;

use std::alloc::AllocError;
use thiserror::Error;

/// Why there is no parcel: it would have over 1,024 nodes or 4,096 words, or memory was refused.
#[derive(Debug, Drop, Error)]
pub enum PackFault {
    #[error("too many nodes or words")]
    TooMany,
    #[error("out of memory")]
    OutOfMemory,
}

impl From<AllocError> for PackFault {
    ghost from_gives = { λ _ fault. fault ≡ OutOfMemory };

    fn from(_: AllocError) -> PackFault {
        PackFault::OutOfMemory
    }
}

/// Why a parcel is not unpacked: its nodes need more cells than are left, or memory was refused.
#[derive(Debug, Drop, Error)]
pub enum UnpackFault {
    #[error("no room in the heap")]
    NoRoom,
    #[error("out of memory")]
    OutOfMemory,
}

impl From<AllocError> for UnpackFault {
    ghost from_gives = { λ _ fault. fault ≡ unpacking.OutOfMemory };

    fn from(_: AllocError) -> UnpackFault {
        UnpackFault::OutOfMemory
    }
}
