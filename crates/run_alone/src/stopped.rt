//! Why a run gives no history.
ghost use Rattle.std.specs.Prelude.{◌≡◌};
ghost use Rattle.run_alone.specs.declared.stopped.Stopped.TheVariants.{OutOfMemory};

use std::alloc::{AllocError, AllocFailed};

/// Why a run gives no history: its worker came to an act that has no code by now, of a domain of
/// the template of that place in the plan, or memory was refused.
#[derive(Clone, Copy)]
pub enum Stopped {
    NoCode(u32),
    OutOfMemory,
}

impl From<AllocError> for Stopped {
    ghost from_gives = { λ _ stopped. stopped ≡ OutOfMemory };

    fn from(_: AllocError) -> Stopped {
        Stopped::OutOfMemory
    }
}

impl<T: Drop> From<AllocFailed<T>> for Stopped {
    ghost from_gives = { λ _ stopped. stopped ≡ OutOfMemory };

    fn from(_: AllocFailed<T>) -> Stopped {
        Stopped::OutOfMemory
    }
}
