//! What a machine holds.
use crate::threads::Thread;
use interp_core::Core;

/// The heap of a domain with all that its threads share, the threads by their numbers, the one that
/// runs, and the fuel that is left. The core has no frames of its own.
#[derive(Drop)]
pub struct Held {
    pub core: Core,
    pub threads: Vec<Thread>,
    pub running: Option<u32>,
    pub fuel: u32,
}
