//! How many domains and threads there can be.
ghost use Rattle.std.specs.Prelude.{◌≡◌};
ghost use Rattle.program_model.specs.Limits.{domain_limit};

use jx_base::System;

// The services that are ever exported.
const MOST_SERVICES: usize = 256;

// The most threads of a service.
const THREADS_OF_SERVICE: usize = 8;

/// The threads of a domain: its first one, and those of each service.
pub const MOST_THREADS: usize = 1 + MOST_SERVICES * THREADS_OF_SERVICE;

/// The domains that are ever made.
#[tactic(auto, unfolding(program_model::specs::Limits::domain_limit))]
pub fn domain_limit(_system: &System) -> u32
    ensures { result ≡ domain_limit _system.now }
{
    64
}
