//! The supers of classes, each once.
ghost use Rattle.std.specs.Prelude.{◌≡◌, ◌<◌, ◌^◌, ℕ, IfOk, length};
ghost use Rattle.linker_search.specs.Walked.{distinct_supers, list_at};

use crate::walk::walk;
use jx_base::{Listed, OutOfMemory, System};
use std::alloc::Global;

fn supers_of(alloc: Global, system: &System, class: u32) -> Result<Listed<u32>, OutOfMemory>
    ensures { IfOk result (λ supers. supers ≡ distinct_supers system.now class) }
{
    let followed = walk(alloc, system, class)?;
    Listed::from_slice(alloc, followed.keys().as_slice())
}

/// For each class itself and all that it extends and implements, each once, in the order in which
/// a search goes over them.
pub fn all_supers(alloc: Global, system: &System) -> Result<Vec<Listed<u32>>, OutOfMemory>
    requires { length system.now.program.classes < 2 ^ 32 }
    ensures { IfOk result (λ supers. (c : ℕ) → list_at supers.items c
        ≡ distinct_supers system.now c) }
{
    let count = system.program.classes.as_slice().len();
    let mut supers = Vec::with_capacity(alloc, count)?;
    for class in 0..count {
        supers.push(supers_of(alloc, system, class as u32)?)?;
    }
    Ok(supers)
}
