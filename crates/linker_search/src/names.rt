//! The names of classes.
ghost use Rattle.std.specs.Prelude.{◌≡◌, map, IfOk};

use jx_base::{Class, OutOfMemory};
use linker_outline::Names;
use std::alloc::Global;

/// The names of the classes in their order.
pub fn class_names(alloc: Global, classes: &[Class]) -> Result<Names, OutOfMemory>
    ensures { IfOk result (λ names. names ≡ map (λ k. k.name) classes.now) }
{
    let mut names = Vec::with_capacity(alloc, classes.len())?;
    for class in classes {
        names.push(class.name.copy(alloc)?)?;
    }
    Names::new(alloc, names)
}
