//! The selectors of the methods that the start runs.
ghost use Rattle.std.specs.Prelude.{◌≡◌, IfOk, codes};

use jx_base::{OutOfMemory, Selector, text_of};
use std::alloc::Global;

fn selector(alloc: Global, name: &str, descriptor: &str) -> Result<Selector, OutOfMemory>
    ensures { IfOk result (λ selector.
        selector ≡ record { name = name.now; descriptor = descriptor.now }) }
{
    Ok(Selector {
        name: text_of(alloc, name)?,
        descriptor: text_of(alloc, descriptor)?,
    })
}

/// The selector of static initialisers.
pub fn initializer_selector(alloc: Global) -> Result<Selector, OutOfMemory>
    ensures { IfOk result (λ selector.
        selector ≡ record { name = codes "<clinit>"; descriptor = codes "()V" }) }
{
    selector(alloc, "<clinit>", "()V")
}

/// The selector of main methods.
pub fn main_selector(alloc: Global) -> Result<Selector, OutOfMemory>
    ensures { IfOk result (λ selector. selector
        ≡ record { name = codes "main"; descriptor = codes "([Ljava/lang/String;)V" }) }
{
    selector(alloc, "main", "([Ljava/lang/String;)V")
}
