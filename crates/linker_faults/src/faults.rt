//! Faults with texts of their own.
ghost use Rattle.std.specs.Prelude.{◌≡◌, IfOk};
ghost use Rattle.std.specs.Option.{option_map};
ghost use Rattle.link_model.specs.LinkFaults.{fault_if, named_fault};

use jx_base::{Listed, OutOfMemory};
use link_model::{LinkFault, LinkKind};
use std::alloc::Global;

// The fault of a class by the name that is at fault.
fn fault(
    alloc: Global,
    class: &[u16],
    kind: LinkKind,
    name: &[u16],
) -> Result<LinkFault, OutOfMemory>
    ensures { IfOk result (λ fault.
        fault ≡ record { class = class.now; kind = kind; name = name.now }) }
{
    Ok(LinkFault {
        class: Listed::from_slice(alloc, class)?,
        kind,
        name: Listed::from_slice(alloc, name)?,
    })
}

/// The fault where the test passes.
#[tactic(auto, unfolding(link_model::specs::LinkFaults::fault_if))]
pub fn fault_if(
    alloc: Global,
    test: bool,
    class: &[u16],
    kind: LinkKind,
    name: &[u16],
) -> Result<Option<LinkFault>, OutOfMemory>
    ensures { IfOk result (λ found. found ≡ fault_if test class.now kind name.now) }
{
    if test {
        Ok(Some(fault(alloc, class, kind, name)?))
    } else {
        Ok(None)
    }
}

/// The fault of the name, where there is one.
#[tactic(auto, unfolding(link_model::specs::LinkFaults::named_fault))]
pub fn named_fault(
    alloc: Global,
    class: &[u16],
    kind: LinkKind,
    name: Option<&[u16]>,
) -> Result<Option<LinkFault>, OutOfMemory>
    ensures { IfOk result (λ found.
        found ≡ named_fault class.now kind (option_map (λ units. units.now) name.entry)) }
{
    match name {
        Some(units) => Ok(Some(fault(alloc, class, kind, units)?)),
        None => Ok(None),
    }
}
