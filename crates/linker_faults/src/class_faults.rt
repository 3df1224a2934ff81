//! The first fault of a class alone.
ghost use Rattle.std.specs.Prelude.{◌≡◌, Some, IfOk, slice_get};
ghost use Rattle.linker_faults.specs.ClassFaults.{first_fault_of, hierarchy_fault, interface_fault};
ghost use Rattle.linker_faults.specs.ClassFaults.{loop_fault, super_fault, wrong_name_fault};
ghost use Rattle.linker_faults.specs.Listing.{shown};

use crate::faults::{fault_if, named_fault};
use crate::hierarchy::Hierarchy;
use crate::listing::Listing;
use crate::relations::{first_no_interface, may_extend};
use crate::repeats::Repeats;
use jx_base::OutOfMemory;
use link_model::{LinkFault, LinkKind};
use linker_names::{super_name, this_name};
use std::alloc::Global;

// The file has another name than the plan says.
fn wrong_name_fault(alloc: Global, class: &Listing<'_>) -> Result<Option<LinkFault>, OutOfMemory>
    ensures { IfOk result (λ fault. fault ≡ wrong_name_fault (shown class.now)) }
{
    let name = this_name(class.file);
    let expected = class.name.as_slice();
    fault_if(alloc, name != expected, expected, LinkKind::WrongName, name)
}

// The class may not have its super.
fn super_fault(
    alloc: Global,
    hierarchy: &Hierarchy<'_>,
    class: &Listing<'_>,
) -> Result<Option<LinkFault>, OutOfMemory>
    ensures { IfOk result (λ fault. fault ≡ super_fault hierarchy.now (shown class.now)) }
{
    let parent = super_name(class.file);
    let refused = !may_extend(hierarchy.classes(), class.file, parent);
    fault_if(
        alloc,
        refused,
        class.name.as_slice(),
        LinkKind::NoClass,
        parent,
    )
}

// The class may not have one of its interfaces.
fn interface_fault(
    alloc: Global,
    hierarchy: &Hierarchy<'_>,
    class: &Listing<'_>,
) -> Result<Option<LinkFault>, OutOfMemory>
    ensures { IfOk result (λ fault. fault ≡ interface_fault hierarchy.now (shown class.now)) }
{
    let refused = first_no_interface(hierarchy, class.file);
    named_fault(alloc, class.name.as_slice(), LinkKind::NoClass, refused)
}

// A walk up from the class comes back to it.
fn loop_fault(
    alloc: Global,
    hierarchy: &Hierarchy<'_>,
    class: &Listing<'_>,
) -> Result<Option<LinkFault>, OutOfMemory>
    ensures { IfOk result (λ fault. fault ≡ loop_fault hierarchy.now (shown class.now)) }
{
    let name = class.name.as_slice();
    let above = hierarchy.is_above_itself(alloc, class.place)?;
    fault_if(alloc, above, name, LinkKind::SuperLoop, name)
}

// The first fault of what the class extends and implements.
fn hierarchy_fault(
    alloc: Global,
    hierarchy: &Hierarchy<'_>,
    class: &Listing<'_>,
) -> Result<Option<LinkFault>, OutOfMemory>
    ensures { IfOk result (λ fault. fault ≡ hierarchy_fault hierarchy.now (shown class.now)) }
{
    let fault = super_fault(alloc, hierarchy, class)?;
    if fault.is_some() {
        return Ok(fault);
    }
    let fault = interface_fault(alloc, hierarchy, class)?;
    if fault.is_some() {
        return Ok(fault);
    }
    loop_fault(alloc, hierarchy, class)
}

/// The first fault of the class.
pub fn class_fault(
    alloc: Global,
    hierarchy: &Hierarchy<'_>,
    repeats: &mut Repeats<'_>,
    class: &Listing<'_>,
) -> Result<Option<LinkFault>, OutOfMemory>
    requires files { repeats.old ≡ hierarchy.now.files }
    requires there { slice_get repeats.old class.now.place ≡ Some class.now.file.now }
    ensures files { repeats.new ≡ repeats.old }
    ensures fault { IfOk result (λ fault. fault ≡ first_fault_of hierarchy.now (shown class.now)) }
{
    let fault = wrong_name_fault(alloc, class)?;
    if fault.is_some() {
        return Ok(fault);
    }
    let fault = hierarchy_fault(alloc, hierarchy, class)?;
    if fault.is_some() {
        return Ok(fault);
    }
    repeats.twice_fault(alloc, class)
}
