//! Members that stand twice in a class.
ghost use Rattle.std.specs.Prelude.{◌≡◌, Some, IfOk, slice_get};
ghost use Rattle.std.specs.Option.{option_map};
ghost use Rattle.link_model.specs.LinkFaults.{repeated_name};
ghost use Rattle.linker_faults.specs.Repeats.{twice_fault};

use crate::faults::named_fault;
use crate::listing::Listing;
use indexmap::IndexSet;
use jx_base::{Member, OutOfMemory};
use link_model::{LinkFault, LinkKind};
use linker_names::{NameAndType, ReadClass};
use std::alloc::Global;
use std::marker::Model;

/// The files of a plan's classes, with notes of those in which no member stands twice, so that each
/// is looked through once. Contracts see the files.
#[derive(Drop)]
pub struct Repeats<'a> {
    files: &'a [ReadClass],
    none_in: IndexSet<u32>,
}

impl<'a> Model for Repeats<'a> {
    ghost use Rattle.std.specs.Prelude.{List};
    ghost use Rattle.jx_base.specs.declared.class_file.ClassFile.{ClassFile as OneFile};
    ghost use Rattle.linker_faults.specs.Repeats.{HaveNoRepeats};

    ghost Value = { List OneFile };

    ghost view = { λ repeats. repeats.files.now };

    ghost invariant = { λ repeats. HaveNoRepeats repeats.files.now repeats.none_in.keys };
}

// The name of the first member with the name and the descriptor of one before it.
fn first_repeated<'a>(
    alloc: Global,
    members: &'a [Member],
) -> Result<Option<&'a [u16]>, OutOfMemory>
    ensures { IfOk result (λ found.
        option_map (λ name. name.now) found ≡ repeated_name members.now) }
{
    let mut seen = IndexSet::new(alloc);
    for member in members {
        let name = member.name.as_slice();
        let descriptor = member.descriptor.as_slice();
        if !seen.insert(NameAndType { name, descriptor })? {
            return Ok(Some(name));
        }
    }
    Ok(None)
}

// The fault of the first field, or else method, of a class that stands twice in it.
#[tactic(auto, unfolding(jx_base::specs::Basics::first_fault))]
fn twice_fault(alloc: Global, class: &Listing<'_>) -> Result<Option<LinkFault>, OutOfMemory>
    ensures { IfOk result (λ fault. fault ≡ twice_fault class.now.name class.now.file.now) }
{
    let name = class.name.as_slice();
    let field = first_repeated(alloc, class.file.fields.as_slice())?;
    let fault = named_fault(alloc, name, LinkKind::Twice, field)?;
    if fault.is_some() {
        return Ok(fault);
    }
    let method = first_repeated(alloc, class.file.methods.as_slice())?;
    named_fault(alloc, name, LinkKind::Twice, method)
}

impl<'a> Repeats<'a> {
    /// Takes no memory.
    pub fn new(alloc: Global, files: &'a [ReadClass]) -> Repeats<'a>
        ensures { result ≡ files.now }
    {
        Repeats {
            files,
            none_in: IndexSet::new(alloc),
        }
    }

    /// The fault of the first field, or else method, of a class that stands twice in it.
    pub fn twice_fault(
        &mut self,
        alloc: Global,
        class: &Listing<'_>,
    ) -> Result<Option<LinkFault>, OutOfMemory>
        requires { slice_get self.old class.now.place ≡ Some class.now.file.now }
        ensures files { self.new ≡ self.old }
        ensures fault { IfOk result (λ fault.
            fault ≡ twice_fault class.now.name class.now.file.now) }
    {
        if self.none_in.contains(&class.place) {
            return Ok(None);
        }
        let fault = twice_fault(alloc, class)?;
        if fault.is_none() {
            self.none_in.insert(class.place)?;
        }
        Ok(fault)
    }
}
