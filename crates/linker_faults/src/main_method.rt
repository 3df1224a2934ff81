//! The method in which a domain starts.
ghost use Rattle.std.specs.Prelude.{◌≡◌, IfOk};
ghost use Rattle.std.specs.List.{list_any};
ghost use Rattle.link_model.specs.LinkFaults.{is_main, main_fault};

use crate::ascii::is_text;
use crate::listing::Listing;
use class_grammar::is_static;
use jx_base::{Member, OutOfMemory, text_of};
use link_model::{LinkFault, LinkKind};
use std::alloc::Global;

#[tactic(auto, unfolding(link_model::specs::LinkFaults::is_main))]
fn is_main(member: &Member) -> bool
    ensures { result ≡ is_main member.now }
{
    is_text(member.name.as_slice(), "main")
        && is_text(member.descriptor.as_slice(), "([Ljava/lang/String;)V")
        && is_static(member.flags)
        && member.code.is_some()
}

fn has_main(methods: &[Member]) -> bool
    ensures { result ≡ list_any is_main methods.now }
{
    methods.iter().any(is_main)
}

/// The fault of a main class without a main method.
#[tactic(auto, unfolding(link_model::specs::LinkFaults::main_fault, link_model::specs::LinkFaults::fault_if))]
pub fn main_fault(alloc: Global, class: &Listing<'_>) -> Result<Option<LinkFault>, OutOfMemory>
    ensures { IfOk result (λ fault. fault ≡ main_fault class.now.name class.now.file.now) }
{
    if has_main(class.file.methods.as_slice()) {
        return Ok(None);
    }
    Ok(Some(LinkFault {
        class: class.name.copy(alloc)?,
        kind: LinkKind::NoMain,
        name: text_of(alloc, "main")?,
    }))
}
