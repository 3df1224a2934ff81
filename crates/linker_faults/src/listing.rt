//! The classes of a template, each with its file.
ghost use Rattle.std.specs.Prelude.{◌≡◌, IfOk};
ghost use Rattle.std.specs.Option.{option_map};
ghost use Rattle.link_model.specs.LinkFaults.{listing_at};
ghost use Rattle.linker_faults.specs.Listing.{shown};

use jx_base::{ClassFile, OutOfMemory, Plan, Text, text_of};
use linker_names::ReadClass;
use std::alloc::Global;

/// A class of a template: its place in the plan, its name there, and its file.
#[derive(Drop)]
pub struct Listing<'a> {
    pub place: u32,
    pub name: Text,
    pub file: &'a ClassFile,
}

/// The class at a place of the plan.
#[tactic(auto, unfolding(link_model::specs::LinkFaults::listing_at, link_model::specs::LinkFaults::listed_name))]
pub fn listing_at<'a>(
    alloc: Global,
    plan: &Plan,
    files: &'a [ReadClass],
    place: u32,
) -> Result<Option<Listing<'a>>, OutOfMemory>
    ensures { IfOk result (λ found.
        option_map shown found ≡ listing_at plan.now files.now place) }
{
    let Some(name) = plan.classes.as_slice().get(place as usize) else {
        return Ok(None);
    };
    let Some(class) = files.get(place as usize) else {
        return Ok(None);
    };
    Ok(Some(Listing {
        place,
        name: text_of(alloc, name.as_str())?,
        file: class.file(),
    }))
}
