//! The selectors of a linked system's methods.
ghost use Rattle.std.specs.Prelude.{◌≡◌, ◌<◌, ◌^◌, IfOk, OnOk, length, map};
ghost use Rattle.jx_base.specs.Basics.{all_added};
ghost use Rattle.program_model.specs.Lookup.{same_selector};
ghost use Rattle.link_model.specs.ClassFiles.{member_selector};
ghost use Rattle.link_model.specs.Linking.{linked_selectors, sources};
ghost use Rattle.program_model.specs.BuiltIn.{built_in_table};

use crate::selectors::Selectors;
use jx_base::{Class, Member, OutOfMemory, Selector};
use linker_names::ReadClass;
use std::alloc::{AllocError, Global};

const MOST: usize = u32::MAX as usize;

// Adds the selectors of the methods that a class declares.
#[tactic(auto, unfolding(jx_base::specs::Basics::all_added))]
fn add_of_class(alloc: Global, selectors: &mut Selectors, class: &Class) -> Result<(), OutOfMemory>
    ensures { OnOk result (selectors.new
        ≡ all_added same_selector selectors.old (map (λ m. m.selector) class.now.methods)) }
{
    for method in class.methods.as_slice() {
        selectors.add(method.selector.copy(alloc)?)?;
    }
    Ok(())
}

#[tactic(auto, unfolding(link_model::specs::ClassFiles::member_selector))]
fn selector_of(alloc: Global, member: &Member) -> Result<Selector, OutOfMemory>
    ensures { IfOk result (λ selector. selector ≡ member_selector member.now) }
{
    Ok(Selector {
        name: member.name.copy(alloc)?,
        descriptor: member.descriptor.copy(alloc)?,
    })
}

// Adds the selectors of the methods that a file declares.
#[tactic(auto, unfolding(jx_base::specs::Basics::all_added))]
fn add_of_file(
    alloc: Global,
    selectors: &mut Selectors,
    file: &ReadClass,
) -> Result<(), OutOfMemory>
    ensures { OnOk result (selectors.new
        ≡ all_added same_selector selectors.old (map member_selector file.now.methods)) }
{
    for member in file.file().methods.as_slice() {
        selectors.add(selector_of(alloc, member)?)?;
    }
    Ok(())
}

/// The selectors of all methods, in the order in which the methods first have them.
#[tactic(auto, unfolding(jx_base::specs::Basics::all_added))]
pub fn all_selectors(
    alloc: Global,
    built_in: &[Class],
    files: &[ReadClass],
) -> Result<Selectors, OutOfMemory>
    requires { built_in.now ≡ built_in_table }
    ensures selectors { IfOk result (λ selectors.
        selectors ≡ linked_selectors (sources files.now)) }
    ensures small { IfOk result (λ selectors. length selectors < 2 ^ 32) }
{
    let mut selectors = Selectors::new(alloc);
    for class in built_in {
        add_of_class(alloc, &mut selectors, class)?;
    }
    for file in files {
        add_of_file(alloc, &mut selectors, file)?;
    }
    // No memory holds so many.
    if selectors.len() > MOST {
        return Err(AllocError);
    }
    Ok(selectors)
}
