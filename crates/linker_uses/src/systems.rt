//! The linked system of an outline.
ghost use Rattle.std.specs.Prelude.{◌≡◌, IfOk, map};
ghost use Rattle.link_model.specs.Linking.{meanings_of};
ghost use Rattle.linker_uses.specs.Systems.{with_all_meanings, with_constants};

use crate::constants::meanings_of;
use jx_base::{Class, Listed, OutOfMemory, Program, Resolved, System};
use linker_names::ReadClass;
use linker_search::Outline;
use std::alloc::Global;

// How many classes are built in, behind which those of the files stand.
const BUILT_IN_COUNT: usize = 27;

// What the constants of each file mean.
fn all_meanings(
    alloc: Global,
    outline: &Outline,
    files: &[ReadClass],
) -> Result<Vec<Listed<Resolved>>, OutOfMemory>
    ensures { IfOk result (λ meanings. meanings.items ≡ map (meanings_of outline.now) files.now) }
{
    let mut meanings = Vec::new(alloc);
    for file in files {
        meanings.push(Listed::from_vec(meanings_of(alloc, outline, file)?))?;
    }
    Ok(meanings)
}

// Gives the class of that number what its constants mean, where there is such a class.
fn give(classes: &mut Vec<Class>, number: usize, meanings: Listed<Resolved>)
    ensures { classes.new.items ≡ with_constants classes.old.items number meanings }
{
    if number < classes.len() {
        classes[number].constants = meanings;
    }
}

/// The linked system: the outline, with what the constants of its classes mean. The classes of the
/// files stand behind the built-in ones.
pub fn linked_system(
    alloc: Global,
    outline: Outline,
    files: &[ReadClass],
) -> Result<System, OutOfMemory>
    ensures { IfOk result (λ system. system ≡ with_all_meanings outline files.now) }
{
    let mut meanings = all_meanings(alloc, &outline, files)?;
    let System { plan, program } = outline.into_system();
    let Program {
        classes,
        methods,
        selectors,
    } = program;
    let mut classes = classes.into_vec();
    while let Some(constants) = meanings.pop() {
        give(&mut classes, BUILT_IN_COUNT + meanings.len(), constants);
    }
    Ok(System {
        plan,
        program: Program {
            classes: Listed::from_vec(classes),
            methods,
            selectors,
        },
    })
}
