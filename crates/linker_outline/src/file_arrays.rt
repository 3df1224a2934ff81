//! The array classes of a system, in their order.
ghost use Rattle.std.specs.Prelude.{◌≡◌, IfOk, OnOk};
ghost use Rattle.std.specs.Str.{bytes_eq};
ghost use Rattle.jx_base.specs.Basics.{all_added};
ghost use Rattle.link_model.specs.ClassFiles.{arrays_of, arrays_of_member};
ghost use Rattle.link_model.specs.LinkFaults.{HasFiles};
ghost use Rattle.link_model.specs.Linking.{array_names};
ghost use Rattle.linker_names.specs.Bodies.{instructions_of_member};

use crate::code_arrays::add_arrays_of_code;
use indexmap::IndexSet;
use jx_base::{ClassFile, Instr, Member, OutOfMemory, Plan, Text, text_of};
use linker_names::ReadClass;
use std::alloc::Global;

// Adds the array classes of a method.
#[tactic(auto, unfolding(link_model::specs::ClassFiles::arrays_of_member, jx_base::specs::Basics::all_added))]
fn add_arrays_of_member(
    alloc: Global,
    names: &mut IndexSet<Text>,
    file: &ClassFile,
    member: &Member,
    body: &[Instr],
) -> Result<(), OutOfMemory>
    requires { body.now ≡ instructions_of_member member.now }
    ensures { OnOk result (names.new.keys
        ≡ all_added bytes_eq names.old.keys (arrays_of_member file.now member.now)) }
{
    match &member.code {
        Some(code) => add_arrays_of_code(alloc, names, file, code, body),
        None => Ok(()),
    }
}

// Adds the array classes of a class file.
fn add_arrays_of_file(
    alloc: Global,
    names: &mut IndexSet<Text>,
    class: &ReadClass,
) -> Result<(), OutOfMemory>
    ensures { OnOk result (names.new.keys
        ≡ all_added bytes_eq names.old.keys (arrays_of class.now)) }
{
    let file = class.file();
    let members = file.methods.as_slice();
    for place in 0..members.len() {
        let body = class.instructions(place);
        add_arrays_of_member(alloc, names, file, &members[place], body)?;
    }
    Ok(())
}

/// The names of the array classes of the system: of strings, of memory objects, then the others as
/// code first names or makes them, class by class. The plan lists its classes as its templates first
/// list them, so that each class is looked at once.
pub fn array_names(
    alloc: Global,
    plan: &Plan,
    files: &[ReadClass],
) -> Result<IndexSet<Text>, OutOfMemory>
    requires { HasFiles plan.now files.now }
    ensures { IfOk result (λ names. names.keys ≡ array_names plan.now files.now) }
{
    // Only the contract speaks of the plan.
    let _ = plan.granules;
    let mut names = IndexSet::new(alloc);
    names.insert(text_of(alloc, "[Ljava/lang/String;")?)?;
    names.insert(text_of(alloc, "[Ljx/Memory;")?)?;
    for class in files {
        add_arrays_of_file(alloc, &mut names, class)?;
    }
    Ok(names)
}
