//! The uses of constants in a class file.
ghost use Rattle.std.specs.Prelude.{◌≡◌, ◌++◌, [], IfOk, OnOk};
ghost use Rattle.std.specs.List.{cons_option, filter_map};
ghost use Rattle.link_model.specs.ClassFiles.{used_by, uses_of, uses_of_member};
ghost use Rattle.linker_names.specs.Bodies.{instructions_of_member};
ghost use Rattle.linker_names.specs.Names.{catch_use};

use jx_base::{Instr, Member, OutOfMemory, Range};
use link_model::Used;
use linker_names::{ReadClass, catch_use, used_by};
use std::alloc::Global;

// Adds a use, where there is one.
fn push_use(uses: &mut Vec<Used>, used: Option<Used>) -> Result<(), OutOfMemory>
    ensures { OnOk result (uses.new.items ≡ uses.old.items ++ cons_option used []) }
{
    if let Some(one) = used {
        uses.push(one)?;
    }
    Ok(())
}

// Adds the uses of the instructions of a method.
fn push_uses_of_body(uses: &mut Vec<Used>, body: &[Instr]) -> Result<(), OutOfMemory>
    ensures { OnOk result (uses.new.items ≡ uses.old.items ++ filter_map used_by body.now) }
{
    for instr in body {
        push_use(uses, used_by(instr))?;
    }
    Ok(())
}

// Adds the uses as types that an exception table catches.
fn push_uses_of_catches(uses: &mut Vec<Used>, table: &[Range]) -> Result<(), OutOfMemory>
    ensures { OnOk result (uses.new.items ≡ uses.old.items ++ filter_map catch_use table.now) }
{
    for range in table {
        push_use(uses, catch_use(range))?;
    }
    Ok(())
}

// Adds the uses of a method, its instructions' first.
fn push_uses_of_member(
    uses: &mut Vec<Used>,
    member: &Member,
    body: &[Instr],
) -> Result<(), OutOfMemory>
    requires { body.now ≡ instructions_of_member member.now }
    ensures { OnOk result (uses.new.items ≡ uses.old.items ++ uses_of_member member.now) }
{
    if let Some(code) = &member.code {
        push_uses_of_body(uses, body)?;
        push_uses_of_catches(uses, code.table.as_slice())?;
    }
    Ok(())
}

/// All uses of constants in a class file, method by method.
pub fn all_uses(alloc: Global, class: &ReadClass) -> Result<Vec<Used>, OutOfMemory>
    ensures { IfOk result (λ uses. uses.items ≡ uses_of class.now) }
{
    let mut uses = Vec::new(alloc);
    let members = class.file().methods.as_slice();
    for place in 0..members.len() {
        push_uses_of_member(&mut uses, &members[place], class.instructions(place))?;
    }
    Ok(uses)
}
