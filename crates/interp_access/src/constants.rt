//! Constants (JVMS 6.5, ldc).
ghost use Rattle.std.specs.Prelude.{◌≡◌, IfOk, List, ℕ};
ghost use Rattle.std.specs.List.{position};
ghost use Rattle.std.specs.Option.{option_map};
ghost use Rattle.std.specs.Str.{bytes_eq};
ghost use Rattle.machine_model.specs.BuiltInMethods.{text_cells};
ghost use Rattle.machine_model.specs.ObjectRows as Spec;
ghost use Rattle.machine_model.specs.ObjectRows.{with_literal};
ghost use Rattle.machine_model.specs.State.{new_object};
ghost use Rattle.program_model.specs.BuiltIn.{string_class};
ghost use Rattle.interp_core.specs.Cores.{IsRunnable, core_state, store_of};
ghost use Rattle.interp_core.specs.Making.{Makes};
ghost use Rattle.interp_access.specs.Rows.{Runs};

use crate::leaving::leave_new;
use interp_core::{Contents, Core, ObjStep, leave, make_object};
use jx_base::{OutOfMemory, Resolved, System, Text, Value};
use program_types::STRING;
use std::alloc::Global;

// The place of the text among those that have a String object.
fn literal_place(literals: &[(Text, u32)], text: &[u16]) -> Option<usize>
    ensures { result ≡ position (λ x. bytes_eq x.0 text.now) literals.now }
{
    literals
        .iter()
        .position(|literal| literal.0.as_slice() == text)
}

// The String object that was made of a text.
fn literal_of(literals: &[(Text, u32)], text: &[u16]) -> Option<u32>
    ensures { result ≡ Spec.literal_of literals.now text.now }
{
    let place = literal_place(literals, text)?;
    Some(literals[place].1)
}

// Makes the String object of a text that has none yet.
fn make_literal(alloc: Global, core: &mut Core, text: &[u16]) -> Result<Option<u32>, OutOfMemory>
    ensures made { IfOk result (λ object. Makes object (store_of core.old) (store_of core.new)
        (option_map (with_literal text.now)
        (new_object (store_of core.old) string_class (text_cells text.now)))) }
    ensures frames { core.new.frames ≡ core.old.frames }
{
    let key = Text::from_slice(alloc, text)?;
    let Some(object) = make_object(core, STRING, Contents::Units(text)) else {
        return Ok(None);
    };
    core.literals.push((key, object))?;
    Ok(Some(object))
}

// Pushes the String object of a text, which is made at its first use.
fn text_row(
    alloc: Global,
    system: &System,
    core: &mut Core,
    text: &[u16],
) -> Result<ObjStep, OutOfMemory>
    requires { IsRunnable system.now (core_state core.old) }
    ensures { IfOk result (λ step. Runs step core.old core.new
        (λ state. Spec.text_row system.now state text.now)) }
{
    if let Some(object) = literal_of(core.literals.as_slice(), text) {
        return Ok(leave(system, core, 0, Some(Value::Ref(object))));
    }
    let made = make_literal(alloc, core, text)?;
    Ok(leave_new(system, core, 0, made))
}

/// Pushes an int or a text. Takes memory for the text of a String object that is made.
#[tactic(auto, using(crate::proofs::Tops::gives_left), unfolding(machine_model::specs::ObjectRows::constant_row, machine_model::specs::ObjectRows::with_result))]
pub fn constant_row(
    alloc: Global,
    system: &System,
    core: &mut Core,
    constant: &Resolved,
) -> Result<ObjStep, OutOfMemory>
    requires { IsRunnable system.now (core_state core.old) }
    ensures { IfOk result (λ step. Runs step core.old core.new
        (λ state. Spec.constant_row system.now state constant.now)) }
{
    match constant {
        Resolved::Int(number) => Ok(leave(system, core, 0, Some(Value::Int(*number)))),
        Resolved::Str(text) => text_row(alloc, system, core, text.as_slice()),
        _ => Ok(ObjStep::BadCode),
    }
}
