//! The methods of java/lang/StringBuilder.
ghost use Rattle.std.specs.Prelude.{◌≡◌, ◌++◌, pos, codes, IfOk, OnOk};
ghost use Rattle.interp_built_in.specs.Answers.{AnswersAs, Does};
ghost use Rattle.interp_built_in.specs.BuiltIns.{appended_units, text_set};
ghost use Rattle.interp_core.specs.Cores.{store_of};
ghost use Rattle.machine_model.specs.BuiltInMethods as Spec;
ghost use Rattle.jx_base.specs.Basics.{not_below_zero};
ghost use Rattle.program_model.specs.Types.{cut_to_type};
ghost use Rattle.machine_model.specs.State.{Store};

use crate::answer::BuiltInAnswer;
use crate::built_in::Appended;
use crate::texts::{make_string, push_ascii, push_cells};
use interp_core::{Core, cells_of, put_cell};
use itoa::Buffer;
use jx_base::{OutOfMemory, Value};
use program_types::{CHAR, NULL_POINTER_EXCEPTION, cut_to_type};
use std::alloc::Global;

// A boolean, as a type.
const BOOLEAN: u16 = b'Z' as u16;

/// Gives a StringBuilder a new empty String.
#[tactic(auto, unfolding(machine_model::specs::BuiltInMethods::builder_constructor, machine_model::specs::BuiltInMethods::with_new_text, machine_model::specs::BuiltInMethods::text_cells))]
pub fn make_builder(core: &mut Core, arguments: &[Value]) -> BuiltInAnswer
    ensures outcome { Does Spec.builder_constructor arguments.now
        (store_of core.old) (store_of core.new) result }
    ensures frames { core.new.frames ≡ core.old.frames }
{
    let [Value::Ref(builder)] = arguments else {
        return BuiltInAnswer::Unfit;
    };
    match make_string(core, &[]) {
        Some(text) => {
            put_cell(core, *builder, 0, Value::Ref(text));
            BuiltInAnswer::Gives(None)
        }
        None => BuiltInAnswer::HasNoRoom,
    }
}

// Puts the units of a text behind others, or null.
#[tactic(auto, unfolding(machine_model::specs::BuiltInMethods::appended_text, machine_model::specs::BuiltInMethods::text_of))]
fn push_text(cells: &mut Vec<Value>, core: &Core, value: Value) -> Result<(), OutOfMemory>
    ensures { OnOk result (cells.new.items ≡ cells.old.items
        ++ Spec.text_cells (Spec.appended_text (store_of core.now) value)) }
{
    match value {
        Value::Ref(text) => push_cells(cells, cells_of(core, text)),
        _ => push_ascii(cells, "null"),
    }
}

// Puts the digits of a number behind others.
#[tactic(auto, unfolding(machine_model::specs::BuiltInMethods::appended_number, machine_model::specs::BuiltInMethods::text_cells))]
fn push_number(cells: &mut Vec<Value>, value: Value) -> Result<(), OutOfMemory>
    ensures { (s : Store) → OnOk result (cells.new.items ≡ cells.old.items
        ++ Spec.text_cells (Spec.appended_number s value)) }
{
    let mut digits = Buffer::new();
    match value {
        Value::Int(number) => push_ascii(cells, digits.format(number)),
        Value::Long(number) => push_ascii(cells, digits.format(number)),
        _ => Ok(()),
    }
}

// The low 16 bits of an int, without a sign.
#[tactic(auto, using(crate::proofs::TextSteps::char_not_below))]
fn char_of(number: i32) -> i32
    ensures { result ≡ pos (not_below_zero (cut_to_type (codes "C") number)) }
{
    cut_to_type(&[CHAR], number)
}

// Puts a unit of the int's low 16 bits behind others.
#[tactic(auto, unfolding(machine_model::specs::BuiltInMethods::appended_unit, machine_model::specs::BuiltInMethods::text_cells))]
fn push_unit(cells: &mut Vec<Value>, value: Value) -> Result<(), OutOfMemory>
    ensures { (s : Store) → OnOk result (cells.new.items ≡ cells.old.items
        ++ Spec.text_cells (Spec.appended_unit s value)) }
{
    if let Value::Int(number) = value {
        cells.push(Value::Int(char_of(number)))?;
    }
    Ok(())
}

// Puts true or false behind others, by the int's lowest bit.
#[tactic(auto, unfolding(machine_model::specs::BuiltInMethods::appended_bool, machine_model::specs::BuiltInMethods::text_cells))]
fn push_bool(cells: &mut Vec<Value>, value: Value) -> Result<(), OutOfMemory>
    ensures { (s : Store) → OnOk result (cells.new.items ≡ cells.old.items
        ++ Spec.text_cells (Spec.appended_bool s value)) }
{
    let Value::Int(number) = value else {
        return Ok(());
    };
    if cut_to_type(&[BOOLEAN], number) >= 1 {
        push_ascii(cells, "true")
    } else {
        push_ascii(cells, "false")
    }
}

// Puts what is appended for a value behind others.
fn push_appended(
    cells: &mut Vec<Value>,
    core: &Core,
    appended: Appended,
    value: Value,
) -> Result<(), OutOfMemory>
    ensures { OnOk result (cells.new.items ≡ cells.old.items
        ++ Spec.text_cells (appended_units appended (store_of core.now) value)) }
{
    match appended {
        Appended::Text => push_text(cells, core, value),
        Appended::Number => push_number(cells, value),
        Appended::Unit => push_unit(cells, value),
        Appended::Bool => push_bool(cells, value),
    }
}

// Makes a builder's text a new String.
#[tactic(auto, unfolding(machine_model::specs::BuiltInMethods::result_value))]
fn set_text(core: &mut Core, builder: u32, cells: &[Value]) -> BuiltInAnswer
    ensures outcome { AnswersAs result (store_of core.old) (store_of core.new)
        (text_set (store_of core.old) builder cells.now) }
    ensures frames { core.new.frames ≡ core.old.frames }
{
    match make_string(core, cells) {
        Some(text) => {
            put_cell(core, builder, 0, Value::Ref(text));
            BuiltInAnswer::Gives(Some(Value::Ref(builder)))
        }
        None => BuiltInAnswer::HasNoRoom,
    }
}

/// append
#[tactic(auto, unfolding(machine_model::specs::BuiltInMethods::append_of, machine_model::specs::BuiltInMethods::with_new_text, machine_model::specs::BuiltInMethods::text_of, machine_model::specs::BuiltInMethods::text_cells, machine_model::specs::BuiltInMethods::result_value, program_model::specs::BuiltIn::null_pointer_exception))]
pub fn append(
    alloc: Global,
    core: &mut Core,
    appended: Appended,
    arguments: &[Value],
) -> Result<BuiltInAnswer, OutOfMemory>
    ensures outcome { IfOk result (Does (Spec.append_of (appended_units appended)) arguments.now
        (store_of core.old) (store_of core.new)) }
    ensures frames { core.new.frames ≡ core.old.frames }
{
    let [Value::Ref(builder), value] = arguments else {
        return Ok(BuiltInAnswer::Unfit);
    };
    let Some(Value::Ref(text)) = cells_of(core, *builder).first() else {
        return Ok(BuiltInAnswer::Raises(NULL_POINTER_EXCEPTION));
    };
    let mut cells = Vec::new(alloc);
    push_cells(&mut cells, cells_of(core, *text))?;
    push_appended(&mut cells, core, appended, *value)?;
    Ok(set_text(core, *builder, cells.as_slice()))
}
