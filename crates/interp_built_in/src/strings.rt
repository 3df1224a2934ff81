//! The methods of java/lang/String.
ghost use Rattle.std.specs.Prelude.{◌≡◌, ◌≤◌, ◌*ℤ◌, ◌+ℤ◌, pos, map, length, All, IfOk};
ghost use Rattle.interp_built_in.specs.Answers.{Answers, Does};
ghost use Rattle.interp_core.specs.Cores.{store_of};
ghost use Rattle.machine_laws.specs.Values.{cell_limit};
ghost use Rattle.machine_model.specs.BuiltInMethods as Spec;
ghost use Rattle.std.specs.Int.{int_wrap, w32};
ghost use Rattle.std.specs.Str.{bytes_eq};

use crate::answer::BuiltInAnswer;
use crate::texts::{make_string, push_cells, unit_of};
use crate::values::int_of_bool;
use interp_core::{Core, cells_of, class_of_object};
use jx_base::{OutOfMemory, Value};
use program_types::{NULL_POINTER_EXCEPTION, STRING, STRING_INDEX_EXCEPTION};
use std::alloc::Global;

// How many cells there are, as an int.
#[tactic(auto, using(crate::proofs::TextSteps::lengths))]
fn count_of(cells: &[Value]) -> i32
    requires { length cells.now ≤ cell_limit }
    ensures { result ≡ pos (length (map Spec.unit_of cells.now)) }
{
    cells.len() as i32
}

/// length
#[tactic(auto, using(crate::proofs::TextSteps::few_cells), unfolding(machine_model::specs::BuiltInMethods::text_length, machine_model::specs::BuiltInMethods::text_of, machine_model::specs::BuiltInMethods::result_value))]
pub fn text_length(core: &Core, arguments: &[Value]) -> BuiltInAnswer
    requires { All (λ o. length o.cells ≤ cell_limit) core.now.heap.objects }
    ensures { Answers Spec.text_length arguments.now (store_of core.now) result }
{
    match arguments {
        [Value::Ref(text)] => {
            let count = count_of(cells_of(core, *text));
            BuiltInAnswer::Gives(Some(Value::Int(count)))
        }
        _ => BuiltInAnswer::Unfit,
    }
}

/// charAt
#[tactic(auto, unfolding(machine_model::specs::BuiltInMethods::text_unit, machine_model::specs::BuiltInMethods::unit_at, machine_model::specs::BuiltInMethods::text_of, machine_model::specs::BuiltInMethods::result_value, program_model::specs::BuiltIn::string_index_exception))]
pub fn char_at(core: &Core, arguments: &[Value]) -> BuiltInAnswer
    ensures { Answers Spec.text_unit arguments.now (store_of core.now) result }
{
    let [Value::Ref(text), Value::Int(place)] = arguments else {
        return BuiltInAnswer::Unfit;
    };
    let Ok(place) = usize::try_from(*place) else {
        return BuiltInAnswer::Raises(STRING_INDEX_EXCEPTION);
    };
    match cells_of(core, *text).get(place) {
        Some(cell) => BuiltInAnswer::Gives(Some(Value::Int(unit_of(*cell)))),
        None => BuiltInAnswer::Raises(STRING_INDEX_EXCEPTION),
    }
}

// Whether cells hold the same units.
fn hold_same(cells: &[Value], others: &[Value]) -> bool
    ensures { result ≡ bytes_eq (map Spec.unit_of cells.now) (map Spec.unit_of others.now) }
{
    if cells.len() != others.len() {
        return false;
    }
    for (i, cell) in cells.iter().enumerate() {
        if unit_of(*cell) != unit_of(others[i]) {
            return false;
        }
    }
    true
}

// Whether the value is a String of the units that these cells hold.
#[tactic(auto, unfolding(machine_model::specs::BuiltInMethods::is_text, machine_model::specs::BuiltInMethods::text_of, program_model::specs::BuiltIn::string_class, jx_base::specs::Basics::passes))]
fn is_text(core: &Core, cells: &[Value], value: Value) -> bool
    ensures { result ≡ Spec.is_text (store_of core.now) (map Spec.unit_of cells.now) value }
{
    let Value::Ref(other) = value else {
        return false;
    };
    match class_of_object(core, other) {
        Some(class) => class == STRING && hold_same(cells, cells_of(core, other)),
        None => false,
    }
}

/// equals
#[tactic(auto, unfolding(machine_model::specs::BuiltInMethods::text_test, machine_model::specs::BuiltInMethods::text_of, machine_model::specs::BuiltInMethods::result_value))]
pub fn equals_text(core: &Core, arguments: &[Value]) -> BuiltInAnswer
    ensures { Answers Spec.text_test arguments.now (store_of core.now) result }
{
    match arguments {
        [Value::Ref(text), other] => {
            let is_same = is_text(core, cells_of(core, *text), *other);
            BuiltInAnswer::Gives(Some(int_of_bool(is_same)))
        }
        _ => BuiltInAnswer::Unfit,
    }
}

/// hashCode
#[tactic(auto, unfolding(machine_model::specs::BuiltInMethods::text_hash, machine_model::specs::BuiltInMethods::text_of, machine_model::specs::BuiltInMethods::result_value))]
pub fn hash_code(core: &Core, arguments: &[Value]) -> BuiltInAnswer
    ensures { Answers Spec.text_hash arguments.now (store_of core.now) result }
{
    let [Value::Ref(text)] = arguments else {
        return BuiltInAnswer::Unfit;
    };
    BuiltInAnswer::Gives(Some(Value::Int(hash_of(cells_of(core, *text)))))
}

// The hash with one unit more behind, which wraps.
#[tactic(auto, using(std::proofs::lemmas::Int::wraps))]
fn hash_with(hash: i32, unit: i32) -> i32
    ensures { result ≡ int_wrap w32 (pos 31 *ℤ hash +ℤ unit) }
{
    31_i32.wrapping_mul(hash).wrapping_add(unit)
}

// The hash of the units that the cells hold.
#[tactic(auto, unfolding(machine_model::specs::BuiltInMethods::hash_of))]
fn hash_of(cells: &[Value]) -> i32
    ensures { result ≡ Spec.hash_of (pos 0) (map Spec.unit_of cells.now) }
{
    let mut hash: i32 = 0;
    for cell in cells {
        hash = hash_with(hash, unit_of(*cell));
    }
    hash
}

/// concat
#[tactic(auto, unfolding(machine_model::specs::BuiltInMethods::text_concatenation, machine_model::specs::BuiltInMethods::with_new_text, machine_model::specs::BuiltInMethods::text_of, machine_model::specs::BuiltInMethods::text_cells, machine_model::specs::BuiltInMethods::result_value, program_model::specs::BuiltIn::null_pointer_exception))]
pub fn concat(
    alloc: Global,
    core: &mut Core,
    arguments: &[Value],
) -> Result<BuiltInAnswer, OutOfMemory>
    ensures outcome { IfOk result
        (Does Spec.text_concatenation arguments.now (store_of core.old) (store_of core.new)) }
    ensures frames { core.new.frames ≡ core.old.frames }
{
    let [Value::Ref(text), other] = arguments else {
        return Ok(BuiltInAnswer::Unfit);
    };
    match other {
        Value::Null => Ok(BuiltInAnswer::Raises(NULL_POINTER_EXCEPTION)),
        Value::Ref(other) => {
            let mut cells = Vec::new(alloc);
            push_cells(&mut cells, cells_of(core, *text))?;
            push_cells(&mut cells, cells_of(core, *other))?;
            Ok(match make_string(core, cells.as_slice()) {
                Some(object) => BuiltInAnswer::Gives(Some(Value::Ref(object))),
                None => BuiltInAnswer::HasNoRoom,
            })
        }
        _ => Ok(BuiltInAnswer::Unfit),
    }
}
