//! Switches by an int: by its place between two keys, or among keys (JVMS 6.5).
ghost use Rattle.std.specs.Prelude.{◌≡◌, drop};
ghost use Rattle.machine_model.specs.NumericRows as Spec;
ghost use Rattle.machine_model.specs.NumericRows.{table_row, lookup_row};
ghost use Rattle.interp_num.specs.Steps.{Runs, IsSameCall};

use crate::operands::{index_operand, operand};
use crate::stack::pop_int;
use crate::step::NumStep;
use jx_base::{Frame, Instr};

// The operand that is a key's target: of the least key the third one, of no key the default.
#[tactic(auto, unfolding(machine_model::specs::NumericRows::table_place))]
fn table_place(low: i32, high: i32, key: i32) -> usize
    ensures { result ≡ Spec.table_place low high key }
{
    if key < low || key > high {
        0
    } else {
        3 + (i64::from(key) - i64::from(low)) as usize
    }
}

// To the target of a key between the least and the greatest one, else to the default.
#[tactic(auto, unfolding(machine_model::specs::NumericRows::table_row, machine_model::specs::NumericRows::given))]
pub(crate) fn switch_table(frame: &mut Frame, instr: &Instr) -> Option<NumStep>
    ensures row { Runs result frame.old.locals frame.new
        (table_row instr.now frame.old.locals frame.old.stack.values) }
    ensures place { IsSameCall frame.old frame.new }
{
    let key = pop_int(&mut frame.stack)?;
    let place = table_place(operand(instr, 1), operand(instr, 2), key);
    Some(NumStep::Jump(index_operand(instr, place)))
}

// The target of a key among pairs of a key and its target, which stand behind two operands.
#[tactic(auto, using(crate::proofs::Keys::keys))]
fn target_of(operands: &[i32], key: i32, default: i32) -> i32
    ensures { result ≡ Spec.target_of (drop 2 operands.now) key default }
{
    let mut place = 2;
    while place < operands.len() && operands.len() - place > 1 {
        if operands[place] == key {
            return operands[place + 1];
        }
        place += 2;
    }
    default
}

// To the target of a key that is there, else to the default.
#[tactic(auto, unfolding(machine_model::specs::NumericRows::lookup_row, machine_model::specs::NumericRows::given))]
pub(crate) fn switch_lookup(frame: &mut Frame, instr: &Instr) -> Option<NumStep>
    ensures row { Runs result frame.old.locals frame.new
        (lookup_row instr.now frame.old.locals frame.old.stack.values) }
    ensures place { IsSameCall frame.old frame.new }
{
    let key = pop_int(&mut frame.stack)?;
    let target = target_of(instr.operands.as_slice(), key, operand(instr, 0));
    Some(NumStep::Jump(target.cast_unsigned()))
}
