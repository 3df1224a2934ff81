//! Instructions of arithmetic, conversion and comparison (JVMS 2.11.3, 2.11.4).
ghost use Rattle.std.specs.Prelude.{◌≡◌, ◌<◌, length};
ghost use Rattle.std.specs.Int.{w32, w64};
ghost use Rattle.jx_base.specs.declared.row.Kind.TheVariants as kind;
ghost use Rattle.jx_base.specs.declared.value.Value.TheVariants as value;
ghost use Rattle.program_model.specs.Arithmetic.{operation_result, int_shift_result, order_of};
ghost use Rattle.program_model.specs.BuiltIn.{arithmetic_exception};
ghost use Rattle.machine_model.specs.NumericRows.{NumericOutcome as row};
ghost use Rattle.machine_model.specs.NumericRows.{on_ints, on_longs, negate_row, convert_row};
ghost use Rattle.machine_model.specs.NumericRows.{int_divide_row, long_divide_row};
ghost use Rattle.machine_model.specs.NumericRows.{long_shift_row, increment_row};
ghost use Rattle.interp_num.specs.Steps.{Ran, Runs, IsSameCall, IsWithin};

use crate::locals::local_of;
use crate::numbers::{
    int_negation, int_operation, int_quotient, int_shift, int_to_byte, int_to_char, int_to_short,
    long_negation, long_operation, long_quotient, long_shift, long_to_int, order,
};
use crate::stack::{grow, pop_int, pop_long, put};
use crate::step::NumStep;
use jx_base::{ClassId, Conversion, Division, Frame, Operator, Shift, Value};

// The class java/lang/ArithmeticException.
const ARITHMETIC_EXCEPTION: ClassId = ClassId(6);

// An operator on two ints.
#[tactic(auto, using(crate::proofs::Depths::drops), unfolding(machine_model::specs::NumericRows::slots_of, machine_model::specs::NumericRows::on_ints, machine_model::specs::NumericRows::given))]
pub(crate) fn operate_ints(frame: &mut Frame, most: u32, operator: Operator) -> Option<NumStep>
    requires { IsWithin most frame.old }
    ensures row { Runs result frame.old.locals frame.new
        (on_ints most (λ a b. value.Int (operation_result w32 operator a b))
        frame.old.locals frame.old.stack.values) }
    ensures place { IsSameCall frame.old frame.new }
{
    let b = pop_int(&mut frame.stack)?;
    let a = pop_int(&mut frame.stack)?;
    Some(put(frame, Value::Int(int_operation(operator, a, b))))
}

// An operator on two longs.
#[tactic(auto, using(crate::proofs::Depths::drops), unfolding(machine_model::specs::NumericRows::slots_of, machine_model::specs::NumericRows::on_longs, machine_model::specs::NumericRows::given))]
pub(crate) fn operate_longs(frame: &mut Frame, most: u32, operator: Operator) -> Option<NumStep>
    requires { IsWithin most frame.old }
    ensures row { Runs result frame.old.locals frame.new
        (on_longs most (λ a b. value.Long (operation_result w64 operator a b))
        frame.old.locals frame.old.stack.values) }
    ensures place { IsSameCall frame.old frame.new }
{
    let b = pop_long(&mut frame.stack)?;
    let a = pop_long(&mut frame.stack)?;
    Some(put(frame, Value::Long(long_operation(operator, a, b))))
}

// Nothing stays on the stack: the object that is thrown comes to lie on it alone.
#[tactic(auto, unfolding(program_model::specs::BuiltIn::arithmetic_exception))]
fn divided_by_zero(frame: &mut Frame) -> NumStep
    ensures row { Ran result frame.old.locals frame.new (row.Raise arithmetic_exception) }
    ensures place { IsSameCall frame.old frame.new }
{
    frame.stack.clear();
    NumStep::Raise(ARITHMETIC_EXCEPTION)
}

// A division of two ints.
#[tactic(auto, using(crate::proofs::Depths::drops), unfolding(machine_model::specs::NumericRows::slots_of, machine_model::specs::NumericRows::int_divide_row, machine_model::specs::NumericRows::given, machine_model::specs::NumericRows::unless_by_zero))]
pub(crate) fn divide_ints(frame: &mut Frame, most: u32, division: Division) -> Option<NumStep>
    requires { IsWithin most frame.old }
    ensures row { Runs result frame.old.locals frame.new
        (int_divide_row most division frame.old.locals frame.old.stack.values) }
    ensures place { IsSameCall frame.old frame.new }
{
    let b = pop_int(&mut frame.stack)?;
    let a = pop_int(&mut frame.stack)?;
    match int_quotient(division, a, b) {
        Some(quotient) => Some(put(frame, Value::Int(quotient))),
        None => Some(divided_by_zero(frame)),
    }
}

// A division of two longs.
#[tactic(auto, using(crate::proofs::Depths::drops), unfolding(machine_model::specs::NumericRows::slots_of, machine_model::specs::NumericRows::long_divide_row, machine_model::specs::NumericRows::given, machine_model::specs::NumericRows::unless_by_zero))]
pub(crate) fn divide_longs(frame: &mut Frame, most: u32, division: Division) -> Option<NumStep>
    requires { IsWithin most frame.old }
    ensures row { Runs result frame.old.locals frame.new
        (long_divide_row most division frame.old.locals frame.old.stack.values) }
    ensures place { IsSameCall frame.old frame.new }
{
    let b = pop_long(&mut frame.stack)?;
    let a = pop_long(&mut frame.stack)?;
    match long_quotient(division, a, b) {
        Some(quotient) => Some(put(frame, Value::Long(quotient))),
        None => Some(divided_by_zero(frame)),
    }
}

// A shift of an int.
#[tactic(auto, using(crate::proofs::Depths::drops), unfolding(machine_model::specs::NumericRows::slots_of, machine_model::specs::NumericRows::on_ints, machine_model::specs::NumericRows::given))]
pub(crate) fn shift_int(frame: &mut Frame, most: u32, shift: Shift) -> Option<NumStep>
    requires { IsWithin most frame.old }
    ensures row { Runs result frame.old.locals frame.new
        (on_ints most (λ a count. value.Int (int_shift_result shift a count))
        frame.old.locals frame.old.stack.values) }
    ensures place { IsSameCall frame.old frame.new }
{
    let count = pop_int(&mut frame.stack)?;
    let a = pop_int(&mut frame.stack)?;
    Some(put(frame, Value::Int(int_shift(shift, a, count))))
}

// A shift of a long by an int.
#[tactic(auto, using(crate::proofs::Depths::drops), unfolding(machine_model::specs::NumericRows::slots_of, machine_model::specs::NumericRows::long_shift_row, machine_model::specs::NumericRows::given))]
pub(crate) fn shift_long(frame: &mut Frame, most: u32, shift: Shift) -> Option<NumStep>
    requires { IsWithin most frame.old }
    ensures row { Runs result frame.old.locals frame.new
        (long_shift_row most shift frame.old.locals frame.old.stack.values) }
    ensures place { IsSameCall frame.old frame.new }
{
    let count = pop_int(&mut frame.stack)?;
    let a = pop_long(&mut frame.stack)?;
    Some(put(frame, Value::Long(long_shift(shift, a, count))))
}

// An int with the other sign.
#[tactic(auto, unfolding(machine_model::specs::NumericRows::slots_of, machine_model::specs::NumericRows::negate_row, machine_model::specs::NumericRows::given))]
pub(crate) fn negate_int(frame: &mut Frame, most: u32) -> Option<NumStep>
    requires { IsWithin most frame.old }
    ensures row { Runs result frame.old.locals frame.new
        (negate_row most kind.Int frame.old.locals frame.old.stack.values) }
    ensures place { IsSameCall frame.old frame.new }
{
    let a = pop_int(&mut frame.stack)?;
    Some(put(frame, Value::Int(int_negation(a))))
}

// A long with the other sign.
#[tactic(auto, unfolding(machine_model::specs::NumericRows::slots_of, machine_model::specs::NumericRows::negate_row, machine_model::specs::NumericRows::given))]
pub(crate) fn negate_long(frame: &mut Frame, most: u32) -> Option<NumStep>
    requires { IsWithin most frame.old }
    ensures row { Runs result frame.old.locals frame.new
        (negate_row most kind.Long frame.old.locals frame.old.stack.values) }
    ensures place { IsSameCall frame.old frame.new }
{
    let a = pop_long(&mut frame.stack)?;
    Some(put(frame, Value::Long(long_negation(a))))
}

// The order of two longs, as -1, 0 or 1.
#[tactic(auto, using(crate::proofs::Depths::drops), unfolding(machine_model::specs::NumericRows::slots_of, machine_model::specs::NumericRows::on_longs, machine_model::specs::NumericRows::given))]
pub(crate) fn compare_longs(frame: &mut Frame, most: u32) -> Option<NumStep>
    requires { IsWithin most frame.old }
    ensures row { Runs result frame.old.locals frame.new
        (on_longs most (λ a b. value.Int (order_of a b)) frame.old.locals frame.old.stack.values) }
    ensures place { IsSameCall frame.old frame.new }
{
    let b = pop_long(&mut frame.stack)?;
    let a = pop_long(&mut frame.stack)?;
    Some(put(frame, Value::Int(order(a, b))))
}

// A local int is raised, and wraps.
#[tactic(auto, unfolding(machine_model::specs::NumericRows::increment_row, machine_model::specs::NumericRows::given, machine_model::specs::NumericRows::int_of, machine_model::specs::NumericRows::slots_of, program_model::specs::Arithmetic::operation_result))]
pub(crate) fn increment(frame: &mut Frame, n: u32, by: i32) -> Option<NumStep>
    ensures row { Runs result frame.old.locals frame.new
        (increment_row n by frame.old.locals frame.old.stack.values) }
    ensures place { IsSameCall frame.old frame.new }
{
    let Value::Int(old) = local_of(&frame.locals, n)? else {
        return None;
    };
    let new = int_operation(Operator::Add, old, by);
    frame.locals.set(n, Some(Value::Int(new)));
    Some(NumStep::Next)
}

// A conversion of the number on the top.
#[tactic(auto, unfolding(machine_model::specs::NumericRows::slots_of, machine_model::specs::NumericRows::convert_row, machine_model::specs::NumericRows::given))]
pub(crate) fn convert(frame: &mut Frame, most: u32, conversion: Conversion) -> Option<NumStep>
    requires { IsWithin most frame.old }
    ensures row { Runs result frame.old.locals frame.new
        (convert_row most conversion frame.old.locals frame.old.stack.values) }
    ensures place { IsSameCall frame.old frame.new }
{
    if let Conversion::LongToInt = conversion {
        let n = pop_long(&mut frame.stack)?;
        return Some(put(frame, Value::Int(long_to_int(n))));
    }
    let n = pop_int(&mut frame.stack)?;
    match conversion {
        Conversion::IntToByte => Some(put(frame, Value::Int(int_to_byte(n)))),
        Conversion::IntToChar => Some(put(frame, Value::Int(int_to_char(n)))),
        Conversion::IntToShort => Some(put(frame, Value::Int(int_to_short(n)))),
        Conversion::IntToLong | Conversion::LongToInt => {
            grow(frame, most, Value::Long(i64::from(n)))
        }
    }
}
