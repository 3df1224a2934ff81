//! One step of a numeric instruction, by its row.
ghost use Rattle.std.specs.Prelude.{◌≡◌, ◌↔◌, ◌<◌, ◌^◌, false, length};
ghost use Rattle.machine_model.specs.Conditions.{IsFrameOf, local_count};
ghost use Rattle.machine_model.specs.NumericRows.{numeric_row};
ghost use Rattle.machine_model.specs.State.{class_of_frame, stack_limit};
ghost use Rattle.class_grammar.specs.Opcodes.{row_at};
ghost use Rattle.interp_num.specs.declared.step.NumStep.TheVariants as step;
ghost use Rattle.interp_num.specs.Steps.{is_numeric, Gives, MayGive, IsSameCall, IsWithin};

use crate::arithmetic::{
    compare_longs, convert, divide_ints, divide_longs, increment, negate_int, negate_long,
    operate_ints, operate_longs, shift_int, shift_long,
};
use crate::branches::{if_ints, if_null, if_same, if_zero};
use crate::moves::{copy, discard, load, store, swap};
use crate::operands::{index_operand, long_constant, operand, place_of};
use crate::stack::grow;
use crate::switches::{switch_lookup, switch_table};
use instruction_table::row_of;
use jx_base::{ClassId, Frame, Instr, Row, System, Value};

/// What became of an instruction.
#[derive(Clone, Copy)]
pub enum NumStep {
    /// The next instruction follows.
    Next,
    /// The instruction at that place in the code follows.
    Jump(u32),
    /// An exception of that class is thrown.
    Raise(ClassId),
    /// The code breaks the rules.
    BadCode,
    /// The instruction is none on numbers.
    NotMine,
}

// What a frame's method says of the frame.
#[derive(Clone, Copy)]
struct Limits {
    class: u32,
    stack: u32,
}

#[tactic(auto, unfolding(machine_model::specs::State::class_of_frame, machine_model::specs::State::stack_limit, machine_model::specs::State::code_of, program_model::specs::Lookup::method_at, machine_model::specs::Conditions::local_count))]
fn limits_of(system: &System, frame: &Frame) -> Limits
    ensures class { result.class ≡ class_of_frame system.now frame.now }
    ensures stack { result.stack ≡ stack_limit system.now frame.now }
    ensures locals { local_count system.now frame.now < 2 ^ 32 }
{
    let Some(method) = system.program.methods.as_slice().get(frame.method as usize) else {
        return Limits { class: 0, stack: 0 };
    };
    let class = method.class.0;
    let Some(code) = &method.code else {
        return Limits { class, stack: 0 };
    };
    // A contract knows the range of what is read.
    let _locals = code.max_locals;
    Limits {
        class,
        stack: code.max_stack,
    }
}

// Runs the instruction in a method of that class; `None` is bad code.
#[tactic(auto, using(crate::proofs::Rows::rows), unfolding(machine_model::specs::NumericRows::numeric_row, machine_model::specs::NumericRows::moving_row, machine_model::specs::NumericRows::arithmetic_row, machine_model::specs::NumericRows::branching_row, machine_model::specs::NumericRows::given))]
fn run(system: &System, limits: Limits, frame: &mut Frame, instr: &Instr) -> Option<NumStep>
    requires within { IsWithin limits.stack frame.old }
    requires locals { length frame.old.locals < 2 ^ 32 }
    ensures row { MayGive result frame.old frame.new (numeric_row system.now limits.class
        limits.stack instr.now frame.old.locals frame.old.stack.values) }
    ensures place { IsSameCall frame.old frame.new }
{
    let most = limits.stack;
    match row_of(instr.opcode) {
        Row::Nop => Some(NumStep::Next),
        Row::Push(value) => grow(frame, most, value),
        Row::PushOperand => grow(frame, most, Value::Int(operand(instr, 0))),
        Row::PushLong => {
            let value = long_constant(system, limits.class, index_operand(instr, 0))?;
            grow(frame, most, value)
        }
        Row::Load(kind, local) => load(frame, most, kind, place_of(local, instr)),
        Row::Store(kind, local) => store(frame, kind, place_of(local, instr)),
        Row::Discard(slots) => discard(frame, slots),
        Row::Copy(copied, under) => copy(frame, most, copied, under),
        Row::Swap => swap(frame, most),
        Row::IntOperate(operator) => operate_ints(frame, most, operator),
        Row::LongOperate(operator) => operate_longs(frame, most, operator),
        Row::IntDivide(division) => divide_ints(frame, most, division),
        Row::LongDivide(division) => divide_longs(frame, most, division),
        Row::IntNegate => negate_int(frame, most),
        Row::LongNegate => negate_long(frame, most),
        Row::IntShift(shift) => shift_int(frame, most, shift),
        Row::LongShift(shift) => shift_long(frame, most, shift),
        Row::Increment => increment(frame, index_operand(instr, 0), operand(instr, 1)),
        Row::Convert(conversion) => convert(frame, most, conversion),
        Row::CompareLongs => compare_longs(frame, most),
        Row::IfZero(comparison) => if_zero(frame, comparison, index_operand(instr, 0)),
        Row::IfInts(comparison) => if_ints(frame, comparison, index_operand(instr, 0)),
        Row::IfSame(wanted) => if_same(frame, wanted, index_operand(instr, 0)),
        Row::IfNull(wanted) => if_null(frame, wanted, index_operand(instr, 0)),
        Row::Goto => Some(NumStep::Jump(index_operand(instr, 0))),
        Row::TableSwitch => switch_table(frame, instr),
        Row::LookupSwitch => switch_lookup(frame, instr),
        Row::PushConstant
        | Row::LoadElement(_)
        | Row::StoreElement(_)
        | Row::Return(_)
        | Row::ReturnVoid
        | Row::GetStatic
        | Row::PutStatic
        | Row::GetField
        | Row::PutField
        | Row::Invoke(_)
        | Row::New
        | Row::NewArray
        | Row::NewReferenceArray
        | Row::NewMultiArray
        | Row::ArrayLength
        | Row::Throw
        | Row::CheckCast
        | Row::InstanceOf
        | Row::Missing => Some(NumStep::NotMine),
    }
}

/// Runs one instruction on numbers, the stack, locals, branches or switches (JVMS 6.5). The caller
/// sets the pc. After bad code the rest of the stack is open. Takes no memory.
pub fn step_num(system: &System, frame: &mut Frame, instr: &Instr) -> NumStep
    requires { IsFrameOf system.now frame.old }
    ensures row { Gives result frame.old frame.new (numeric_row system.now
        (class_of_frame system.now frame.old) (stack_limit system.now frame.old) instr.now
        frame.old.locals frame.old.stack.values) }
    ensures others { result ≡ step.NotMine ↔ is_numeric (row_at instr.now.opcode) ≡ false }
    ensures place { (frame.new.method ≡ frame.old.method) × (frame.new.pc ≡ frame.old.pc) }
    ensures room { frame.new.stack.room ≡ frame.old.stack.room }
{
    run(system, limits_of(system, frame), frame, instr).unwrap_or(NumStep::BadCode)
}
