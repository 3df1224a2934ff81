//! The methods of jx/Memory.
ghost use Rattle.std.specs.Prelude.{◌≡◌};
ghost use Rattle.interp_built_in.specs.Answers.{Answers};
ghost use Rattle.interp_built_in.specs.BuiltIns.{act_on_memory, act_at_place, act_over_range};
ghost use Rattle.machine_model.specs.BuiltInMethods as Spec;
ghost use Rattle.machine_model.specs.State.{Store};

use crate::answer::BuiltInAnswer;
use crate::built_in::{MemoryAct, PlaceAct, RangeAct};
use jx_base::{Act, Value};
use program_types::NULL_POINTER_EXCEPTION;

/// The act on a memory object.
#[tactic(auto, unfolding(machine_model::specs::BuiltInMethods::memory_act))]
pub fn on_memory(act: MemoryAct, arguments: &[Value]) -> BuiltInAnswer
    ensures { (s : Store) → Answers (Spec.memory_act (act_on_memory act)) arguments.now s result }
{
    let [Value::Mem(object)] = arguments else {
        return BuiltInAnswer::Unfit;
    };
    BuiltInAnswer::Performs(match act {
        MemoryAct::Size => Act::Size(*object),
        MemoryAct::Revoke => Act::Revoke(*object),
        MemoryAct::Release => Act::Release(*object),
    })
}

/// The act at a place of a memory object.
#[tactic(auto, unfolding(machine_model::specs::BuiltInMethods::memory_int_act))]
pub fn at_place(act: PlaceAct, arguments: &[Value]) -> BuiltInAnswer
    ensures { (s : Store) → Answers (Spec.memory_int_act (act_at_place act)) arguments.now
        s result }
{
    let [Value::Mem(object), Value::Int(at)] = arguments else {
        return BuiltInAnswer::Unfit;
    };
    let (object, at) = (*object, *at);
    BuiltInAnswer::Performs(match act {
        PlaceAct::Get(width) => Act::Get { object, at, width },
        PlaceAct::Split => Act::Split { object, at },
    })
}

/// The act at a place of a memory object, with an int more.
#[tactic(auto, unfolding(machine_model::specs::BuiltInMethods::memory_ints_act))]
pub fn over_range(act: RangeAct, arguments: &[Value]) -> BuiltInAnswer
    ensures { (s : Store) → Answers (Spec.memory_ints_act (act_over_range act)) arguments.now
        s result }
{
    let [Value::Mem(object), Value::Int(at), Value::Int(number)] = arguments else {
        return BuiltInAnswer::Unfit;
    };
    let (object, at, number) = (*object, *at, *number);
    BuiltInAnswer::Performs(match act {
        RangeAct::Set(width) => Act::Set {
            object,
            at,
            width,
            value: number,
        },
        RangeAct::Sub => Act::Sub {
            object,
            at,
            count: number,
        },
    })
}

/// fill
#[tactic(auto, unfolding(machine_model::specs::BuiltInMethods::fill))]
pub fn fill(arguments: &[Value]) -> BuiltInAnswer
    ensures { (s : Store) → Answers Spec.fill arguments.now s result }
{
    match arguments {
        [
            Value::Mem(object),
            Value::Int(at),
            Value::Int(count),
            Value::Int(byte),
        ] => BuiltInAnswer::Performs(Act::Fill {
            object: *object,
            at: *at,
            count: *count,
            byte: (byte.cast_unsigned() % 256) as u8,
        }),
        _ => BuiltInAnswer::Unfit,
    }
}

/// copy
#[tactic(auto, unfolding(machine_model::specs::BuiltInMethods::copy, program_model::specs::BuiltIn::null_pointer_exception))]
pub fn copy_over(arguments: &[Value]) -> BuiltInAnswer
    ensures { (s : Store) → Answers Spec.copy arguments.now s result }
{
    let [
        Value::Mem(source),
        Value::Int(at),
        target,
        Value::Int(target_at),
        Value::Int(count),
    ] = arguments
    else {
        return BuiltInAnswer::Unfit;
    };
    match target {
        Value::Null => BuiltInAnswer::Raises(NULL_POINTER_EXCEPTION),
        Value::Mem(target) => BuiltInAnswer::Performs(Act::Copy {
            source: *source,
            at: *at,
            target: *target,
            target_at: *target_at,
            count: *count,
        }),
        _ => BuiltInAnswer::Unfit,
    }
}
