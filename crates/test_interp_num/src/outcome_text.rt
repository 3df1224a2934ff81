//! What a step answers and leaves, as a text.
//!
//! Ints are written as 7, longs as 7L, null as null, objects as @7, portals as p7 with the number of
//! the service, memory objects as m7. Locals stand in brackets, an unset one as _. The top of the
//! stack stands last.

use crate::running::{Setting, Stepped, run_once};
use interp_num::NumStep;
use jx_base::{Locals, OperandStack, OutOfMemory, Value};
use std::alloc::Global;
use std::process::Abort;
use std::test::Fail;

/// A case: an opcode, its operands, the values that it finds, and what it comes to.
pub type Case = (u8, &'static [i32], &'static [Value], &'static str);

fn value_text(alloc: Global, value: Value) -> Result<String, OutOfMemory> {
    match value {
        Value::Int(n) => format!(in alloc; " {n}"),
        Value::Long(n) => format!(in alloc; " {n}L"),
        Value::Null => String::from_str(alloc, " null"),
        Value::Ref(n) => format!(in alloc; " @{n}"),
        Value::Portal(service, _) => format!(in alloc; " p{}", service.0),
        Value::Mem(object) => format!(in alloc; " m{}", object.0),
    }
}

fn stack_text(alloc: Global, stack: &mut OperandStack) -> Result<String, OutOfMemory> {
    let mut values = Vec::new(alloc);
    for _ in 0..stack.len() {
        if let Some(value) = stack.pop() {
            values.push(value)?;
        }
    }
    let mut text = String::new(alloc);
    for value in values.iter().rev() {
        text.push_str(value_text(alloc, *value)?.as_str())?;
    }
    Ok(text)
}

fn locals_text(alloc: Global, locals: &Locals) -> Result<String, OutOfMemory> {
    let mut text = String::new(alloc);
    let count = locals.len();
    if count == 0 || count > 1000 {
        return Ok(text);
    }
    text.push_str(" [")?;
    for n in 0..count as u32 {
        match locals.get(n) {
            Some(value) => text.push_str(value_text(alloc, value)?.as_str())?,
            None => text.push_str(" _")?,
        }
    }
    text.push_str(" ]")?;
    Ok(text)
}

/// What a step comes to.
pub fn outcome_text(alloc: Global, setting: Setting<'_>) -> Result<String, OutOfMemory> {
    if setting.locals.len() > 1000 {
        return String::from_str(alloc, "too many locals");
    }
    let Some(stepped) = run_once(alloc, setting)? else {
        return String::from_str(alloc, "no frame");
    };
    let Stepped { step, mut frame } = stepped;
    let mut text = match step {
        NumStep::Next => String::from_str(alloc, "next:")?,
        NumStep::Jump(to) => format!(in alloc; "jump {to}:")?,
        NumStep::Raise(class) => format!(in alloc; "raise {}:", class.0)?,
        NumStep::BadCode => return String::from_str(alloc, "bad"),
        NumStep::NotMine => String::from_str(alloc, "other:")?,
    };
    text.push_str(locals_text(alloc, &frame.locals)?.as_str())?;
    text.push_str(stack_text(alloc, &mut frame.stack)?.as_str())?;
    Ok(text)
}

/// Each case comes to what it should, with room for 12 slots on the stack and these locals.
pub fn each_comes_to(
    rt: &impl Abort,
    alloc: Global,
    locals: &[Option<Value>],
    cases: &[Case],
) -> Result<(), Fail> {
    for (opcode, operands, values, wanted) in cases {
        let setting = Setting {
            opcode: *opcode,
            operands,
            locals,
            values,
            most: 12,
        };
        let text = outcome_text(alloc, setting)?;
        assert_eq!(rt; text.as_str(), *wanted, "opcode {opcode}");
    }
    Ok(())
}
