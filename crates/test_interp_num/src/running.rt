//! A system of one method, and frames of it.
ghost use Rattle.std.specs.Prelude.{◌≡◌, ◌+◌, ◌≤◌, ◌<◌, ◌^◌, IfOk, IfSome, length};
ghost use Rattle.machine_model.specs.NumericRows as Spec;
ghost use Rattle.test_interp_num.specs.Small.{HasLimits, IsFrameWithin};

use interp_num::{NumStep, step_num};
use jx_base::{
    Class, ClassId, Code, Frame, Instr, Listed, Locals, Method, MethodId, OperandStack,
    OutOfMemory, Plan, Program, Resolved, System, Value, text_of,
};
use std::alloc::Global;

/// The class of the method has two constants: an int at 0, a long at 1.
fn class(alloc: Global) -> Result<Class, OutOfMemory> {
    let constants = vec![in alloc; Resolved::Int(7), Resolved::Long(i64::MIN)]?;
    Ok(Class {
        name: text_of(alloc, "A")?,
        parent: None,
        interfaces: Listed::from_vec(Vec::new(alloc)),
        component: None,
        fields: Listed::from_vec(Vec::new(alloc)),
        statics: Listed::from_vec(Vec::new(alloc)),
        methods: Listed::from_vec(Vec::new(alloc)),
        flags: 0,
        constants: Listed::from_vec(constants),
    })
}

/// A system of one method, whose frames have so many slots on the stack and so many locals.
#[tactic(auto, unfolding(machine_model::specs::State::code_of, program_model::specs::Lookup::method_at))]
pub fn system_of(alloc: Global, stack: u32, locals: u32) -> Result<System, OutOfMemory>
    ensures { IfOk result (HasLimits stack locals) }
{
    let method = Method {
        class: ClassId(0),
        selector: MethodId(0),
        flags: 0,
        code: Some(Code {
            max_stack: stack,
            max_locals: locals,
            at: 0,
            code: Listed::from_vec(Vec::new(alloc)),
            table: Listed::from_vec(Vec::new(alloc)),
        }),
        instrs: Listed::from_vec(Vec::new(alloc)),
    };
    Ok(System {
        plan: Plan {
            granules: 1,
            journal: 8208,
            templates: Listed::from_vec(Vec::new(alloc)),
            classes: Listed::from_vec(Vec::new(alloc)),
        },
        program: Program {
            classes: Listed::from_vec(vec![in alloc; class(alloc)?]?),
            methods: Listed::from_vec(vec![in alloc; method]?),
            selectors: Listed::from_vec(Vec::new(alloc)),
        },
    })
}

#[tactic(auto, unfolding(machine_model::specs::NumericRows::slots_of))]
fn slots_of(value: Value) -> u32
    ensures { result ≡ Spec.slots_of value }
{
    match value {
        Value::Long(_) => 2,
        _ => 1,
    }
}

// Puts a value on the top where so many slots are left for it. How many are left then.
fn pushed(operands: &mut OperandStack, left: u32, value: Value) -> Option<u32>
    requires { Spec.depth_of operands.old.values + left ≤ operands.old.room }
    ensures left { IfSome result (λ less.
        Spec.depth_of operands.new.values + less ≡ Spec.depth_of operands.old.values + left) }
    ensures room { operands.new.room ≡ operands.old.room }
{
    let slots = slots_of(value);
    if left < slots {
        return None;
    }
    operands.push(value);
    Some(left - slots)
}

/// A frame with these locals and these values, the last of them on the top. `None` where the values
/// fill more than so many slots.
pub fn frame_of(
    alloc: Global,
    stack: u32,
    locals: &[Option<Value>],
    values: &[Value],
) -> Result<Option<Frame>, OutOfMemory>
    requires { length locals.now < 2 ^ 32 }
    ensures { IfOk result (λ f. IfSome f (IsFrameWithin stack (length locals.now))) }
{
    let mut held = Locals::unset(alloc, locals.len() as u32)?;
    for (n, local) in locals.iter().enumerate() {
        held.set(n as u32, *local);
    }
    let mut operands = OperandStack::with_room(alloc, stack)?;
    let mut left = stack;
    for value in values {
        match pushed(&mut operands, left, *value) {
            Some(less) => left = less,
            None => return Ok(None),
        }
    }
    Ok(Some(Frame {
        method: 0,
        pc: 0,
        locals: held,
        stack: operands,
    }))
}

/// An instruction, and what it finds: the locals, the values with the top last, and how many slots
/// the stack has at most.
#[derive(Clone, Copy)]
pub struct Setting<'a> {
    pub opcode: u8,
    pub operands: &'a [i32],
    pub locals: &'a [Option<Value>],
    pub values: &'a [Value],
    pub most: u32,
}

/// What the step answers, with the frame that it leaves.
#[derive(Drop)]
pub struct Stepped {
    pub step: NumStep,
    pub frame: Frame,
}

/// One step. `None` where the stack can't hold the values.
#[tactic(auto, using(crate::proofs::Frames::frames))]
pub fn run_once(alloc: Global, setting: Setting<'_>) -> Result<Option<Stepped>, OutOfMemory>
    requires { length setting.locals.now < 2 ^ 32 }
{
    let system = system_of(alloc, setting.most, setting.locals.len() as u32)?;
    let Some(mut frame) = frame_of(alloc, setting.most, setting.locals, setting.values)? else {
        return Ok(None);
    };
    let instr = Instr {
        pc: 0,
        opcode: setting.opcode,
        wide: false,
        operands: Listed::from_slice(alloc, setting.operands)?,
    };
    let step = step_num(&system, &mut frame, &instr);
    Ok(Some(Stepped { step, frame }))
}
