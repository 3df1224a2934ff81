//! What an instruction names: its operands, a local, a constant.
ghost use Rattle.std.specs.Prelude.{◌≡◌};
ghost use Rattle.program_model.specs.Instructions as Spec;
ghost use Rattle.program_model.specs.Lookup.{constant_at};
ghost use Rattle.machine_model.specs.NumericRows as RowSpec;

use jx_base::{Instr, Local, Resolved, System, Value};

// Operand k, or 0 where there are not so many.
#[tactic(auto, unfolding(program_model::specs::Instructions::operand))]
pub(crate) fn operand(instr: &Instr, k: usize) -> i32
    ensures { result ≡ Spec.operand instr.now k }
{
    match instr.operands.as_slice().get(k) {
        Some(number) => *number,
        None => 0,
    }
}

/// Operand k as an index or a place in the code.
#[tactic(auto, unfolding(program_model::specs::Instructions::index_operand))]
pub fn index_operand(instr: &Instr, k: usize) -> u32
    ensures { result ≡ Spec.index_operand instr.now k }
{
    operand(instr, k).cast_unsigned()
}

// Which local a load or a store means.
#[tactic(auto, unfolding(machine_model::specs::NumericRows::place_of))]
pub(crate) fn place_of(local: Local, instr: &Instr) -> u32
    ensures { result ≡ RowSpec.place_of local instr.now }
{
    match local {
        Local::Named => index_operand(instr, 0),
        Local::Fixed(n) => n,
    }
}

// The long that constant k of the class means.
#[tactic(auto, unfolding(machine_model::specs::NumericRows::long_constant, program_model::specs::Lookup::constant_at, program_model::specs::Lookup::class_at))]
pub(crate) fn long_constant(system: &System, class: u32, k: u32) -> Option<Value>
    ensures { result ≡ RowSpec.long_constant (constant_at system.now class k) }
{
    let class = system.program.classes.as_slice().get(class as usize)?;
    match class.constants.as_slice().get(k as usize)? {
        Resolved::Long(number) => Some(Value::Long(*number)),
        _ => None,
    }
}
