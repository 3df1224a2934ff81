//! One step of an instruction on objects, by its row.
ghost use Rattle.std.specs.Prelude.{◌≡◌, ◌↔◌, false, IfOk};
ghost use Rattle.class_grammar.specs.Opcodes.{row_at};
ghost use Rattle.interp_access.specs.Rows.{Runs};
ghost use Rattle.interp_core.specs.Cores.{IsRunnable, core_state};
ghost use Rattle.interp_core.specs.Steps.{Gives};
ghost use Rattle.interp_core.specs.declared.step.ObjStep.TheVariants as step;
ghost use Rattle.interp_obj.specs.ObjectSteps.{IsNextInstr, is_object_row};
ghost use Rattle.machine_laws.specs.Sound.{IsSound};
ghost use Rattle.machine_model.specs.ObjectRows as Spec;

use crate::calls::invoke;
use crate::returns::{return_value, return_void};
use instruction_table::row_of;
use interp_access::{
    class_row, constant_row, get_field_row, get_static_row, length_row, load_row, new_array_row,
    put_field_row, put_static_row, store_row, throw_row,
};
use interp_core::{Core, ObjStep, class_of_frame, constant_at, running};
use interp_num::index_operand;
use jx_base::{Instr, OutOfMemory, Resolved, Row, System};
use program_types::element_type;
use std::alloc::Global;

// Whether the row uses the constant of the instruction's first operand.
#[tactic(auto, unfolding(machine_model::specs::ObjectRows::uses_constant))]
fn uses_constant(row: Row) -> bool
    ensures { result ≡ Spec.uses_constant row }
{
    matches!(
        row,
        Row::PushConstant
            | Row::GetStatic
            | Row::PutStatic
            | Row::GetField
            | Row::PutField
            | Row::Invoke(_)
            | Row::New
            | Row::NewReferenceArray
            | Row::NewMultiArray
            | Row::CheckCast
            | Row::InstanceOf
    )
}

// Runs a row that uses no constant.
#[tactic(auto, unfolding(machine_model::specs::ObjectRows::plain_row))]
fn run_plain(system: &System, core: &mut Core, row: Row, instr: &Instr) -> ObjStep
    requires { IsRunnable system.now (core_state core.old) }
    ensures { Runs result core.old core.new
        (λ state. Spec.plain_row system.now state row instr.now) }
{
    match row {
        Row::LoadElement(element) => load_row(system, core, element),
        Row::StoreElement(element) => store_row(system, core, element),
        Row::NewArray => new_array_row(system, core, element_type(index_operand(instr, 0))),
        Row::ArrayLength => length_row(system, core),
        Row::Throw => throw_row(system, core),
        Row::Return(kind) => return_value(system, core, kind),
        Row::ReturnVoid => return_void(system, core),
        _ => ObjStep::NotMine,
    }
}

// Runs a row that uses a constant, which must be of the kind that the row uses.
#[tactic(auto, unfolding(machine_model::specs::ObjectRows::constant_used_row, machine_model::specs::ObjectRows::class_row))]
fn run_with(
    alloc: Global,
    system: &System,
    core: &mut Core,
    row: Row,
    instr: &Instr,
    constant: &Resolved,
) -> Result<ObjStep, OutOfMemory>
    requires system { IsSound system.now }
    requires core { IsRunnable system.now (core_state core.old) }
    ensures { IfOk result (λ step. Runs step core.old core.new
        (λ state. Spec.constant_used_row system.now state row instr.now constant.now)) }
{
    match row {
        Row::PushConstant => constant_row(alloc, system, core, constant),
        Row::GetStatic => match constant {
            Resolved::Static(_, place) => Ok(get_static_row(system, core, *place)),
            _ => Ok(ObjStep::BadCode),
        },
        Row::PutStatic => match constant {
            Resolved::Static(_, place) => Ok(put_static_row(system, core, *place)),
            _ => Ok(ObjStep::BadCode),
        },
        Row::GetField => match constant {
            Resolved::Instance(class, place) => Ok(get_field_row(system, core, class.0, *place)),
            _ => Ok(ObjStep::BadCode),
        },
        Row::PutField => match constant {
            Resolved::Instance(class, place) => Ok(put_field_row(system, core, class.0, *place)),
            _ => Ok(ObjStep::BadCode),
        },
        Row::Invoke(kind) => match constant {
            Resolved::Method(method) => invoke(alloc, system, core, kind, *method),
            _ => Ok(ObjStep::BadCode),
        },
        _ => match constant {
            Resolved::Class(class) => Ok(class_row(system, core, row, instr, class.0)),
            _ => Ok(ObjStep::BadCode),
        },
    }
}

/// Runs one instruction on objects, arrays, fields, classes, calls or exceptions (JVMS 6.5), at the
/// running frame. An error is that memory was refused; after it, and after bad code, the core is
/// open.
pub fn step_obj(
    alloc: Global,
    core: &mut Core,
    system: &System,
    instr: &Instr,
) -> Result<ObjStep, OutOfMemory>
    requires system { IsSound system.now }
    requires core { IsRunnable system.now (core_state core.old) }
    requires instr { IsNextInstr system.now (core_state core.old) instr.now }
    ensures row { IfOk result (λ step. Gives step (core_state core.old) (core_state core.new)
        (Spec.object_row system.now (core_state core.old) instr.now)) }
    ensures others { IfOk result
        (λ answer. answer ≡ step.NotMine ↔ is_object_row (row_at instr.now.opcode) ≡ false) }
{
    let row = row_of(instr.opcode);
    if !uses_constant(row) {
        return Ok(run_plain(system, core, row, instr));
    }
    let Some(frame) = running(core) else {
        return Ok(ObjStep::BadCode);
    };
    let class = class_of_frame(system, frame);
    let Some(constant) = constant_at(system, class, index_operand(instr, 0)) else {
        return Ok(ObjStep::BadCode);
    };
    run_with(alloc, system, core, row, instr, constant)
}
