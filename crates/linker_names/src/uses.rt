//! What an instruction, or an entry of an exception table, uses a constant as.
ghost use Rattle.std.specs.Prelude.{◌≡◌};
ghost use Rattle.link_model.specs.ClassFiles.{use_by, used_by};
ghost use Rattle.linker_names.specs.Names.{catch_use};
ghost use Rattle.program_model.specs.Instructions.{index_operand};

use instruction_table::row_of;
use jx_base::{Instr, Range, Row};
use link_model::{Use, Used};

/// An operand as an index or a place in the code, 0 where the instruction hasn't so many.
#[tactic(auto, unfolding(program_model::specs::Instructions::index_operand, program_model::specs::Instructions::operand))]
pub fn index_operand(instr: &Instr, number: usize) -> u32
    ensures { result ≡ index_operand instr.now number }
{
    match instr.operands.as_slice().get(number) {
        Some(operand) => operand.cast_unsigned(),
        None => 0,
    }
}

/// What an instruction of the row uses its constant as.
#[tactic(auto, unfolding(link_model::specs::ClassFiles::use_by))]
pub fn use_by(row: Row, instr: &Instr) -> Option<Use>
    ensures { result ≡ use_by row instr.now }
{
    match row {
        Row::PushConstant => Some(Use::AsWord),
        Row::PushLong => Some(Use::AsLong),
        Row::GetStatic | Row::PutStatic => Some(Use::AsField(true)),
        Row::GetField | Row::PutField => Some(Use::AsField(false)),
        Row::Invoke(kind) => Some(Use::AsMethod(kind)),
        Row::New => Some(Use::AsNew),
        Row::NewReferenceArray | Row::CheckCast | Row::InstanceOf => Some(Use::AsClass),
        Row::NewMultiArray => Some(Use::AsArray(index_operand(instr, 1))),
        _ => None,
    }
}

/// The use of a constant by the instruction.
#[tactic(auto, unfolding(link_model::specs::ClassFiles::used_by))]
pub fn used_by(instr: &Instr) -> Option<Used>
    ensures { result ≡ used_by instr.now }
{
    let use_of = use_by(row_of(instr.opcode), instr)?;
    Some(Used {
        use_of,
        index: index_operand(instr, 0),
    })
}

/// The use of a constant as the type that an entry of an exception table catches.
pub fn catch_use(range: &Range) -> Option<Used>
    ensures { result ≡ catch_use range.now }
{
    if range.catch_type == 0 {
        return None;
    }
    Some(Used {
        use_of: Use::AsClass,
        index: range.catch_type,
    })
}
