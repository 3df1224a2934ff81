//! The array classes that instructions name or make.
ghost use Rattle.std.specs.Prelude.{◌≡◌, ◌∷◌, [], IfOk, OnOk, flat_map};
ghost use Rattle.std.specs.Str.{bytes_eq};
ghost use Rattle.jx_base.specs.Basics.{all_added};
ghost use Rattle.link_model.specs.ClassFiles.{arrays_of_code, arrays_of_instr, class_at_index};
ghost use Rattle.linker_outline.specs.Catches.{arrays_of_catch};
ghost use Rattle.program_model.specs.Instructions.{instructions_of};
ghost use Rattle.program_model.specs.Lookup.{type_of_name};
ghost use Rattle.program_model.specs.Types.{element_type};

use crate::arrays::{MARK, add_arrays_of};
use indexmap::IndexSet;
use instruction_table::row_of;
use jx_base::{ClassFile, Code, Instr, OutOfMemory, Range, Row, Text};
use linker_names::{class_of_constant, constant_in, index_operand, use_by};
use std::alloc::Global;

// The class that the constant at the index names, empty where it names none.
#[tactic(auto, unfolding(link_model::specs::ClassFiles::class_at_index, link_model::specs::ClassFiles::class_of_constant))]
fn class_at_index(file: &ClassFile, index: u32) -> &[u16]
    ensures { result.now ≡ class_at_index file.now index }
{
    let Some(constant) = constant_in(file, index) else {
        return &[];
    };
    match class_of_constant(file, constant) {
        Some(name) => name,
        None => &[],
    }
}

// The type of the elements that the operand of newarray names.
#[tactic(auto, unfolding(program_model::specs::Types::element_type))]
fn element_unit(code: u32) -> u16
    ensures { result ∷ [] ≡ element_type code }
{
    let letter = match code {
        4 => b'Z',
        5 => b'C',
        8 => b'B',
        9 => b'S',
        10 => b'I',
        _ => b'J',
    };
    u16::from(letter)
}

// The class of arrays over a class.
#[tactic(auto, unfolding(program_model::specs::Lookup::type_of_name))]
fn arrays_over(alloc: Global, class: &[u16]) -> Result<Vec<u16>, OutOfMemory>
    ensures { IfOk result (λ name. name.items ≡ 91 ∷ type_of_name class.now) }
{
    let mut name = vec![in alloc; MARK]?;
    match class {
        [] => {}
        [first, ..] if *first == MARK => name.extend_from_slice(class)?,
        _ => {
            name.push(u16::from(b'L'))?;
            name.extend_from_slice(class)?;
            name.push(u16::from(b';'))?;
        }
    }
    Ok(name)
}

/// Adds the array classes that the instruction names or makes.
#[tactic(auto, unfolding(link_model::specs::ClassFiles::arrays_of_instr, link_model::specs::ClassFiles::class_mentioned, link_model::specs::ClassFiles::arrays_of_name, jx_base::specs::Basics::all_added))]
pub fn add_arrays_of_instr(
    alloc: Global,
    names: &mut IndexSet<Text>,
    file: &ClassFile,
    instr: &Instr,
) -> Result<(), OutOfMemory>
    ensures { OnOk result (names.new.keys
        ≡ all_added bytes_eq names.old.keys (arrays_of_instr file.now instr.now)) }
{
    let class = class_at_index(file, index_operand(instr, 0));
    match row_of(instr.opcode) {
        Row::NewArray => {
            let element = element_unit(index_operand(instr, 0));
            add_arrays_of(alloc, names, &[MARK, element])
        }
        Row::NewReferenceArray => {
            let name = arrays_over(alloc, class)?;
            add_arrays_of(alloc, names, &name)
        }
        row => match use_by(row, instr) {
            Some(_) => add_arrays_of(alloc, names, class),
            None => Ok(()),
        },
    }
}

// Adds the array classes of the instructions of a method.
fn add_arrays_of_body(
    alloc: Global,
    names: &mut IndexSet<Text>,
    file: &ClassFile,
    body: &[Instr],
) -> Result<(), OutOfMemory>
    ensures { OnOk result (names.new.keys
        ≡ all_added bytes_eq names.old.keys (flat_map (arrays_of_instr file.now) body.now)) }
{
    for instr in body {
        add_arrays_of_instr(alloc, names, file, instr)?;
    }
    Ok(())
}

// Adds the array classes of what an exception table catches.
fn add_arrays_of_catches(
    alloc: Global,
    names: &mut IndexSet<Text>,
    file: &ClassFile,
    table: &[Range],
) -> Result<(), OutOfMemory>
    ensures { OnOk result (names.new.keys
        ≡ all_added bytes_eq names.old.keys (flat_map (arrays_of_catch file.now) table.now)) }
{
    for range in table {
        add_arrays_of_catch(alloc, names, file, range)?;
    }
    Ok(())
}

// Adds the array classes of the class that an entry of an exception table catches.
#[tactic(auto, unfolding(jx_base::specs::Basics::all_added))]
fn add_arrays_of_catch(
    alloc: Global,
    names: &mut IndexSet<Text>,
    file: &ClassFile,
    range: &Range,
) -> Result<(), OutOfMemory>
    ensures { OnOk result (names.new.keys
        ≡ all_added bytes_eq names.old.keys (arrays_of_catch file.now range.now)) }
{
    if range.catch_type == 0 {
        return Ok(());
    }
    add_arrays_of(alloc, names, class_at_index(file, range.catch_type))
}

/// Adds the array classes of a method's code: those of its instructions, then those of its catch
/// types.
pub fn add_arrays_of_code(
    alloc: Global,
    names: &mut IndexSet<Text>,
    file: &ClassFile,
    code: &Code,
    body: &[Instr],
) -> Result<(), OutOfMemory>
    requires { body.now ≡ instructions_of code.now.code }
    ensures { OnOk result (names.new.keys
        ≡ all_added bytes_eq names.old.keys (arrays_of_code file.now code.now)) }
{
    add_arrays_of_body(alloc, names, file, body)?;
    add_arrays_of_catches(alloc, names, file, code.table.as_slice())
}
