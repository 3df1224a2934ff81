//! The place behind an instruction.
ghost use Rattle.std.specs.Prelude.{◌≡◌, ◌<◌, ◌^◌, length, drop, option_map};
ghost use Rattle.std.specs.Option.{option_map};
ghost use Rattle.program_model.specs.Instructions.{instruction_at};
ghost use Rattle.interp_core.specs.Behind as Spec;

use crate::switches::{behind_bytes, behind_lookup, behind_table};
use instruction_table::{form_of, wide_form_of};
use jx_base::Form;

// The bytes behind the type of an array's elements.
#[tactic(auto, unfolding(crate::specs::Behind::behind_array_type))]
fn behind_array_type(bytes: &[u8]) -> Option<&[u8]>
    ensures { option_map (λ x. x.now) result ≡ Spec.behind_array_type bytes.now }
{
    match bytes {
        [kind, rest @ ..] => {
            if 4 <= *kind && *kind <= 11 && *kind != 6 && *kind != 7 {
                Some(rest)
            } else {
                None
            }
        }
        [] => None,
    }
}

// The bytes behind an index and a count of dimensions.
#[tactic(auto, unfolding(crate::specs::Behind::behind_dimensions))]
fn behind_dimensions(bytes: &[u8]) -> Option<&[u8]>
    ensures { option_map (λ x. x.now) result ≡ Spec.behind_dimensions bytes.now }
{
    match bytes {
        [_, _, count, rest @ ..] => { if *count == 0 { None } else { Some(rest) } }
        _ => None,
    }
}

// The bytes behind the operands of a form.
#[tactic(auto, unfolding(crate::specs::Behind::behind_operands))]
fn behind_operands(pc: u32, form: Form, bytes: &[u8]) -> Option<&[u8]>
    ensures { option_map (λ x. x.now) result ≡ Spec.behind_operands pc form bytes.now }
{
    match form {
        Form::Plain => Some(bytes),
        Form::SignedByte | Form::Byte => behind_bytes(1, bytes),
        Form::SignedShort | Form::Index | Form::Increment | Form::Branch => behind_bytes(2, bytes),
        Form::Interface | Form::WideIncrement | Form::FarBranch => behind_bytes(4, bytes),
        Form::ArrayType => behind_array_type(bytes),
        Form::Dimensions => behind_dimensions(bytes),
        Form::TableSwitch => behind_table(pc, bytes),
        Form::LookupSwitch => behind_lookup(pc, bytes),
        Form::Wide | Form::LeftOut | Form::Unassigned => None,
    }
}

// The bytes behind the opcode that wide widens, and its operands.
#[tactic(auto, unfolding(crate::specs::Behind::behind_wide))]
fn behind_wide(pc: u32, bytes: &[u8]) -> Option<&[u8]>
    ensures { option_map (λ x. x.now) result ≡ Spec.behind_wide pc bytes.now }
{
    match bytes {
        [opcode, rest @ ..] => behind_operands(pc, wide_form_of(*opcode), rest),
        [] => None,
    }
}

// The bytes behind the instruction at the front.
#[tactic(auto, unfolding(crate::specs::Behind::behind_instruction, crate::specs::Behind::behind_opcode))]
fn behind_instruction(pc: u32, bytes: &[u8]) -> Option<&[u8]>
    ensures { option_map (λ x. x.now) result ≡ Spec.behind_instruction pc bytes.now }
{
    match bytes {
        [opcode, rest @ ..] => match form_of(*opcode) {
            Form::Wide => behind_wide(pc, rest),
            form => behind_operands(pc, form, rest),
        },
        [] => None,
    }
}

/// The place behind the instruction at that place of the code. `None` where there is none. Takes no
/// memory.
pub fn place_behind(code: &[u8], pc: u32) -> Option<u32>
    requires { length code.now < 2 ^ 16 }
    ensures { result ≡ option_map (λ r. r.next) (instruction_at code.now pc) }
{
    let bytes = behind_bytes(pc as usize, code)?;
    let rest = behind_instruction(pc, bytes)?;
    Some((code.len() - rest.len()) as u32)
}
