//! How operands lie behind an opcode, and what it does.
ghost use Rattle.std.specs.Prelude.{◌≡◌};
ghost use Rattle.class_grammar.specs.Opcodes.{form_at, row_at, wide_form_at};

use crate::opcodes::opcode_of;
use jx_base::{Form, Local, Row};

/// What the opcode does.
#[tactic(auto, unfolding(class_grammar::specs::Opcodes::row_at))]
pub fn row_of(number: u8) -> Row
    ensures { result ≡ row_at number }
{
    opcode_of(number).row
}

/// How the opcode's operands lie behind it.
#[tactic(auto, unfolding(class_grammar::specs::Opcodes::form_at))]
pub fn form_of(number: u8) -> Form
    ensures { result ≡ form_at number }
{
    opcode_of(number).form
}

/// How the operands lie behind wide and that opcode.
#[tactic(auto, unfolding(class_grammar::specs::Opcodes::wide_form_at, class_grammar::specs::Opcodes::wide_form_of, class_grammar::specs::Opcodes::is_left_out_wide))]
pub fn wide_form_of(number: u8) -> Form
    ensures { result ≡ wide_form_at number }
{
    match number {
        0x17 | 0x18 | 0x38 | 0x39 | 0xa9 => Form::LeftOut,
        _ => match row_of(number) {
            Row::Load(_, Local::Named) | Row::Store(_, Local::Named) => Form::Index,
            Row::Increment => Form::WideIncrement,
            _ => Form::Unassigned,
        },
    }
}
