//! Instructions, one behind the other.
ghost use Rattle.std.specs.Prelude.{◌<◌, ◌^◌, length, IfOk};
ghost use Rattle.class_grammar.specs.CodeGrammar.{wide_part, instruction_part};
ghost use Rattle.class_grammar.specs.CodeGrammar.{instructions_reading};
ghost use Rattle.jx_base.specs.Answers.{Gives};

use crate::error::{CodeError, Front, past_end};
use crate::operands::operands_of;
use class_grammar::u8_at;
use instruction_table::{form_of, wide_form_of};
use jx_base::{CodeKind, Form, Instr, Numbers};
use std::alloc::Global;

/// The instructions of the code.
pub fn instructions(alloc: Global, code: &[u8]) -> Result<Vec<Instr>, CodeError>
    requires { length code.now < 2 ^ 16 }
    ensures { Gives (λ v. v.items) result
        (instructions_reading (length code.now) (length code.now) code.now) }
{
    let mut instrs = Vec::new(alloc);
    let mut rest = code;
    while !rest.is_empty() {
        let pc = (code.len() - rest.len()) as u32;
        let (instr, after) = instruction(alloc, pc, rest)?;
        instrs.push(instr)?;
        rest = after;
    }
    Ok(instrs)
}

#[tactic(auto, unfolding(class_grammar::specs::CodeGrammar::instruction_part, class_grammar::specs::CodeGrammar::behind_opcode))]
fn instruction(alloc: Global, pc: u32, bytes: &[u8]) -> Front<'_, Instr>
    requires { pc < 2 ^ 31 }
    ensures read { Gives (λ x. (x.0, x.1.now)) result ((instruction_part pc).reads bytes.now) }
    ensures shorter { IfOk result (λ x. length x.1.now < length bytes.now) }
{
    let (opcode, rest) = u8_at(past_end(pc), bytes)?;
    match form_of(opcode) {
        Form::Wide => wide(alloc, pc, rest),
        form => {
            let (operands, rest) = operands_of(alloc, CodeKind::Opcode, form, pc, rest)?;
            let instr = Instr {
                pc,
                opcode,
                wide: false,
                operands: Numbers::from_vec(operands),
            };
            Ok((instr, rest))
        }
    }
}

// What stands behind wide.
#[tactic(auto, unfolding(class_grammar::specs::CodeGrammar::wide_part))]
fn wide(alloc: Global, pc: u32, bytes: &[u8]) -> Front<'_, Instr>
    requires { pc < 2 ^ 31 }
    ensures read { Gives (λ x. (x.0, x.1.now)) result ((wide_part pc).reads bytes.now) }
    ensures shorter { IfOk result (λ x. length x.1.now < length bytes.now) }
{
    let (opcode, rest) = u8_at(past_end(pc), bytes)?;
    let form = wide_form_of(opcode);
    let (operands, rest) = operands_of(alloc, CodeKind::BadWide, form, pc, rest)?;
    let instr = Instr {
        pc,
        opcode,
        wide: true,
        operands: Numbers::from_vec(operands),
    };
    Ok((instr, rest))
}
