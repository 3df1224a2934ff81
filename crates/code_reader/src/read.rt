//! Reads the code of a method.
ghost use Rattle.std.specs.Prelude.{◌<◌, ◌^◌, ℕ, List, length, IfOk, IfErr, Ok, Err};
ghost use Rattle.class_grammar.specs.CodeGrammar.{IsCode, IsCodeFault, code_fault};
ghost use Rattle.jx_base.specs.declared.class_file.Instr.{Instr};
ghost use Rattle.jx_base.specs.declared.fault.CodeKind.{CodeKind};
ghost use Rattle.code_reader.specs.CodeReading.{Marks, FindsFault, IsFoundBy, code_reading};
ghost use Rattle.jx_base.specs.Answers.{Gives};

use crate::error::CodeError;
use crate::instructions::instructions;
use crate::targets::{first_astray, first_bad_range, starts_of};
use jx_base::{CodeFault, CodeKind, Instr, Range};
use std::alloc::Global;

/// The instructions of a method's code with its exception table, or its first fault
/// (docs/instructions.md).
pub fn read_code(alloc: Global, code: &[u8], table: &[Range]) -> Result<Vec<Instr>, CodeError>
    requires { length code.now < 2 ^ 16 }
    ensures found { IfOk result (λ instrs. IsCode code.now table.now instrs.items) }
    ensures fault { IfErr result (FindsFault code.now table.now) }

    // What the code is, or its first fault, is found, unless memory runs out.
    ensures only { (instrs : List Instr) → IsCode code.now table.now instrs
        → Gives (λ v. v.items) result (Ok instrs) }
    ensures only_fault { (pc : ℕ) (kind : CodeKind) → IsCodeFault code.now table.now pc kind
        → Gives (λ v. v.items) result (Err (code_fault pc kind)) }
{
    checked_code(alloc, code, table)
}

fn checked_code(alloc: Global, code: &[u8], table: &[Range]) -> Result<Vec<Instr>, CodeError>
    requires { length code.now < 2 ^ 16 }
    ensures { Gives (λ v. v.items) result (code_reading code.now table.now) }
{
    let instrs = instructions(alloc, code)?;
    let starts = starts_of(alloc, code.len(), &instrs)?;
    match first_fault(code.len(), &starts, &instrs, table) {
        Some(fault) => Err(CodeError::Bad(fault)),
        None => Ok(instrs),
    }
}

// The first fault of the targets, and else of the exception table.
fn first_fault(size: usize, starts: &[bool], instrs: &[Instr], table: &[Range]) -> Option<CodeFault>
    requires { Marks starts.now instrs.now }
    ensures { IsFoundBy size table.now instrs.now result }
{
    if let Some(pc) = first_astray(starts, instrs) {
        return Some(CodeFault {
            pc,
            kind: CodeKind::Target,
        });
    }
    let pc = first_bad_range(size, starts, table)?;
    Some(CodeFault {
        pc,
        kind: CodeKind::BadRange,
    })
}
