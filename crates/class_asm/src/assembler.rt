//! Assembles class files.
ghost use Rattle.std.specs.Prelude.{◌≡◌, ◌≤◌, ◌^◌, length, IfOk, IfErr};
ghost use Rattle.class_asm.specs.Assembly.{IsAssembled, FindsFault, asm_fault, far_or};
ghost use Rattle.asm_bodies.specs.Bodies.{first_far};
ghost use Rattle.std.specs.Prelude.{take};

use crate::fault::{AsmError, AsmFault};
use asm_bodies::first_far;
use asm_bytes::file_bytes;
use asm_checks::{Checked, check};
use asm_lines::{AsmKind, Line, meanings};
use jx_base::OutOfMemory;
use std::alloc::Global;

// The fault of the line behind so many.
#[tactic(auto, unfolding(crate::specs::Assembly::asm_fault))]
fn asm_fault(before: usize, kind: AsmKind) -> AsmFault
    requires { before ≤ 2 ^ 31 }
    ensures { result ≡ asm_fault before kind }
{
    AsmFault {
        line: before as u32 + 1,
        kind,
    }
}

// That fault, or that of a line in front of it which is too far from a label.
#[tactic(auto, unfolding(crate::specs::Assembly::far_or))]
fn far_or(
    alloc: Global,
    lines: &[Line],
    before: usize,
    kind: AsmKind,
) -> Result<AsmFault, OutOfMemory>
    requires within { before ≤ length lines.now }
    requires few { length lines.now ≤ 2 ^ 31 }
    ensures { IfOk result (λ fault. fault
        ≡ far_or (first_far (take before lines.now)) (asm_fault before kind)) }
{
    match first_far(alloc, &lines[..before])? {
        Some(far) => Ok(asm_fault(far, AsmKind::Label)),
        None => Ok(asm_fault(before, kind)),
    }
}

/// The class file that a text of at most 2^31 bytes says, or its first faulty line.
pub fn assemble(alloc: Global, text: &[u8]) -> Result<Vec<u8>, AsmError>
    requires { length text.now ≤ 2 ^ 31 }
    ensures assembled { IfOk result (λ bytes. IsAssembled text.now bytes.items) }
    ensures fault { IfErr result (FindsFault text.now) }
{
    let lines = meanings(alloc, text)?;
    match check(alloc, lines.as_slice())? {
        Checked::Faulty(before, kind) => {
            let fault = far_or(alloc, lines.as_slice(), before, kind)?;
            Err(AsmError::Bad(fault))
        }
        Checked::Sound(pool) => match first_far(alloc, lines.as_slice())? {
            Some(far) => Err(AsmError::Bad(asm_fault(far, AsmKind::Label))),
            None => Ok(file_bytes(alloc, &pool, lines.as_slice())?),
        },
    }
}
