//! Why bytes aren't read as the code of a method.
ghost use Rattle.std.specs.Prelude.{◌≡◌};
ghost use Rattle.class_grammar.specs.CodeGrammar as Spec;
ghost use Rattle.jx_base.specs.declared.error.Error.TheVariants.{Bad};

use jx_base::{CodeFault, CodeKind, Error};

/// Why there are no instructions: the bytes are no code, or memory was refused.
pub type CodeError = Error<CodeFault>;

/// What stands at the front of bytes, and the bytes behind it.
pub type Front<'b, T> = class_grammar::Front<'b, T, CodeFault>;

/// The fault of an instruction that runs past the end.
pub fn past_end(pc: u32) -> CodeFault
    ensures { result ≡ Spec.past_end pc }
{
    CodeFault {
        pc,
        kind: CodeKind::Truncated,
    }
}

/// The fault of the instruction at `pc`.
pub fn fault(pc: u32, kind: CodeKind) -> CodeError
    ensures { result ≡ Bad (Spec.code_fault pc kind) }
{
    CodeError::Bad(CodeFault { pc, kind })
}
