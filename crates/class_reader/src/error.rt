//! Why bytes aren't read as a class file.
ghost use Rattle.std.specs.Prelude.{◌≡◌};
ghost use Rattle.class_grammar.specs.Constants as Spec;
ghost use Rattle.jx_base.specs.declared.error.Error.TheVariants.{Bad};

use jx_base::{ClassFault, ClassKind, Error};

/// Why there is no class file: the bytes are none, or memory was refused.
pub type ReadFault = Error<ClassFault>;

/// The fault of that kind at a place.
pub fn class_fault(at: u32, kind: ClassKind) -> ClassFault
    ensures { result ≡ Spec.class_fault at kind }
{
    ClassFault { at, kind }
}

/// The same as an error.
pub fn bad(at: u32, kind: ClassKind) -> ReadFault
    ensures { result ≡ Bad (Spec.class_fault at kind) }
{
    ReadFault::Bad(class_fault(at, kind))
}

/// The fault of a file of that size, in bytes, that is cut off.
pub fn cut_off(size: u32) -> ClassFault
    ensures { result ≡ Spec.cut_off size }
{
    class_fault(size, ClassKind::Truncated)
}
