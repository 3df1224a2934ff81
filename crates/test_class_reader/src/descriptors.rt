//! Descriptors of fields and methods.

use crate::parts::{class_of, first_fault, push_hex};
use jx_base::{ClassKind, OutOfMemory};
use std::alloc::Global;
use std::process::Abort;
use std::test::Fail;

static FIELDS: [(&str, Option<ClassKind>); 34] = [
    ("B", None),
    ("C", None),
    ("I", None),
    ("J", None),
    ("S", None),
    ("Z", None),
    ("[I", None),
    ("[[[J", None),
    ("LA;", None),
    ("La/b/C;", None),
    ("LF;", None),
    ("LD;", None),
    ("[LF;", None),
    ("L(;", None),
    ("F", Some(ClassKind::Unsupported)),
    ("D", Some(ClassKind::Unsupported)),
    ("[F", Some(ClassKind::Unsupported)),
    ("[[[D", Some(ClassKind::Unsupported)),
    ("", Some(ClassKind::Descriptor)),
    ("[", Some(ClassKind::Descriptor)),
    ("L", Some(ClassKind::Descriptor)),
    ("L;", Some(ClassKind::Descriptor)),
    ("LA", Some(ClassKind::Descriptor)),
    ("[L;", Some(ClassKind::Descriptor)),
    ("V", Some(ClassKind::Descriptor)),
    ("[V", Some(ClassKind::Descriptor)),
    ("A", Some(ClassKind::Descriptor)),
    ("f", Some(ClassKind::Descriptor)),
    ("II", Some(ClassKind::Descriptor)),
    ("I;", Some(ClassKind::Descriptor)),
    ("LA;I", Some(ClassKind::Descriptor)),
    ("FF", Some(ClassKind::Descriptor)),
    ("()V", Some(ClassKind::Descriptor)),
    (" I", Some(ClassKind::Descriptor)),
];

static METHODS: [(&str, Option<ClassKind>); 44] = [
    ("()V", None),
    ("()I", None),
    ("(I)V", None),
    ("(LF;)LD;", None),
    ("(LA;I[J)[[Z", None),
    ("()LA;", None),
    ("([[LF;)V", None),
    ("(BCISZJ)J", None),
    ("(F)V", Some(ClassKind::Unsupported)),
    ("(D)V", Some(ClassKind::Unsupported)),
    ("(IJD)V", Some(ClassKind::Unsupported)),
    ("(LA;F)V", Some(ClassKind::Unsupported)),
    ("([F)V", Some(ClassKind::Unsupported)),
    ("([[D)V", Some(ClassKind::Unsupported)),
    ("()F", Some(ClassKind::Unsupported)),
    ("()D", Some(ClassKind::Unsupported)),
    ("()[F", Some(ClassKind::Unsupported)),
    ("()[[D", Some(ClassKind::Unsupported)),
    ("(F)D", Some(ClassKind::Unsupported)),
    ("", Some(ClassKind::Descriptor)),
    ("V", Some(ClassKind::Descriptor)),
    ("I", Some(ClassKind::Descriptor)),
    ("(", Some(ClassKind::Descriptor)),
    (")", Some(ClassKind::Descriptor)),
    ("()", Some(ClassKind::Descriptor)),
    ("(V)V", Some(ClassKind::Descriptor)),
    ("([V)V", Some(ClassKind::Descriptor)),
    ("()VV", Some(ClassKind::Descriptor)),
    ("()II", Some(ClassKind::Descriptor)),
    ("()[", Some(ClassKind::Descriptor)),
    ("()[V", Some(ClassKind::Descriptor)),
    ("()L;", Some(ClassKind::Descriptor)),
    ("()LA", Some(ClassKind::Descriptor)),
    ("(I", Some(ClassKind::Descriptor)),
    ("(L;)V", Some(ClassKind::Descriptor)),
    ("(LA)V", Some(ClassKind::Descriptor)),
    ("([)V", Some(ClassKind::Descriptor)),
    ("()V;", Some(ClassKind::Descriptor)),
    (" ()V", Some(ClassKind::Descriptor)),
    ("(F", Some(ClassKind::Descriptor)),
    ("(F)", Some(ClassKind::Descriptor)),
    ("(F)X", Some(ClassKind::Descriptor)),
    ("(F)FF", Some(ClassKind::Descriptor)),
    ("((I)V)V", Some(ClassKind::Descriptor)),
];

// The bytes of a class whose seventh constant is the text, of fewer than 256 bytes of ASCII.
fn class_with(alloc: Global, text: &str, behind: &str) -> Result<Vec<u8>, OutOfMemory> {
    let mut bytes = class_of(alloc, ["0008", "01 00", ""])?;
    bytes.push((text.len() & 0xff) as u8)?;
    bytes.extend_from_slice(text.as_bytes())?;
    push_hex(&mut bytes, behind)?;
    Ok(bytes)
}

// Asserts that of each descriptor just its fault is found, where the member that has it is so many
// bytes behind the constants.
fn try_each(
    rt: &impl Abort,
    alloc: Global,
    cases: &[(&str, Option<ClassKind>)],
    behind: &str,
    member: u8,
) -> Result<(), Fail> {
    for (text, kind) in cases {
        let bytes = class_with(alloc, text, behind)?;
        let at = 41 + (text.len() & 0xff) as u32 + u32::from(member);
        let want = match kind {
            None => None,
            Some(ClassKind::Descriptor) => Some((at + 4, ClassKind::Descriptor)),
            Some(kind) => Some((at, *kind)),
        };
        assert_eq!(rt; first_fault(alloc, bytes.as_slice())?, want, "{text}");
    }
    Ok(())
}

/// Asserts that each descriptor of a field and of a method is read, or has its first fault.
pub fn try_descriptors(rt: &impl Abort, alloc: Global) -> Result<(), Fail> {
    let field = "0021 0002 0002 0000 0001 0002 0003 0007 0000 0000 0000";
    try_each(rt, alloc, &FIELDS, field, 10)?;
    let method = "0021 0002 0002 0000 0000 0001 0401 0003 0007 0000 0000";
    try_each(rt, alloc, &METHODS, method, 12)
}
