//! What is wrong with a class.

use jx_base::{ClassKind, CodeKind};

/// The kind of a defect: of a class file, or of a method's code.
#[derive(Clone, Copy)]
pub enum DefectKind {
    File(ClassKind),
    Code(CodeKind),
}

/// The first thing that is wrong with a class, at an offset in bytes of its file. Of code it is the
/// place of the instruction, or of the start of a range.
#[derive(Clone, Copy)]
pub struct Defect {
    pub at: u64,
    pub kind: DefectKind,
}
