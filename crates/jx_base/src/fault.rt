//! The faults of class files and of a method's code.

/// What is wrong with a class file.
#[derive(Clone, Copy, Debug, PartialEq, Eq)]
pub enum ClassKind {
    Truncated = 1,
    Magic = 2,
    Version = 3,
    Tag = 4,
    Index = 5,
    Utf8 = 6,
    Descriptor = 7,
    Code = 8,
    Unsupported = 9,
    Trailing = 10,
}

/// The first fault of a class file, and the offset in bytes of the place where it is found.
#[derive(Clone, Copy, Debug, PartialEq, Eq)]
pub struct ClassFault {
    pub at: u32,
    pub kind: ClassKind,
}

/// What is wrong with the code of a method.
#[derive(Clone, Copy, Debug, PartialEq, Eq)]
pub enum CodeKind {
    Opcode = 1,
    Truncated = 2,
    Target = 3,
    LeftOut = 4,
    BadWide = 5,
    BadRange = 6,
}

/// The first fault of a method's code, and the place in bytes of the instruction, or the start of
/// the range, that has it.
#[derive(Clone, Copy, Debug, PartialEq, Eq)]
pub struct CodeFault {
    pub pc: u32,
    pub kind: CodeKind,
}
