//! What a class file holds (JVMS 4), and its instructions (JVMS 6).
ghost use Rattle.std.specs.Prelude.{◌≡◌, IfOk};

use crate::OutOfMemory;
use crate::listed::{Listed, Numbers, Text};
use std::alloc::Global;

/// An instruction. The operands are those of its form, in order, without padding, and each branch
/// target as its pc. Of a wide instruction, `pc` is that of the wide byte and `opcode` the widened
/// one.
#[derive(Drop)]
pub struct Instr {
    pub pc: u32,
    pub opcode: u8,
    pub wide: bool,
    pub operands: Numbers,
}

/// An entry of an exception table (JVMS 4.7.3), in bytes of the code. `catch_type` 0 catches all.
#[derive(Clone, Copy)]
pub struct Range {
    pub start: u32,
    pub end: u32,
    pub handler: u32,
    pub catch_type: u32,
}

/// The body of a method (JVMS 4.7.3). Stack and locals are in slots of 32 bits; `at` is the place
/// of the code's first byte in the file.
#[derive(Drop)]
pub struct Code {
    pub max_stack: u32,
    pub max_locals: u32,
    pub at: u32,
    pub code: Listed<u8>,
    pub table: Listed<Range>,
}

impl Code {
    /// The same code once more.
    pub fn copy(&self, alloc: Global) -> Result<Code, OutOfMemory>
        ensures { IfOk result (λ code. code ≡ self.now) }
    {
        Ok(Code {
            max_stack: self.max_stack,
            max_locals: self.max_locals,
            at: self.at,
            code: self.code.copy(alloc)?,
            table: self.table.copy(alloc)?,
        })
    }
}

/// A field or a method (JVMS 4.5, 4.6).
#[derive(Drop)]
pub struct Member {
    pub flags: u16,
    pub name: Text,
    pub descriptor: Text,
    pub code: Option<Code>,
}

/// A constant (JVMS 4.4). `Unusable` stands at index 0 and at the second index of a Long or Double;
/// `Skipped` has the tag of a Float, Double, MethodHandle, MethodType or InvokeDynamic.
#[derive(Drop)]
pub enum Constant {
    Unusable,
    Utf8(Text),
    Integer(i32),
    Long(i64),
    Class(u16),
    Str(u16),
    Field(u16, u16),
    Method(u16, u16),
    InterfaceMethod(u16, u16),
    NameAndType(u16, u16),
    Skipped(u8),
}

/// A class file (JVMS 4.1), without the attributes that aren't a method's Code.
#[derive(Drop)]
pub struct ClassFile {
    pub minor: u16,
    pub major: u16,
    pub constants: Listed<Constant>,
    pub flags: u16,
    pub this_class: u16,
    pub super_class: u16,
    pub interfaces: Listed<u16>,
    pub fields: Listed<Member>,
    pub methods: Listed<Member>,
}
