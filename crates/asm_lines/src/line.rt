//! Lines of an assembler text, by what they mean.

use asm_constants::Content;
use jx_base::{Listed, Text};

/// Why a text isn't assembled. Where a line has two faults, the one that comes first here is told.
#[derive(Clone, Copy)]
pub enum AsmKind {
    /// A line that isn't UTF-8, or an unknown first word.
    Word,
    /// An operand that is missing, extra, malformed or out of range.
    Operand,
    /// A label that isn't there, or is too far.
    Label,
    /// A label that stands twice in a body.
    Twice,
    /// A line out of order, or the end of a text that wants another line.
    Place,
    /// More than a class file can have, or an empty body.
    Limit,
}

/// A part of an instruction behind its opcode: a number of one, two or four bytes, the index of a
/// constant in one or two, the distance to a label in two or four, or the bytes up to the next pc
/// that is a multiple of 4.
#[derive(Drop)]
pub enum Operand {
    Byte(u8),
    Short(u16),
    Int(i32),
    ByteIndex(Content),
    Index(Content),
    Target(Text),
    FarTarget(Text),
    Padding,
}

/// An instruction. Behind wide, `opcode` is the widened one.
#[derive(Drop)]
pub struct Instruction {
    pub opcode: u8,
    pub wide: bool,
    pub operands: Listed<Operand>,
}

/// A field or a method.
#[derive(Drop)]
pub struct Member {
    pub flags: u16,
    pub name: Text,
    pub descriptor: Text,
}

/// An entry of an exception table, between labels. Without a class it catches all.
#[derive(Drop)]
pub struct Catch {
    pub start: Text,
    pub end: Text,
    pub handler: Text,
    pub class: Option<Text>,
}

/// What a line means. A faulty line has a fault of its own, whatever stands around it; `ends` says
/// whether it is UTF-8 whose first word is `end`.
#[derive(Drop)]
pub enum Line {
    Skipped,
    Class {
        flags: u16,
        name: Text,
        super_class: Text,
    },
    Implements(Text),
    Field(Member),
    Abstract(Member),
    /// With its greatest stack and its locals, in slots.
    Method(Member, u16, u16),
    Label(Text),
    Instruction(Instruction),
    Catch(Catch),
    End,
    Faulty {
        kind: AsmKind,
        ends: bool,
    },
}
