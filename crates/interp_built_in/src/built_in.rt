//! What the built-in methods do, one case a method or a family of them.

/// What a built-in method does.
#[derive(Clone, Copy)]
pub enum BuiltIn {
    /// A constructor that does nothing.
    Construct,
    IsSame,
    SetMessage,
    /// A Throwable's message, a StringBuilder's text.
    FirstCell,
    Length,
    CharAt,
    EqualsText,
    HashCode,
    Concat,
    MakeBuilder,
    Append(Appended),
    OfText(TextAct),
    Export,
    Bind,
    Lookup,
    OfInt(IntAct),
    Pause,
    OfMemory(MemoryAct),
    AtPlace(PlaceAct),
    OverRange(RangeAct),
    Fill,
    Copy,
}

/// What is appended to the text of a StringBuilder.
#[derive(Clone, Copy)]
pub enum Appended {
    Text,
    Number,
    Unit,
    Bool,
}

/// An act of a text of at most 4,096 units.
#[derive(Clone, Copy)]
pub enum TextAct {
    Print,
    Spawn,
}

/// An act of an int.
#[derive(Clone, Copy)]
pub enum IntAct {
    Alloc,
    Kill,
    Exit,
}

/// An act on a memory object.
#[derive(Clone, Copy)]
pub enum MemoryAct {
    Size,
    Revoke,
    Release,
}

/// An act at a place of a memory object. A width is in bytes.
#[derive(Clone, Copy)]
pub enum PlaceAct {
    Get(u8),
    Split,
}

/// An act at a place of a memory object, with an int more. A width is in bytes.
#[derive(Clone, Copy)]
pub enum RangeAct {
    Set(u8),
    Sub,
}
