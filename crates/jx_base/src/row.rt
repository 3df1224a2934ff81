//! What instructions do (JVMS 6), and how their operands lie in the code.

use crate::value::Value;

/// What a load, a store or a return moves.
#[derive(Clone, Copy)]
pub enum Kind {
    Int,
    Long,
    Reference,
}

/// The local of a load or a store: the one that the operand names, or a fixed one.
#[derive(Clone, Copy)]
pub enum Local {
    Named,
    Fixed(u32),
}

/// Slots of a stack. A long fills two of them, each other value one.
#[derive(Clone, Copy)]
pub enum Slots {
    Zero,
    One,
    Two,
}

/// An operator on two numbers that wraps.
#[derive(Clone, Copy)]
pub enum Operator {
    Add,
    Subtract,
    Multiply,
    And,
    Or,
    Xor,
}

/// What is asked of a division.
#[derive(Clone, Copy)]
pub enum Division {
    Quotient,
    Remainder,
}

/// A shift of a number's bits.
#[derive(Clone, Copy)]
pub enum Shift {
    Left,
    Right,
    UnsignedRight,
}

/// A conversion of a number.
#[derive(Clone, Copy)]
pub enum Conversion {
    IntToLong,
    LongToInt,
    IntToByte,
    IntToChar,
    IntToShort,
}

/// A comparison of two ints.
#[derive(Clone, Copy)]
pub enum Comparison {
    Equal,
    NotEqual,
    Less,
    AtLeast,
    Greater,
    AtMost,
}

/// The elements of an array. `Byte` stands for bytes and booleans.
#[derive(Clone, Copy)]
pub enum Element {
    Int,
    Long,
    Reference,
    Byte,
    Char,
    Short,
}

/// How a method is found that an instruction invokes.
#[derive(Clone, Copy)]
pub enum Invocation {
    Virtual,
    Special,
    Static,
    Interface,
}

/// A row of the instruction table. `Copy` has the slots that are copied and those above which the
/// copy comes to lie; `IfSame` and `IfNull` branch where the test gives their bool. `Missing`
/// stands for wide and for each opcode that is left out or unassigned.
#[derive(Clone, Copy)]
pub enum Row {
    Nop,
    Push(Value),
    PushOperand,
    PushConstant,
    PushLong,
    Load(Kind, Local),
    Store(Kind, Local),
    LoadElement(Element),
    StoreElement(Element),
    Discard(Slots),
    Copy(Slots, Slots),
    Swap,
    IntOperate(Operator),
    LongOperate(Operator),
    IntDivide(Division),
    LongDivide(Division),
    IntNegate,
    LongNegate,
    IntShift(Shift),
    LongShift(Shift),
    Increment,
    Convert(Conversion),
    CompareLongs,
    IfZero(Comparison),
    IfInts(Comparison),
    IfSame(bool),
    IfNull(bool),
    Goto,
    TableSwitch,
    LookupSwitch,
    Return(Kind),
    ReturnVoid,
    GetStatic,
    PutStatic,
    GetField,
    PutField,
    Invoke(Invocation),
    New,
    NewArray,
    NewReferenceArray,
    NewMultiArray,
    ArrayLength,
    Throw,
    CheckCast,
    InstanceOf,
    Missing,
}

/// How the operands lie behind an opcode. `Index` is two unsigned bytes, `ArrayType` the byte of
/// newarray, `Dimensions` an index and a byte. `WideIncrement` stands behind wide alone, `Wide` is
/// wide itself.
#[derive(Clone, Copy)]
pub enum Form {
    Plain,
    SignedByte,
    SignedShort,
    Byte,
    Index,
    Interface,
    ArrayType,
    Dimensions,
    Increment,
    WideIncrement,
    Branch,
    FarBranch,
    TableSwitch,
    LookupSwitch,
    Wide,
    LeftOut,
    Unassigned,
}
