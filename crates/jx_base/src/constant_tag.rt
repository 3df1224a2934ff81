//! The tags of constants (JVMS 4.4, table 4.4-A).

/// What a constant's tag says that it is.
#[derive(Clone, Copy)]
pub enum ConstantTag {
    Utf8,
    Integer,
    Float,
    Long,
    Double,
    Class,
    Str,
    Field,
    Method,
    InterfaceMethod,
    NameAndType,
    MethodHandle,
    MethodType,
    InvokeDynamic,
}
