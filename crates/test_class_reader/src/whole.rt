//! What the class file of the bytes is.

use crate::parts::{NO_MEMBERS, class_of, read};
use jx_base::{ClassFile, Code, Constant, Member, text_of};
use std::alloc::Global;
use std::process::Abort;
use std::test::Fail;
use test_files::{HELLO_CLASS, JAVAC_CLASS};

// Asserts the numbers of a class file: the minor and major version, the constant count, the flags,
// this and the super class, and how many interfaces, fields and methods there are.
fn try_numbers(rt: &impl Abort, file: &ClassFile, want: [usize; 9]) {
    let counts = [
        file.minor as usize,
        file.major as usize,
        file.constants.as_slice().len(),
        file.flags as usize,
        file.this_class as usize,
        file.super_class as usize,
        file.interfaces.as_slice().len(),
        file.fields.as_slice().len(),
        file.methods.as_slice().len(),
    ];
    assert_eq!(rt; counts, want);
}

fn try_code(rt: &impl Abort, code: &Code, sizes: [u32; 3], bytes: &[u8]) {
    assert_eq!(rt; [code.max_stack, code.max_locals, code.at], sizes);
    assert_eq!(rt; code.code.as_slice(), bytes);
    assert!(rt; code.table.as_slice().is_empty());
}

// Asserts a method with code: its flags, name and descriptor, and max_stack, max_locals, the place
// and the bytes of its code.
fn try_method(
    rt: &impl Abort,
    alloc: Global,
    method: Option<&Member>,
    named: (u16, &str, &str),
    sizes: [u32; 3],
    bytes: &[u8],
) -> Result<(), Fail> {
    let (flags, name, descriptor) = named;
    let Some(
        Member {
            code: Some(code),
            ..
        },
    ) = method
    else {
        panic!(rt; "{name} has code");
    };
    let method = method.expect(rt, "a method");
    assert_eq!(rt; method.flags, flags, "{name}");
    assert_eq!(rt; method.name.as_slice(), text_of(alloc, name)?.as_slice());
    assert_eq!(rt;
        method.descriptor.as_slice(),
        text_of(alloc, descriptor)?.as_slice()
    );
    try_code(rt, code, sizes, bytes);
    Ok(())
}

fn try_first_class(rt: &impl Abort, alloc: Global) -> Result<(), Fail> {
    let file = read(alloc, &HELLO_CLASS)?;
    try_numbers(rt, &file, [0, 52, 16, 33, 2, 4, 0, 0, 1]);
    let named = (9, "main", "([Ljava/lang/String;)V");
    let code = [18, 9, 184, 0, 15, 177];
    try_method(
        rt,
        alloc,
        file.methods.as_slice().first(),
        named,
        [1, 1, 179],
        &code,
    )
}

fn try_javac_class(rt: &impl Abort, alloc: Global) -> Result<(), Fail> {
    let file = read(alloc, &JAVAC_CLASS)?;
    try_numbers(rt, &file, [0, 52, 23, 33, 15, 2, 0, 0, 2]);
    let methods = file.methods.as_slice();
    let constructor = [42, 183, 0, 1, 177];
    try_method(
        rt,
        alloc,
        methods.first(),
        (1, "<init>", "()V"),
        [1, 1, 248],
        &constructor,
    )?;
    let named = (9, "main", "([Ljava/lang/String;)V");
    let code = [18, 7, 184, 0, 9, 177];
    try_method(rt, alloc, methods.get(1), named, [1, 1, 291], &code)
}

// A constant by its tag, or 0, and its numbers, or the length of its text.
fn spelled(constant: &Constant) -> (u8, i64, u16) {
    match constant {
        Constant::Unusable => (0, 0, 0),
        Constant::Utf8(text) => (1, text.as_slice().len() as i64, 0),
        Constant::Integer(n) => (3, i64::from(*n), 0),
        Constant::Long(n) => (5, *n, 0),
        Constant::Class(name) => (7, i64::from(*name), 0),
        Constant::Str(text) => (8, i64::from(*text), 0),
        Constant::Field(class, member) => (9, i64::from(*class), *member),
        Constant::Method(class, member) => (10, i64::from(*class), *member),
        Constant::InterfaceMethod(class, member) => (11, i64::from(*class), *member),
        Constant::NameAndType(name, descriptor) => (12, i64::from(*name), *descriptor),
        Constant::Skipped(tag) => (*tag, 0, 0),
    }
}

// The constants from index 7 on.
const MORE: &str =
    "03 80000000  05 8000000000000000  06 3ff0000000000000  04 3f800000  0f 01 0001  10 0001  12 0000 0001  \
    08 0003  0c 0003 0006  09 0002 0011  0a 0002 0011  0b 0002 0011  01 0002 c080";

static CONSTANTS: [(u8, i64, u16); 22] = [
    (0, 0, 0),
    (1, 1, 0),
    (7, 1, 0),
    (1, 1, 0),
    (1, 3, 0),
    (1, 4, 0),
    (1, 1, 0),
    (3, -2_147_483_648, 0),
    (5, -9_223_372_036_854_775_808, 0),
    (0, 0, 0),
    (6, 0, 0),
    (0, 0, 0),
    (4, 0, 0),
    (15, 0, 0),
    (16, 0, 0),
    (18, 0, 0),
    (8, 3, 0),
    (12, 3, 6),
    (9, 2, 17),
    (10, 2, 17),
    (11, 2, 17),
    (1, 1, 0),
];

#[test]
fn class_files_have_their_members_codes_and_constants(rt: HostRuntime) -> Result<(), Fail> {
    let alloc = rt.alloc();
    try_first_class(&rt, alloc)?;
    try_javac_class(&rt, alloc)?;
    let bytes = class_of(alloc, ["0016", MORE, NO_MEMBERS])?;
    let file = read(alloc, bytes.as_slice())?;
    let constants = file.constants.as_slice();
    assert_eq!(rt; constants.len(), 22);
    for (index, (constant, want)) in constants.iter().zip(&CONSTANTS).enumerate() {
        assert_eq!(rt; spelled(constant), *want, "at {index}");
    }
    Ok(())
}
