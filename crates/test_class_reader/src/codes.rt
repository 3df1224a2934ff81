//! The Code of a method.

use crate::parts::{Case, class_of, push_hex};
use jx_base::{ClassKind, OutOfMemory};
use std::alloc::Global;

/// What stands between the constants and the one method, which is at 50.
pub const ONE_METHOD: &str = "0021 0002 0002 0000 0000 0001";

/// The one method, and what stands behind it.
pub static CODES: [Case; 26] = [
    (
        "a Code behind another attribute",
        "0009 0003 0004 0002 0003 00000001 ff 0005 0000000d 0001 0001 00000001 b1 0000 0000 0000",
        None,
    ),
    (
        "no Code",
        "0009 0003 0004 0000 0000",
        Some((50, ClassKind::Code)),
    ),
    (
        "another attribute alone",
        "0009 0003 0004 0001 0003 00000001 ff 0000",
        Some((50, ClassKind::Code)),
    ),
    (
        "a Code on an abstract method",
        "0401 0003 0004 0001 0005 0000000d 0001 0001 00000001 b1 0000 0000 0000",
        Some((58, ClassKind::Code)),
    ),
    (
        "an empty Code on an abstract method",
        "0401 0003 0004 0001 0005 00000000 0000",
        Some((58, ClassKind::Code)),
    ),
    (
        "a long Code on an abstract method is cut off first",
        "0401 0003 0004 0001 0005 00000003 0000",
        Some((66, ClassKind::Truncated)),
    ),
    (
        "two Codes",
        "0009 0003 0004 0002 0005 0000000d 0001 0001 00000001 b1 0000 0000 0005 0000000d 0001 0001 00000001 b1 0000 0000 0000",
        Some((77, ClassKind::Code)),
    ),
    (
        "a second Code that is empty",
        "0009 0003 0004 0002 0005 0000000d 0001 0001 00000001 b1 0000 0000 0005 00000000 0000",
        Some((77, ClassKind::Code)),
    ),
    (
        "a Code longer than the file",
        "0009 0003 0004 0001 0005 00000010 0001 0001 00000001 b1 0000 0000 0000",
        Some((79, ClassKind::Truncated)),
    ),
    (
        "an empty Code",
        "0009 0003 0004 0001 0005 00000000 0000",
        Some((58, ClassKind::Code)),
    ),
    (
        "a Code of code length 0",
        "0009 0003 0004 0001 0005 0000000c 0001 0001 00000000 0000 0000 0000",
        Some((58, ClassKind::Code)),
    ),
    (
        "a Code of the most code length",
        "0009 0003 0004 0001 0005 0000000d 0001 0001 ffffffff b1 0000 0000 0000",
        Some((58, ClassKind::Code)),
    ),
    (
        "a Code that ends within its last number",
        "0009 0003 0004 0001 0005 0000000c 0001 0001 00000001 b1 0000 0000 0000",
        Some((58, ClassKind::Code)),
    ),
    (
        "a Code that ends within the code",
        "0009 0003 0004 0001 0005 0000000d 0001 0001 00000006 b1 0000 0000 0000",
        Some((58, ClassKind::Code)),
    ),
    (
        "a Code that ends within the table",
        "0009 0003 0004 0001 0005 0000000d 0001 0001 00000001 b1 0001 0000 0000",
        Some((58, ClassKind::Code)),
    ),
    (
        "a Code with a byte left over",
        "0009 0003 0004 0001 0005 0000000e 0001 0001 00000001 b1 0000 0000 00 0000",
        Some((58, ClassKind::Code)),
    ),
    (
        "an attribute within",
        "0009 0003 0004 0001 0005 00000014 0001 0001 00000001 b1 0000 0001 0003 00000001 ff 0000",
        None,
    ),
    (
        "a Code within a Code is passed over",
        "0009 0003 0004 0001 0005 00000013 0001 0001 00000001 b1 0000 0001 0005 00000000 0000",
        None,
    ),
    (
        "an attribute that leaves the Code and not the file",
        "0009 0003 0004 0001 0005 00000013 0001 0001 00000001 b1 0000 0001 0003 00000001 0000",
        Some((58, ClassKind::Code)),
    ),
    (
        "an attribute within is named by a Class",
        "0009 0003 0004 0001 0005 00000013 0001 0001 00000001 b1 0000 0001 0002 00000000 0000",
        Some((77, ClassKind::Index)),
    ),
    (
        "an attribute within is named wrongly before it is cut short",
        "0009 0003 0004 0001 0005 0000000f 0001 0001 00000001 b1 0000 0001 0002 0000",
        Some((77, ClassKind::Index)),
    ),
    (
        "catch type 0",
        "0009 0003 0004 0001 0005 00000015 0001 0001 00000001 b1 0001 0000 0001 0000 0000 0000 0000",
        None,
    ),
    (
        "a catch type that is a Class",
        "0009 0003 0004 0001 0005 00000015 0001 0001 00000001 b1 0001 0000 0001 0000 0002 0000 0000",
        None,
    ),
    (
        "a catch type that is a text",
        "0009 0003 0004 0001 0005 00000015 0001 0001 00000001 b1 0001 0000 0001 0000 0001 0000 0000",
        Some((81, ClassKind::Index)),
    ),
    (
        "a catch type that is the count",
        "0009 0003 0004 0001 0005 00000015 0001 0001 00000001 b1 0001 0000 0001 0000 0007 0000 0000",
        Some((81, ClassKind::Index)),
    ),
    (
        "a range that makes no sense",
        "0009 0003 0004 0001 0005 00000015 0001 0001 00000001 b1 0001 ffff 0000 ffff 0000 0000 0000",
        None,
    ),
];

/// Lengths of a Code and of its code, in hexadecimal, how many bytes the code has, and the fault
/// that is found.
pub static LONG_CODES: [(&str, &str, u32, Option<(u32, ClassKind)>); 2] = [
    ("0001000b", "0000ffff", 65535, None),
    ("0001000c", "00010000", 65536, Some((58, ClassKind::Code))),
];

/// A class with a method of so many bytes of code, whose attribute's length and code length are
/// written in hexadecimal.
pub fn long_code(
    alloc: Global,
    attribute: &str,
    length: &str,
    n: u32,
) -> Result<Vec<u8>, OutOfMemory> {
    let front = "0021 0002 0002 0000 0000 0001 0009 0003 0004 0001 0005";
    let mut bytes = class_of(alloc, ["0007", "", front])?;
    push_hex(&mut bytes, attribute)?;
    push_hex(&mut bytes, "0001 0001")?;
    push_hex(&mut bytes, length)?;
    for _ in 0..n {
        bytes.push(0xb1)?;
    }
    push_hex(&mut bytes, "0000 0000 0000")?;
    Ok(bytes)
}
