//! Constants: their tags, what they name, and their texts.

use crate::parts::{NO_MEMBERS, PartsCase};
use jx_base::ClassKind;

/// Classes of no members, with these constants.
pub static CONSTANTS: [PartsCase; 56] = [
    // constants that are read
    ("six constants", ["0007", "", NO_MEMBERS], None),
    ("an Integer", ["0008", "03 ffffffff", NO_MEMBERS], None),
    ("a Float", ["0008", "04 3f800000", NO_MEMBERS], None),
    ("a Long", ["0009", "05 0000000000000001", NO_MEMBERS], None),
    (
        "a Double",
        ["0009", "06 3ff0000000000000", NO_MEMBERS],
        None,
    ),
    (
        "a Class whose name comes later",
        ["0009", "07 0008  01 0001 42", NO_MEMBERS],
        None,
    ),
    (
        "a String whose text comes later",
        ["0009", "08 0008  01 0001 42", NO_MEMBERS],
        None,
    ),
    (
        "a Fieldref whose member comes later",
        ["0009", "09 0002 0008  0c 0003 0006", NO_MEMBERS],
        None,
    ),
    (
        "a Methodref",
        ["0009", "0a 0002 0008  0c 0003 0004", NO_MEMBERS],
        None,
    ),
    (
        "an InterfaceMethodref",
        ["0009", "0b 0002 0008  0c 0003 0004", NO_MEMBERS],
        None,
    ),
    ("a NameAndType", ["0008", "0c 0003 0006", NO_MEMBERS], None),
    (
        "a MethodHandle that names nothing",
        ["0008", "0f 09 ffff", NO_MEMBERS],
        None,
    ),
    (
        "a MethodType that names nothing",
        ["0008", "10 ffff", NO_MEMBERS],
        None,
    ),
    (
        "an InvokeDynamic that names nothing",
        ["0008", "12 ffff ffff", NO_MEMBERS],
        None,
    ),
    (
        "a Class and its name behind a Long",
        [
            "000b",
            "05 0000000000000001  07 000a  01 0001 42",
            NO_MEMBERS,
        ],
        None,
    ),
    ("an empty text", ["0008", "01 0000", NO_MEMBERS], None),
    (
        "the unit 0 in two bytes",
        ["0008", "01 0002 c080", NO_MEMBERS],
        None,
    ),
    (
        "a surrogate alone",
        ["0008", "01 0003 eda080", NO_MEMBERS],
        None,
    ),
    // tags
    (
        "tag 0",
        ["0008", "00", NO_MEMBERS],
        Some((38, ClassKind::Tag)),
    ),
    (
        "tag 2",
        ["0008", "02", NO_MEMBERS],
        Some((38, ClassKind::Tag)),
    ),
    (
        "tag 13",
        ["0008", "0d", NO_MEMBERS],
        Some((38, ClassKind::Tag)),
    ),
    (
        "tag 14",
        ["0008", "0e", NO_MEMBERS],
        Some((38, ClassKind::Tag)),
    ),
    (
        "tag 17",
        ["0008", "11", NO_MEMBERS],
        Some((38, ClassKind::Tag)),
    ),
    (
        "tag 19",
        ["0008", "13", NO_MEMBERS],
        Some((38, ClassKind::Tag)),
    ),
    (
        "tag 20",
        ["0008", "14", NO_MEMBERS],
        Some((38, ClassKind::Tag)),
    ),
    (
        "tag 255",
        ["0008", "ff", NO_MEMBERS],
        Some((38, ClassKind::Tag)),
    ),
    (
        "tag 2 of the second one",
        ["0009", "03 00000000  02", NO_MEMBERS],
        Some((43, ClassKind::Tag)),
    ),
    (
        "tag 2 behind a Class that names wrongly",
        ["0009", "07 0002  02", NO_MEMBERS],
        Some((41, ClassKind::Tag)),
    ),
    (
        "a text longer than the file",
        ["0008", "01 ffff", NO_MEMBERS],
        Some((55, ClassKind::Truncated)),
    ),
    // texts
    (
        "a byte 0",
        ["0008", "01 0001 00", NO_MEMBERS],
        Some((38, ClassKind::Utf8)),
    ),
    (
        "a byte 0 within",
        ["0008", "01 0003 410042", NO_MEMBERS],
        Some((38, ClassKind::Utf8)),
    ),
    (
        "a continuation alone",
        ["0008", "01 0001 80", NO_MEMBERS],
        Some((38, ClassKind::Utf8)),
    ),
    (
        "a unit of two bytes that is cut off",
        ["0008", "01 0001 c2", NO_MEMBERS],
        Some((38, ClassKind::Utf8)),
    ),
    (
        "a unit of three bytes that is cut off",
        ["0008", "01 0002 e0a0", NO_MEMBERS],
        Some((38, ClassKind::Utf8)),
    ),
    (
        "1 in two bytes",
        ["0008", "01 0002 c081", NO_MEMBERS],
        Some((38, ClassKind::Utf8)),
    ),
    (
        "0x7f in two bytes",
        ["0008", "01 0002 c1bf", NO_MEMBERS],
        Some((38, ClassKind::Utf8)),
    ),
    (
        "0x7ff in three bytes",
        ["0008", "01 0003 e09fbf", NO_MEMBERS],
        Some((38, ClassKind::Utf8)),
    ),
    (
        "four bytes",
        ["0008", "01 0004 f0908080", NO_MEMBERS],
        Some((38, ClassKind::Utf8)),
    ),
    (
        "the second text",
        ["0009", "01 0001 42  01 0001 ff", NO_MEMBERS],
        Some((42, ClassKind::Utf8)),
    ),
    (
        "a text before a tag",
        ["0009", "01 0001 00  02", NO_MEMBERS],
        Some((38, ClassKind::Utf8)),
    ),
    // indices
    (
        "count 0",
        ["0000", "", NO_MEMBERS],
        Some((8, ClassKind::Index)),
    ),
    (
        "count 1",
        ["0001", "", NO_MEMBERS],
        Some((12, ClassKind::Index)),
    ),
    (
        "a Long at the last index",
        ["0008", "05 0000000000000001", NO_MEMBERS],
        Some((38, ClassKind::Index)),
    ),
    (
        "a Double at the last index",
        ["0008", "06 3ff0000000000000", NO_MEMBERS],
        Some((38, ClassKind::Index)),
    ),
    (
        "a Class that names a Class",
        ["0008", "07 0002", NO_MEMBERS],
        Some((38, ClassKind::Index)),
    ),
    (
        "a Class that names index 0",
        ["0008", "07 0000", NO_MEMBERS],
        Some((38, ClassKind::Index)),
    ),
    (
        "a Class that names the count",
        ["0008", "07 0008", NO_MEMBERS],
        Some((38, ClassKind::Index)),
    ),
    (
        "a Class that names what is behind a Long",
        ["000a", "05 0000000000000001  07 0008", NO_MEMBERS],
        Some((47, ClassKind::Index)),
    ),
    (
        "a String that names behind a Double",
        ["000a", "06 3ff0000000000000  08 0008", NO_MEMBERS],
        Some((47, ClassKind::Index)),
    ),
    (
        "a String that names a Class",
        ["0008", "08 0002", NO_MEMBERS],
        Some((38, ClassKind::Index)),
    ),
    (
        "a Fieldref with its indices in the wrong order",
        ["0009", "09 0008 0002  0c 0003 0006", NO_MEMBERS],
        Some((38, ClassKind::Index)),
    ),
    (
        "a Methodref that names no NameAndType",
        ["0008", "0a 0002 0003", NO_MEMBERS],
        Some((38, ClassKind::Index)),
    ),
    (
        "an InterfaceMethodref of a text",
        ["0009", "0b 0001 0008  0c 0003 0004", NO_MEMBERS],
        Some((38, ClassKind::Index)),
    ),
    (
        "a NameAndType whose name is a Class",
        ["0008", "0c 0002 0006", NO_MEMBERS],
        Some((38, ClassKind::Index)),
    ),
    (
        "a NameAndType whose descriptor is a Class",
        ["0008", "0c 0003 0002", NO_MEMBERS],
        Some((38, ClassKind::Index)),
    ),
    (
        "the first of two that name wrongly",
        ["000a", "03 00000000  07 0002  08 0002", NO_MEMBERS],
        Some((43, ClassKind::Index)),
    ),
];
