//! Classes with their interfaces and attributes, fields, and methods apart from their code.

use crate::codes::{CODES, LONG_CODES, ONE_METHOD, long_code};
use crate::constants::CONSTANTS;
use crate::descriptors::try_descriptors;
use crate::parts::{Case, PartsCase, first_fault, try_each, try_parts};
use jx_base::ClassKind;
use std::test::Fail;

static CLASSES: [Case; 17] = [
    (
        "an interface that is a Class",
        "0021 0002 0002 0001 0002 0000 0000 0000",
        None,
    ),
    (
        "this class is 0",
        "0021 0000 0002 0000 0000 0000 0000",
        Some((40, ClassKind::Index)),
    ),
    (
        "this class is a text",
        "0021 0001 0002 0000 0000 0000 0000",
        Some((40, ClassKind::Index)),
    ),
    (
        "this class is the count",
        "0021 0007 0002 0000 0000 0000 0000",
        Some((40, ClassKind::Index)),
    ),
    (
        "super class is 0",
        "0021 0002 0000 0000 0000 0000 0000",
        Some((42, ClassKind::Index)),
    ),
    (
        "super class is a text",
        "0021 0002 0003 0000 0000 0000 0000",
        Some((42, ClassKind::Index)),
    ),
    (
        "the second interface is a text",
        "0021 0002 0002 0002 0002 0001 0000 0000 0000",
        Some((48, ClassKind::Index)),
    ),
    (
        "an attribute that is passed over",
        "0021 0002 0002 0000 0000 0000 0001 0003 00000001 ff",
        None,
    ),
    (
        "an attribute named Code",
        "0021 0002 0002 0000 0000 0000 0001 0005 00000000",
        None,
    ),
    (
        "an attribute's name is a Class",
        "0021 0002 0002 0000 0000 0000 0001 0002 00000000",
        Some((52, ClassKind::Index)),
    ),
    (
        "an attribute's name is found before its length",
        "0021 0002 0002 0000 0000 0000 0001 0002 ffffffff",
        Some((52, ClassKind::Index)),
    ),
    (
        "an attribute longer than the file",
        "0021 0002 0002 0000 0000 0000 0001 0003 00000002 ff",
        Some((59, ClassKind::Truncated)),
    ),
    (
        "an attribute of the most bytes",
        "0021 0002 0002 0000 0000 0000 0001 0003 ffffffff",
        Some((58, ClassKind::Truncated)),
    ),
    (
        "fewer attributes than their number",
        "0021 0002 0002 0000 0000 0000 0002 0003 00000000",
        Some((58, ClassKind::Truncated)),
    ),
    (
        "a byte behind the last attribute",
        "0021 0002 0002 0000 0000 0000 0001 0003 00000001 ff ff",
        Some((59, ClassKind::Trailing)),
    ),
    (
        "a byte behind no attributes",
        "0021 0002 0002 0000 0000 0000 0000 00",
        Some((52, ClassKind::Trailing)),
    ),
    (
        "four bytes behind no attributes",
        "0021 0002 0002 0000 0000 0000 0000 cafebabe",
        Some((52, ClassKind::Trailing)),
    ),
];

static FIELDS: [Case; 9] = [
    (
        "a field",
        "0021 0002 0002 0000 0001 0002 0003 0006 0000 0000 0000",
        None,
    ),
    (
        "a field's Code is passed over",
        "0021 0002 0002 0000 0001 0002 0003 0006 0001 0005 00000001 ff 0000 0000",
        None,
    ),
    (
        "a field's name is a Class",
        "0021 0002 0002 0000 0001 0002 0002 0006 0000 0000 0000",
        Some((50, ClassKind::Index)),
    ),
    (
        "a field's name is 0",
        "0021 0002 0002 0000 0001 0002 0000 0006 0000 0000 0000",
        Some((50, ClassKind::Index)),
    ),
    (
        "a field's descriptor is a Class",
        "0021 0002 0002 0000 0001 0002 0003 0002 0000 0000 0000",
        Some((52, ClassKind::Index)),
    ),
    (
        "a field's descriptor is a method's",
        "0021 0002 0002 0000 0001 0002 0003 0004 0000 0000 0000",
        Some((52, ClassKind::Descriptor)),
    ),
    (
        "a field's descriptor is found before its attributes",
        "0021 0002 0002 0000 0001 0002 0003 0003 0001 0002 ffffffff",
        Some((52, ClassKind::Descriptor)),
    ),
    (
        "a field's attribute is named by a Class",
        "0021 0002 0002 0000 0001 0002 0003 0006 0001 0002 00000000 0000 0000",
        Some((56, ClassKind::Index)),
    ),
    (
        "a field's attribute is longer than the file",
        "0021 0002 0002 0000 0001 0002 0003 0006 0001 0003 00000005 0000 0000",
        Some((66, ClassKind::Truncated)),
    ),
];

static METHODS: [Case; 18] = [
    (
        "a method",
        "0021 0002 0002 0000 0000 0001 0009 0003 0004 0001 0005 0000000d 0001 0001 00000001 b1 0000 0000 0000",
        None,
    ),
    (
        "an abstract method",
        "0021 0002 0002 0000 0000 0001 0401 0003 0004 0000 0000",
        None,
    ),
    (
        "an abstract method with another attribute",
        "0021 0002 0002 0000 0000 0001 0401 0003 0004 0001 0003 00000001 ff 0000",
        None,
    ),
    (
        "an abstract method of an interface",
        "0601 0002 0002 0000 0000 0001 0401 0003 0004 0000 0000",
        None,
    ),
    (
        "a body in an interface",
        "0601 0002 0002 0000 0000 0001 0001 0003 0004 0001 0005 0000000d 0001 0001 00000001 b1 0000 0000 0000",
        Some((50, ClassKind::Unsupported)),
    ),
    (
        "a static body in an interface",
        "0601 0002 0002 0000 0000 0001 0009 0003 0004 0001 0005 0000000d 0001 0001 00000001 b1 0000 0000 0000",
        Some((50, ClassKind::Unsupported)),
    ),
    (
        "no body in an interface",
        "0601 0002 0002 0000 0000 0001 0001 0003 0004 0000 0000",
        Some((50, ClassKind::Unsupported)),
    ),
    (
        "a native method",
        "0021 0002 0002 0000 0000 0001 0101 0003 0004 0000 0000",
        Some((50, ClassKind::Unsupported)),
    ),
    (
        "a native and abstract method",
        "0021 0002 0002 0000 0000 0001 0501 0003 0004 0000 0000",
        Some((50, ClassKind::Unsupported)),
    ),
    (
        "a synchronized method",
        "0021 0002 0002 0000 0000 0001 0021 0003 0004 0001 0005 0000000d 0001 0001 00000001 b1 0000 0000 0000",
        Some((50, ClassKind::Unsupported)),
    ),
    (
        "a native method is found before its attributes",
        "0021 0002 0002 0000 0000 0001 0101 0003 0004 0001 0002 ffffffff",
        Some((50, ClassKind::Unsupported)),
    ),
    (
        "the second method is native",
        "0021 0002 0002 0000 0000 0002 0401 0003 0004 0000 0101 0003 0004 0000 0000",
        Some((58, ClassKind::Unsupported)),
    ),
    (
        "a method's descriptor is found before native",
        "0021 0002 0002 0000 0000 0001 0101 0003 0006 0000 0000",
        Some((54, ClassKind::Descriptor)),
    ),
    (
        "a method's descriptor is a field's",
        "0021 0002 0002 0000 0000 0001 0401 0003 0006 0000 0000",
        Some((54, ClassKind::Descriptor)),
    ),
    (
        "a method's name is a Class",
        "0021 0002 0002 0000 0000 0001 0401 0002 0004 0000 0000",
        Some((52, ClassKind::Index)),
    ),
    (
        "a method's descriptor is a Class",
        "0021 0002 0002 0000 0000 0001 0401 0003 0002 0000 0000",
        Some((54, ClassKind::Index)),
    ),
    (
        "a method's attribute is named by a Class",
        "0021 0002 0002 0000 0000 0001 0401 0003 0004 0001 0002 ffffffff",
        Some((58, ClassKind::Index)),
    ),
    (
        "a method's attribute is longer than the file",
        "0021 0002 0002 0000 0000 0001 0401 0003 0004 0001 0003 00000003 0000",
        Some((66, ClassKind::Truncated)),
    ),
];

// Each with its constant count, the constants behind the six, and what stands behind them.
static WITH_MORE: [PartsCase; 6] = [
    (
        "a Long at the last index is cut off first",
        ["0008", "05 00000000000000", ""],
        Some((46, ClassKind::Truncated)),
    ),
    (
        "a field's name is behind a Long",
        [
            "0009",
            "05 0000000000000001",
            "0021 0002 0002 0000 0001 0002 0008 0006 0000 0000 0000",
        ],
        Some((59, ClassKind::Index)),
    ),
    (
        "a float is found before the attributes",
        [
            "0008",
            "01 0001 46",
            "0021 0002 0002 0000 0001 0002 0003 0007 0001 0002 ffffffff",
        ],
        Some((52, ClassKind::Unsupported)),
    ),
    (
        "the second field is a double",
        [
            "0008",
            "01 0001 44",
            "0021 0002 0002 0000 0002 0002 0003 0006 0000 0002 0003 0007 0000 0000 0000",
        ],
        Some((60, ClassKind::Unsupported)),
    ),
    (
        "the initialiser of an interface",
        [
            "0008",
            "01 0008 3c636c696e69743e",
            "0601 0002 0002 0000 0000 0001 0008 0007 0004 0001 0005 0000000d 0001 0001 00000001 b1 0000 0000 0000",
        ],
        None,
    ),
    (
        "a native initialiser of an interface",
        [
            "0008",
            "01 0008 3c636c696e69743e",
            "0601 0002 0002 0000 0000 0001 0108 0007 0004 0000 0000",
        ],
        Some((61, ClassKind::Unsupported)),
    ),
];

#[test]
fn class_files_are_read_or_have_these_first_faults(rt: HostRuntime) -> Result<(), Fail> {
    let alloc = rt.alloc();
    try_parts(&rt, alloc, &CONSTANTS)?;
    try_parts(&rt, alloc, &WITH_MORE)?;
    try_each(&rt, alloc, "", &CLASSES)?;
    try_each(&rt, alloc, "", &FIELDS)?;
    try_each(&rt, alloc, "", &METHODS)?;
    try_each(&rt, alloc, ONE_METHOD, &CODES)?;
    for (attribute, length, n, want) in &LONG_CODES {
        let bytes = long_code(alloc, attribute, length, *n)?;
        assert_eq!(rt; first_fault(alloc, bytes.as_slice())?, *want, "{n} bytes");
    }
    try_descriptors(&rt, alloc)
}
