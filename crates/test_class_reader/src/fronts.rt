//! The first class, cut off, with a byte more, and with other bytes at its front.

use crate::parts::{bytes_of, first_fault};
use jx_base::{ClassKind, OutOfMemory};
use std::alloc::Global;
use std::test::Fail;
use test_files::HELLO_CLASS;

// Each with the place of the other bytes.
static PATCHES: [(&str, usize, &str, Option<(u32, ClassKind)>); 14] = [
    ("another first byte", 0, "cb", Some((0, ClassKind::Magic))),
    (
        "another last byte of the magic number",
        3,
        "bf",
        Some((0, ClassKind::Magic)),
    ),
    (
        "a magic number with its lowest byte first",
        0,
        "bebafeca",
        Some((0, ClassKind::Magic)),
    ),
    (
        "a magic number is found before the version",
        0,
        "00000000 0000 0035",
        Some((0, ClassKind::Magic)),
    ),
    ("version 0", 6, "0000", Some((6, ClassKind::Version))),
    ("version 44", 6, "002c", Some((6, ClassKind::Version))),
    ("version 45", 6, "002d", None),
    ("version 45.3", 4, "0003 002d", None),
    ("version 51", 6, "0033", None),
    ("version 52.65535", 4, "ffff", None),
    ("version 53", 6, "0035", Some((6, ClassKind::Version))),
    (
        "version 52 in the higher byte",
        6,
        "3400",
        Some((6, ClassKind::Version)),
    ),
    (
        "a version is found before the count",
        6,
        "0035 0000",
        Some((6, ClassKind::Version)),
    ),
    ("no constants", 8, "0000", Some((8, ClassKind::Index))),
];

// The first class with other bytes at a place.
fn patched(alloc: Global, place: usize, hex: &str) -> Result<Vec<u8>, OutOfMemory> {
    let patch = bytes_of(alloc, hex)?;
    let mut bytes = Vec::from_slice(alloc, &HELLO_CLASS)?;
    for (byte, other) in bytes.iter_mut().skip(place).zip(patch.iter()) {
        *byte = *other;
    }
    Ok(bytes)
}

#[test]
fn first_class_has_these_first_faults_when_it_is_changed(rt: HostRuntime) -> Result<(), Fail> {
    let alloc = rt.alloc();
    for (name, place, hex, want) in &PATCHES {
        let bytes = patched(alloc, *place, hex)?;
        assert_eq!(rt; first_fault(alloc, bytes.as_slice())?, *want, "{name}");
    }
    for k in 0..191 {
        let cut = first_fault(alloc, &HELLO_CLASS[..k as usize])?;
        assert_eq!(rt; cut, Some((k, ClassKind::Truncated)), "{k} bytes");
    }
    let mut longer = Vec::from_slice(alloc, &HELLO_CLASS)?;
    longer.push(0)?;
    let fault = first_fault(alloc, longer.as_slice())?;
    assert_eq!(rt; fault, Some((191, ClassKind::Trailing)));
    Ok(())
}
