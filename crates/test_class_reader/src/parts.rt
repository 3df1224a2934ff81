//! Class files from parts, which are written in hexadecimal.

use class_reader::{ReadFault, read_class};
use jx_base::{ClassFault, ClassFile, ClassKind, OutOfMemory};
use std::alloc::Global;
use std::process::Abort;
use std::test::Fail;

/// A name, what stands behind the six constants, and the fault that is found.
pub type Case = (&'static str, &'static str, Option<(u32, ClassKind)>);

/// A name, the constant count, the constants behind the six, what stands behind them, and the fault
/// that is found.
pub type PartsCase = (&'static str, [&'static str; 3], Option<(u32, ClassKind)>);

/// What stands behind the constants of a class of no members: 14 bytes.
pub const NO_MEMBERS: &str = "0021 0002 0002 0000 0000 0000 0000";

// The constants are "A", the Class A, "m", "()V", "Code" and "I", at 10, 14, 17, 21, 27 and 34.
// They end at 38.
const MAGIC_AND_VERSION: &str = "cafebabe 0000 0034";

const CONSTANTS: &str =
    "01 0001 41  07 0001  01 0001 6d  01 0003 282956  01 0004 436f6465  01 0001 49";

fn digit(byte: u8) -> Option<u8> {
    match byte {
        b'0'..=b'9' => Some(byte - b'0'),
        b'a'..=b'f' => Some(byte - b'a' + 10),
        _ => None,
    }
}

/// Puts the bytes that are written in hexadecimal at the end. Spaces mean nothing.
pub fn push_hex(bytes: &mut Vec<u8>, hex: &str) -> Result<(), OutOfMemory> {
    let mut high = None;
    for byte in hex.as_bytes() {
        if let Some(low) = digit(*byte) {
            match high {
                Some(digit) => {
                    bytes.push((digit << 4u8) | low)?;
                    high = None;
                }
                None => high = Some(low),
            }
        }
    }
    Ok(())
}

pub fn bytes_of(alloc: Global, hex: &str) -> Result<Vec<u8>, OutOfMemory> {
    let mut bytes = Vec::new(alloc);
    push_hex(&mut bytes, hex)?;
    Ok(bytes)
}

/// The class file of a constant count, of the six constants and more, and of what stands behind
/// them.
pub fn class_of(alloc: Global, parts: [&str; 3]) -> Result<Vec<u8>, OutOfMemory> {
    let [count, more, behind] = parts;
    let mut bytes = bytes_of(alloc, MAGIC_AND_VERSION)?;
    for part in [count, CONSTANTS, more, behind] {
        push_hex(&mut bytes, part)?;
    }
    Ok(bytes)
}

pub fn read(alloc: Global, bytes: &[u8]) -> Result<ClassFile, ReadFault> {
    if bytes.len() > 100_000_000 {
        return Err(ReadFault::OutOfMemory);
    }
    read_class(alloc, bytes)
}

/// The fault of the bytes, or none where they are read.
pub fn first_fault(alloc: Global, bytes: &[u8]) -> Result<Option<(u32, ClassKind)>, ReadFault> {
    match read(alloc, bytes) {
        Ok(_) => Ok(None),
        Err(ReadFault::Bad(ClassFault { at, kind })) => Ok(Some((at, kind))),
        Err(ReadFault::OutOfMemory) => Err(ReadFault::OutOfMemory),
    }
}

/// Asserts that of the class file of each case's parts just its fault is found.
pub fn try_parts(rt: &impl Abort, alloc: Global, cases: &[PartsCase]) -> Result<(), Fail> {
    for (name, parts, want) in cases {
        let bytes = class_of(alloc, *parts)?;
        assert_eq!(rt; first_fault(alloc, bytes.as_slice())?, *want, "{name}");
    }
    Ok(())
}

/// Asserts the same of each class file of six constants. `front` stands in front of what each case
/// has behind the constants.
pub fn try_each(rt: &impl Abort, alloc: Global, front: &str, cases: &[Case]) -> Result<(), Fail> {
    for (name, behind, want) in cases {
        let mut bytes = class_of(alloc, ["0007", "", front])?;
        push_hex(&mut bytes, behind)?;
        assert_eq!(rt; first_fault(alloc, bytes.as_slice())?, *want, "{name}");
    }
    Ok(())
}
