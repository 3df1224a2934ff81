//! Texts at the limits of class files.

use crate::answers::{Told, push, push_times, told, with_body};
use jx_base::OutOfMemory;
use std::alloc::Global;
use std::test::Fail;

const OPERAND: u8 = 2;

const LABEL: u8 = 3;

const LIMIT: u8 = 6;

// A front, a line so many times, what stands behind, and the fault.
type Row = (&'static [u8], &'static [u8], u32, &'static [u8], Told);

// Bodies of a method that begins at line 2. Where a line is one too many, those before it are not.
static BODIES: [Row; 6] = [
    (b"", b"nop\n", 65_536, b"", Some((65_538, LIMIT))),
    (b"goto x\n", b"nop\n", 32_764, b"x:\nnop\n", None),
    (
        b"goto x\n",
        b"nop\n",
        32_765,
        b"x:\nnop\n",
        Some((3, LABEL)),
    ),
    (
        b"x:\n",
        b"nop\n",
        32_769,
        b"goto x\n",
        Some((32_773, LABEL)),
    ),
    (
        b"goto x\n",
        b"nop\n",
        32_765,
        b"fadd\nx:\n",
        Some((32_769, 1)),
    ),
    (
        b"x:\nnop\n",
        b"catch x x x any\n",
        65_536,
        b"",
        Some((65_540, LIMIT)),
    ),
];

fn text_of(alloc: Global, row: &Row) -> Result<Vec<u8>, OutOfMemory> {
    let (front, line, times, behind, _) = row;
    let mut text = Vec::new(alloc);
    push(&mut text, front)?;
    push_times(&mut text, line, *times)?;
    push(&mut text, behind)?;
    Ok(text)
}

#[test]
fn bodies_reach_their_limits(rt: HostRuntime) -> Result<(), Fail> {
    let alloc = rt.alloc();
    for (i, row) in BODIES.iter().enumerate() {
        let body = text_of(alloc, row)?;
        let text = with_body(alloc, body.as_slice())?;
        assert_eq!(rt; told(alloc, text.as_slice()), row.4, "body {i}");
    }
    Ok(())
}

// Whole texts, whose class stands at line 1.
static TEXTS: [Row; 5] = [
    (
        b"class 0x0021 T U\n",
        b"implements I\n",
        65_536,
        b"",
        Some((65_537, LIMIT)),
    ),
    (
        b"class 0x0021 T U\n",
        b"field 0x0000 f I\n",
        65_536,
        b"",
        Some((65_537, LIMIT)),
    ),
    (
        b"class 0x0021 T U\n",
        b"abstract 0x0400 m ()V\n",
        65_536,
        b"",
        Some((65_537, LIMIT)),
    ),
    (b"class 0x0021 ", b"x", 65_535, b" U\n", None),
    (b"class 0x0021 ", b"x", 65_536, b" U\n", Some((1, LIMIT))),
];

#[test]
fn texts_reach_their_limits(rt: HostRuntime) -> Result<(), Fail> {
    let alloc = rt.alloc();
    for (i, row) in TEXTS.iter().enumerate() {
        let text = text_of(alloc, row)?;
        assert_eq!(rt; told(alloc, text.as_slice()), row.4, "text {i}");
    }
    Ok(())
}

// A class whose methods have so many instructions with ints that are all different, at most 20,000
// a method.
fn with_ints(alloc: Global, mnemonic: &str, count: u32) -> Result<Vec<u8>, OutOfMemory> {
    let mut text = Vec::new(alloc);
    push(&mut text, b"class 0x0021 T java/lang/Object\n")?;
    for n in 0..count {
        if n % 20_000 == 0 {
            push(&mut text, if n == 0 { b"" } else { b"end\n" })?;
            push(&mut text, b"method 0x0009 m ()V 9 9\n")?;
        }
        let line = format!(in alloc; "{mnemonic} int {n}\n")?;
        push(&mut text, line.as_bytes())?;
    }
    push(&mut text, b"end\n")?;
    Ok(text)
}

// Seven constants are the class's own, so that 248 ints have an index up to 255, and 65,527 fit.
static INTS: [(&str, u32, Told); 4] = [
    ("ldc", 248, None),
    ("ldc", 249, Some((251, OPERAND))),
    ("ldc_w", 65_527, None),
    ("ldc_w", 65_528, Some((65_536, LIMIT))),
];

#[test]
fn constants_reach_their_limits(rt: HostRuntime) -> Result<(), Fail> {
    let alloc = rt.alloc();
    for (mnemonic, count, answer) in &INTS {
        let text = with_ints(alloc, mnemonic, *count)?;
        assert_eq!(rt;
            told(alloc, text.as_slice()),
            *answer,
            "{count} of {mnemonic}"
        );
    }
    Ok(())
}

// An interface's method with so many longs as arguments, and what else it has.
fn with_longs(alloc: Global, longs: u32, behind: &[u8]) -> Result<Vec<u8>, OutOfMemory> {
    let mut body = Vec::new(alloc);
    push(&mut body, b"invokeinterface I m (")?;
    push_times(&mut body, b"J", longs)?;
    push(&mut body, behind)?;
    with_body(alloc, body.as_slice())
}

#[test]
fn arguments_reach_their_limit(rt: HostRuntime) -> Result<(), Fail> {
    let alloc = rt.alloc();
    let most = with_longs(alloc, 127, b")V\n")?;
    assert_eq!(rt; told(alloc, most.as_slice()), None);
    let more = with_longs(alloc, 127, b"I)V\n")?;
    assert_eq!(rt; told(alloc, more.as_slice()), Some((3, OPERAND)));
    Ok(())
}
