//! Code and exception tables.

use code_reader::{CodeError, CodeKind, read_code};
use jx_base::Range;
use std::alloc::Global;
use std::test::Fail;

// How many instructions code has; or the place and the kind of its first fault.
type Found = (usize, Option<CodeKind>);

const NO_ANSWER: Found = (1_000_000, None);

fn found(alloc: Global, code: &[u8], table: &[Range]) -> Found {
    if code.len() > 65_535 {
        return NO_ANSWER;
    }
    match read_code(alloc, code, table) {
        Ok(instrs) => (instrs.len(), None),
        Err(CodeError::Bad(fault)) => (fault.pc as usize, Some(fault.kind)),
        Err(CodeError::OutOfMemory) => NO_ANSWER,
    }
}

fn front(code: &[u8], length: usize) -> &[u8] {
    &code[..code.len().min(length)]
}

const LEFT_OUT: u8 = 100;

const UNKNOWN: u8 = 101;

// How many bytes of operands each opcode has at least, at place 0.
static SHORTEST: [[u8; 16]; 16] = [
    [0, 0, 0, 0, 0, 0, 0, 0, 0, 0, 0, 100, 100, 100, 100, 100],
    [1, 2, 1, 2, 2, 1, 1, 100, 100, 1, 0, 0, 0, 0, 0, 0],
    [
        0, 0, 100, 100, 100, 100, 100, 100, 100, 100, 0, 0, 0, 0, 0, 0,
    ],
    [100, 100, 0, 0, 0, 0, 1, 1, 100, 100, 1, 0, 0, 0, 0, 0],
    [
        0, 0, 0, 100, 100, 100, 100, 100, 100, 100, 100, 0, 0, 0, 0, 0,
    ],
    [0, 100, 100, 0, 0, 0, 0, 0, 0, 0, 0, 0, 0, 0, 0, 0],
    [
        0, 0, 100, 100, 0, 0, 100, 100, 0, 0, 100, 100, 0, 0, 100, 100,
    ],
    [0, 0, 100, 100, 0, 0, 100, 100, 0, 0, 0, 0, 0, 0, 0, 0],
    [
        0, 0, 0, 0, 2, 0, 100, 100, 0, 100, 100, 100, 100, 100, 100, 100,
    ],
    [100, 0, 0, 0, 0, 100, 100, 100, 100, 2, 2, 2, 2, 2, 2, 2],
    [2, 2, 2, 2, 2, 2, 2, 2, 100, 100, 19, 11, 0, 0, 100, 100],
    [0, 0, 2, 2, 2, 2, 2, 2, 2, 4, 100, 2, 1, 2, 0, 0],
    [
        2, 2, 100, 100, 3, 3, 2, 2, 4, 100, 101, 101, 101, 101, 101, 101,
    ],
    [101; 16],
    [101; 16],
    [101; 16],
];

// An opcode with operands that are all 0, where they may be.
fn with_operands(opcode: u8) -> [u8; 24] {
    let mut code = [0; 24];
    code[0] = opcode;
    match opcode {
        0xbc => code[1] = 10,
        0xc4 => code[1] = 0x15,
        0xc5 => code[3] = 1,
        _ => {}
    }
    code
}

fn fault_alone(opcode: u8, shortest: u8) -> Found {
    match shortest {
        LEFT_OUT => (0, Some(CodeKind::LeftOut)),
        UNKNOWN => (0, Some(CodeKind::Opcode)),
        _ => (1, None),
    }
}

fn fault_behind_wide(opcode: u8, length: usize) -> Found {
    match opcode {
        0x15 | 0x16 | 0x19 | 0x36 | 0x37 | 0x3a if length == 4 => (1, None),
        0x84 if length == 6 => (1, None),
        0x15 | 0x16 | 0x19 | 0x36 | 0x37 | 0x3a | 0x84 if length < 6 => {
            (0, Some(CodeKind::Truncated))
        }
        0x17 | 0x18 | 0x38 | 0x39 | 0xa9 => (0, Some(CodeKind::LeftOut)),
        _ => (0, Some(CodeKind::BadWide)),
    }
}

// What is found of an opcode alone and behind wide, each whole and cut by a byte, and what is to
// be. Where no operand is needed, the opcode alone is whole both times.
fn opcode_cases(alloc: Global, opcode: u8) -> [(Found, Found); 4] {
    let shortest = SHORTEST[usize::from(opcode / 16)][usize::from(opcode % 16)];
    let alone = with_operands(opcode);
    let whole = usize::from(shortest) + 1;
    let (cut, fault_cut) = if shortest > 0 && shortest < LEFT_OUT {
        (usize::from(shortest), (0, Some(CodeKind::Truncated)))
    } else {
        (whole, fault_alone(opcode, shortest))
    };
    let wide = [0xc4, opcode, 0, 0, 0, 0];
    let long = if opcode == 0x84 { 6 } else { 4 };
    let short = long - 1;
    [
        (
            found(alloc, front(&alone, whole), &[]),
            fault_alone(opcode, shortest),
        ),
        (found(alloc, front(&alone, cut), &[]), fault_cut),
        (
            found(alloc, front(&wide, long), &[]),
            fault_behind_wide(opcode, long),
        ),
        (
            found(alloc, front(&wide, short), &[]),
            fault_behind_wide(opcode, short),
        ),
    ]
}

#[test]
fn each_opcode_has_its_operands_alone_and_behind_wide(rt: HostRuntime) {
    let alloc = rt.alloc();
    for opcode in 0..=u8::MAX {
        for (answer, wanted) in opcode_cases(alloc, opcode) {
            assert_eq!(rt; answer, wanted, "{opcode:x}");
        }
    }
    assert_eq!(rt; found(alloc, &[0xc4], &[]), (0, Some(CodeKind::Truncated)));
}

// Switches at place 0: a default, and the key 5 with its target, or the keys -1 and 5.
const TABLE: &[u8] = &[
    0xaa, 9, 9, 9, 0, 0, 0, 0, 0, 0, 0, 5, 0, 0, 0, 5, 0, 0, 0, 0,
];

const LOOKUP: &[u8] = &[
    0xab, 9, 9, 9, 0, 0, 0, 0, 0, 0, 0, 2, 255, 255, 255, 255, 0, 0, 0, 0, 0, 0, 0, 5, 0, 0, 0, 0,
];

// What is found in a front of one instruction of so many bytes.
fn fault_cut_at(length: usize, whole: usize) -> Found {
    if length < whole {
        (0, Some(CodeKind::Truncated))
    } else {
        (1, None)
    }
}

// Codes with no exception table.
static CODES: [(&[u8], Found); 29] = [
    (&[], (0, None)),
    // a branch into an operand, before the code, to its end, and to an instruction
    (
        &[0xa7, 0, 4, 0x10, 7, 0x57, 0xb1],
        (0, Some(CodeKind::Target)),
    ),
    (&[0xa7, 255, 255], (0, Some(CodeKind::Target))),
    (&[0xa7, 0, 3], (0, Some(CodeKind::Target))),
    (&[0xa7, 0, 3, 0xb1], (2, None)),
    (&[0, 0xc8, 0, 0, 0, 5], (1, Some(CodeKind::Target))),
    (&[0, 0xc8, 0, 0, 0, 5, 0xb1], (3, None)),
    // places are asked for behind all bytes
    (&[0xa7, 255, 255, 0xca], (3, Some(CodeKind::Opcode))),
    // types of elements, and dimensions
    (&[0xbc, 3], (0, Some(CodeKind::Opcode))),
    (&[0xbc, 4], (1, None)),
    (&[0xbc, 5], (1, None)),
    (&[0xbc, 6], (0, Some(CodeKind::LeftOut))),
    (&[0xbc, 7], (0, Some(CodeKind::LeftOut))),
    (&[0xbc, 8], (1, None)),
    (&[0xbc, 11], (1, None)),
    (&[0xbc, 12], (0, Some(CodeKind::Opcode))),
    (&[0xc5, 0, 0, 0], (0, Some(CodeKind::Opcode))),
    // tableswitch behind one, two and three bytes
    (
        &[
            0, 0xaa, 9, 9, 0, 0, 0, 0, 0, 0, 0, 5, 0, 0, 0, 5, 0, 0, 0, 0,
        ],
        (2, None),
    ),
    (
        &[
            0, 0, 0xaa, 9, 0, 0, 0, 0, 0, 0, 0, 5, 0, 0, 0, 5, 0, 0, 0, 0,
        ],
        (3, None),
    ),
    (
        &[
            0, 0, 0, 0xaa, 0, 0, 0, 0, 0, 0, 0, 5, 0, 0, 0, 5, 0, 0, 0, 0,
        ],
        (4, None),
    ),
    // the lowest key is above the highest
    (
        &[0xaa, 0, 0, 0, 0, 0, 0, 0, 0, 0, 0, 1, 0, 0, 0, 0],
        (0, Some(CodeKind::BadRange)),
    ),
    // all keys, but no bytes for them
    (
        &[0xaa, 0, 0, 0, 0, 0, 0, 0, 128, 0, 0, 0, 127, 255, 255, 255],
        (0, Some(CodeKind::Truncated)),
    ),
    // a negative count, keys that are the same, and keys that are the same before others that
    // are missing
    (
        &[0xab, 0, 0, 0, 0, 0, 0, 0, 255, 255, 255, 255],
        (0, Some(CodeKind::BadRange)),
    ),
    (
        &[
            0xab, 0, 0, 0, 0, 0, 0, 0, 0, 0, 0, 2, 0, 0, 0, 5, 0, 0, 0, 0, 0, 0, 0, 5, 0, 0, 0, 0,
        ],
        (0, Some(CodeKind::BadRange)),
    ),
    (
        &[
            0xab, 0, 0, 0, 0, 0, 0, 0, 0, 0, 0, 2, 0, 0, 0, 5, 0, 0, 0, 0, 0, 0, 0, 4, 0, 0, 0, 0,
        ],
        (0, Some(CodeKind::BadRange)),
    ),
    (
        &[
            0xab, 0, 0, 0, 0, 0, 0, 0, 0, 0, 0, 3, 0, 0, 0, 5, 0, 0, 0, 0, 0, 0, 0, 5, 0, 0, 0, 0,
        ],
        (0, Some(CodeKind::Truncated)),
    ),
    // a default and a key's target that lead into operands
    (
        &[0xab, 0, 0, 0, 0, 0, 0, 1, 0, 0, 0, 0],
        (0, Some(CodeKind::Target)),
    ),
    (
        &[
            0xab, 0, 0, 0, 0, 0, 0, 0, 0, 0, 0, 1, 0, 0, 0, 0, 0, 0, 0, 1,
        ],
        (0, Some(CodeKind::Target)),
    ),
    (
        &[
            0xab, 0, 0, 0, 0, 0, 0, 0, 0, 0, 0, 1, 0, 0, 0, 1, 0, 0, 0, 0,
        ],
        (1, None),
    ),
];

#[test]
fn codes_have_these_first_faults(rt: HostRuntime) {
    let alloc = rt.alloc();
    for (code, wanted) in &CODES {
        assert_eq!(rt; found(alloc, code, &[]), *wanted, "{code:?}");
    }
    assert_eq!(rt; found(alloc, &[0; 65_535], &[]), (65_535, None));
    for code in [TABLE, LOOKUP] {
        for length in 1..=code.len() {
            let wanted = fault_cut_at(length, code.len());
            assert_eq!(rt; found(alloc, front(code, length), &[]), wanted, "{length}");
        }
    }
}

fn range(start: u32, end: u32, handler: u32) -> Range {
    Range {
        start,
        end,
        handler,
        catch_type: 0,
    }
}

// The second range of a table, in code whose instructions start at 0, 2 and 3.
static RANGES: [(u32, u32, u32, Found); 10] = [
    (0, 2, 3, (3, None)),
    (2, 4, 0, (3, None)),
    (1, 3, 0, (1, Some(CodeKind::BadRange))),
    (4, 4, 0, (4, Some(CodeKind::BadRange))),
    (0, 1, 0, (0, Some(CodeKind::BadRange))),
    (0, 5, 0, (0, Some(CodeKind::BadRange))),
    (0, 4, 1, (0, Some(CodeKind::BadRange))),
    (0, 4, 4, (0, Some(CodeKind::BadRange))),
    (2, 2, 0, (2, Some(CodeKind::BadRange))),
    (3, 2, 0, (3, Some(CodeKind::BadRange))),
];

#[test]
fn exception_tables_have_these_first_faults(rt: HostRuntime) {
    let alloc = rt.alloc();
    let code = [0x10, 7, 0x57, 0xb1];
    for (start, end, handler, wanted) in &RANGES {
        let table = [range(0, 4, 2), range(*start, *end, *handler)];
        assert_eq!(rt;
            found(alloc, &code, &table),
            *wanted,
            "{start} {end} {handler}"
        );
    }
    let astray = [0xa7, 0, 1];
    let table = [range(1, 1, 1)];
    assert_eq!(rt; found(alloc, &astray, &table), (0, Some(CodeKind::Target)));
}

fn last_operands(alloc: Global, code: &[u8]) -> Option<Vec<i32>> {
    if code.len() > 65_535 {
        return None;
    }
    let mut instrs = read_code(alloc, code, &[]).ok()?;
    Some(instrs.pop()?.operands.into_vec())
}

// Codes, and the operands of their last instructions.
static OPERANDS: [(&[u8], &[i32]); 12] = [
    (&[0x10, 254], &[-2]),
    (&[0x11, 128, 0], &[-32_768]),
    (&[0x12, 254], &[254]),
    (&[0x13, 255, 254], &[65_534]),
    (&[0xb9, 1, 2, 3, 4], &[258]),
    (&[0xc5, 1, 2, 3], &[258, 3]),
    (&[0x84, 255, 254], &[255, -2]),
    (&[0xc4, 0x84, 255, 255, 255, 254], &[65_535, -2]),
    (&[0, 0, 0xa7, 255, 254], &[0]),
    (&[0, 0, 0xc8, 255, 255, 255, 255], &[1]),
    (TABLE, &[0, 5, 5, 0]),
    (LOOKUP, &[0, 2, -1, 0, 5, 0]),
];

#[test]
fn operands_are_those_of_the_form(rt: HostRuntime) -> Result<(), Fail> {
    let alloc = rt.alloc();
    for (code, wanted) in &OPERANDS {
        let operands = last_operands(alloc, code).ok_or("no instruction")?;
        assert_eq!(rt; operands.as_slice(), *wanted, "{code:?}");
    }
    Ok(())
}
