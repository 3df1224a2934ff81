//! Forms of the stack, loads and stores, constants, and the limit of the stack.

use crate::outcome_text::{Case, each_comes_to, outcome_text};
use crate::running::Setting;
use jx_base::Value::{Int, Long, Null, Ref};
use jx_base::{ObjectId, Value};
use std::test::Fail;

static FORMS: [Case; 40] = [
    (0x57, &[], &[Int(1), Int(2)], "next: 1"),
    (0x57, &[], &[Int(1), Long(2)], "bad"),
    (0x57, &[], &[], "bad"),
    (0x58, &[], &[Int(1), Int(2), Int(3)], "next: 1"),
    (0x58, &[], &[Int(1), Long(2)], "next: 1"),
    (0x58, &[], &[Long(1), Int(2)], "bad"),
    (0x58, &[], &[Int(1)], "bad"),
    (0x59, &[], &[Int(1)], "next: 1 1"),
    (0x59, &[], &[Long(1)], "bad"),
    (0x59, &[], &[], "bad"),
    (0x5a, &[], &[Int(1), Int(2)], "next: 2 1 2"),
    (0x5a, &[], &[Long(1), Int(2)], "bad"),
    (0x5a, &[], &[Int(1), Long(2)], "bad"),
    (0x5a, &[], &[Int(1)], "bad"),
    (0x5b, &[], &[Int(1), Int(2), Int(3)], "next: 3 1 2 3"),
    (0x5b, &[], &[Long(1), Int(2)], "next: 2 1L 2"),
    (0x5b, &[], &[Int(1), Long(2), Int(3)], "next: 1 3 2L 3"),
    (0x5b, &[], &[Long(1), Int(2), Int(3)], "bad"),
    (0x5b, &[], &[Int(1), Int(2), Long(3)], "bad"),
    (0x5b, &[], &[Int(1), Int(2)], "bad"),
    (0x5c, &[], &[Int(1), Int(2)], "next: 1 2 1 2"),
    (0x5c, &[], &[Long(1)], "next: 1L 1L"),
    (0x5c, &[], &[Long(1), Int(2)], "bad"),
    (0x5c, &[], &[Int(1)], "bad"),
    (0x5d, &[], &[Int(1), Int(2), Int(3)], "next: 2 3 1 2 3"),
    (0x5d, &[], &[Int(1), Long(2)], "next: 2L 1 2L"),
    (0x5d, &[], &[Long(1), Long(2)], "bad"),
    (0x5d, &[], &[Long(1), Int(2), Int(3)], "bad"),
    (0x5d, &[], &[Int(1), Int(2)], "bad"),
    (
        0x5e,
        &[],
        &[Int(1), Int(2), Int(3), Int(4)],
        "next: 3 4 1 2 3 4",
    ),
    (0x5e, &[], &[Int(1), Int(2), Long(3)], "next: 3L 1 2 3L"),
    (0x5e, &[], &[Long(1), Int(2), Int(3)], "next: 2 3 1L 2 3"),
    (0x5e, &[], &[Long(1), Long(2)], "next: 2L 1L 2L"),
    (0x5e, &[], &[Long(1), Int(2), Long(3)], "bad"),
    (0x5e, &[], &[Int(1), Int(2), Int(3)], "bad"),
    (0x5e, &[], &[Int(1), Long(2)], "bad"),
    (0x5f, &[], &[Int(1), Int(2)], "next: 2 1"),
    (0x5f, &[], &[Long(1), Int(2)], "bad"),
    (0x5f, &[], &[Int(1), Long(2)], "bad"),
    (0x5f, &[], &[Int(1)], "bad"),
];

#[test]
fn forms_of_the_stack_see_a_long_as_two_slots(rt: HostRuntime) -> Result<(), Fail> {
    each_comes_to(&rt, rt.alloc(), &[], &FORMS)
}

// The class has an int as constant 0 and a long as constant 1.
static CONSTANTS: [Case; 16] = [
    (0x00, &[], &[Int(1)], "next: 1"),
    (0x01, &[], &[], "next: null"),
    (0x02, &[], &[], "next: -1"),
    (0x03, &[], &[], "next: 0"),
    (0x04, &[], &[], "next: 1"),
    (0x05, &[], &[], "next: 2"),
    (0x06, &[], &[], "next: 3"),
    (0x07, &[], &[], "next: 4"),
    (0x08, &[], &[], "next: 5"),
    (0x09, &[], &[], "next: 0L"),
    (0x0a, &[], &[], "next: 1L"),
    (0x10, &[-128], &[], "next: -128"),
    (0x11, &[32767], &[], "next: 32767"),
    (0x14, &[1], &[], "next: -9223372036854775808L"),
    (0x14, &[0], &[], "bad"),
    (0x14, &[2], &[], "bad"),
];

#[test]
fn constants_are_pushed(rt: HostRuntime) -> Result<(), Fail> {
    each_comes_to(&rt, rt.alloc(), &[], &CONSTANTS)
}

static LOCALS: [Case; 41] = [
    (0x15, &[0], &[], "next: [ 7 8L _ @9 _ ] 7"),
    (0x15, &[1], &[], "bad"),
    (0x15, &[2], &[], "bad"),
    (0x15, &[4], &[], "bad"),
    (0x15, &[5], &[], "bad"),
    (0x15, &[-1], &[], "bad"),
    (0x16, &[1], &[], "next: [ 7 8L _ @9 _ ] 8L"),
    (0x16, &[0], &[], "bad"),
    (0x16, &[2], &[], "bad"),
    (0x19, &[3], &[], "next: [ 7 8L _ @9 _ ] @9"),
    (0x19, &[0], &[], "bad"),
    (0x19, &[5], &[], "bad"),
    (0x1a, &[], &[], "next: [ 7 8L _ @9 _ ] 7"),
    (0x1b, &[], &[], "bad"),
    (0x1f, &[], &[], "next: [ 7 8L _ @9 _ ] 8L"),
    (0x20, &[], &[], "bad"),
    (0x2d, &[], &[], "next: [ 7 8L _ @9 _ ] @9"),
    (0x2a, &[], &[], "bad"),
    (0x36, &[4], &[Int(1)], "next: [ 7 8L _ @9 1 ]"),
    (0x36, &[5], &[Int(1)], "bad"),
    (0x36, &[0], &[Null], "bad"),
    (0x36, &[0], &[], "bad"),
    (0x37, &[3], &[Long(1)], "next: [ 7 8L _ 1L _ ]"),
    (0x37, &[4], &[Long(1)], "bad"),
    (0x37, &[0], &[Long(1)], "next: [ 1L _ _ @9 _ ]"),
    (0x37, &[0], &[Int(1)], "bad"),
    (0x3a, &[0], &[Null], "next: [ null 8L _ @9 _ ]"),
    (0x3a, &[0], &[Int(1)], "bad"),
    (0x3a, &[5], &[Ref(1)], "bad"),
    (0x3b, &[], &[Int(1)], "next: [ 1 8L _ @9 _ ]"),
    (0x3e, &[], &[Int(2), Int(1)], "next: [ 7 8L _ 1 _ ] 2"),
    (0x3f, &[], &[Long(1)], "next: [ 1L _ _ @9 _ ]"),
    (0x42, &[], &[Long(1)], "next: [ 7 8L _ 1L _ ]"),
    (0x4b, &[], &[Ref(2)], "next: [ @2 8L _ @9 _ ]"),
    (
        0x4e,
        &[],
        &[Value::Mem(ObjectId(3))],
        "next: [ 7 8L _ m3 _ ]",
    ),
    (0x84, &[0, 1], &[], "next: [ 8 8L _ @9 _ ]"),
    (0x84, &[0, -8], &[Int(5)], "next: [ -1 8L _ @9 _ ] 5"),
    (0x84, &[1, 1], &[], "bad"),
    (0x84, &[4, 1], &[], "bad"),
    (0x84, &[5, 1], &[], "bad"),
    (0x84, &[3, 1], &[], "bad"),
];

// iinc over the edges, as far as a byte and, behind wide, two bytes go.
static EDGES: [Case; 4] = [
    (0x84, &[0, 1], &[], "next: [ -2147483648 -2147483648 ]"),
    (0x84, &[1, -1], &[], "next: [ 2147483647 2147483647 ]"),
    (0x84, &[0, 32767], &[], "next: [ -2147450882 -2147483648 ]"),
    (0x84, &[1, -32768], &[], "next: [ 2147483647 2147450880 ]"),
];

#[test]
fn locals_are_read_and_set_where_they_are(rt: HostRuntime) -> Result<(), Fail> {
    let locals = [Some(Int(7)), Some(Long(8)), None, Some(Ref(9)), None];
    each_comes_to(&rt, rt.alloc(), &locals, &LOCALS)?;
    let edges = [Some(Int(i32::MAX)), Some(Int(i32::MIN))];
    each_comes_to(&rt, rt.alloc(), &edges, &EDGES)?;
    let cut = [None, Some(Long(8))];
    each_comes_to(&rt, rt.alloc(), &cut, &[(0x16, &[1], &[], "bad")])
}

static LIMITS: [(u8, &[Value], u32, &str); 33] = [
    (0x03, &[Int(1)], 2, "next: 1 0"),
    (0x03, &[Int(1)], 1, "bad"),
    (0x03, &[Long(1)], 3, "next: 1L 0"),
    (0x03, &[Long(1)], 2, "bad"),
    (0x01, &[], 1, "next: null"),
    (0x01, &[], 0, "bad"),
    (0x09, &[Int(1)], 3, "next: 1 0L"),
    (0x09, &[Int(1)], 2, "bad"),
    (0x85, &[Int(1)], 2, "next: 1L"),
    (0x85, &[Int(1)], 1, "bad"),
    (0x59, &[Int(1)], 2, "next: 1 1"),
    (0x59, &[Int(1)], 1, "bad"),
    (0x5a, &[Int(1), Int(2)], 3, "next: 2 1 2"),
    (0x5a, &[Int(1), Int(2)], 2, "bad"),
    (0x5b, &[Int(1), Int(2), Int(3)], 4, "next: 3 1 2 3"),
    (0x5b, &[Int(1), Int(2), Int(3)], 3, "bad"),
    (0x5b, &[Long(1), Int(2)], 4, "next: 2 1L 2"),
    (0x5b, &[Long(1), Int(2)], 3, "bad"),
    (0x5c, &[Int(1), Int(2)], 4, "next: 1 2 1 2"),
    (0x5c, &[Int(1), Int(2)], 3, "bad"),
    (0x5c, &[Long(1)], 4, "next: 1L 1L"),
    (0x5c, &[Long(1)], 3, "bad"),
    (0x5d, &[Int(1), Int(2), Int(3)], 5, "next: 2 3 1 2 3"),
    (0x5d, &[Int(1), Int(2), Int(3)], 4, "bad"),
    (0x5e, &[Long(1), Long(2)], 6, "next: 2L 1L 2L"),
    (0x5e, &[Long(1), Long(2)], 5, "bad"),
    (0x10, &[Long(1), Long(2)], 5, "next: 1L 2L 0"),
    (0x10, &[Long(1), Long(2)], 4, "bad"),
    (0x60, &[Int(1), Int(2)], 2, "next: 3"),
    (0x61, &[Long(1), Long(2)], 4, "next: 3L"),
    (0x5f, &[Int(1), Int(2)], 2, "next: 2 1"),
    (0x88, &[Long(1)], 2, "next: 1"),
    (0x58, &[Long(1)], 2, "next:"),
];

#[test]
fn stack_gets_no_deeper_than_it_may(rt: HostRuntime) -> Result<(), Fail> {
    for (opcode, values, most, wanted) in LIMITS.iter() {
        let setting = Setting {
            opcode: *opcode,
            operands: &[],
            locals: &[],
            values,
            most: *most,
        };
        let text = outcome_text(rt.alloc(), setting)?;
        assert_eq!(rt; text.as_str(), *wanted, "opcode {opcode} within {most}");
    }
    Ok(())
}
