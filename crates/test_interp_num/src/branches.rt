//! Branches and switches.

use crate::outcome_text::{Case, each_comes_to};
use jx_base::Value::{Int, Long, Null, Ref};
use jx_base::{ClassId, ObjectId, ServiceId, Value};
use std::test::Fail;

const FIRST_PORTAL: Value = Value::Portal(ServiceId(1), ClassId(20));

const SAME_PORTAL: Value = Value::Portal(ServiceId(1), ClassId(21));

const OTHER_PORTAL: Value = Value::Portal(ServiceId(2), ClassId(20));

const MEMORY: Value = Value::Mem(ObjectId(1));

static BRANCHES: [Case; 78] = [
    (0x99, &[30], &[Int(9), Int(-1)], "next: 9"),
    (0x99, &[30], &[Int(9), Int(0)], "jump 30: 9"),
    (0x99, &[30], &[Int(9), Int(1)], "next: 9"),
    (0x9f, &[30], &[Int(1), Int(2)], "next:"),
    (0x9f, &[30], &[Int(2), Int(2)], "jump 30:"),
    (0x9f, &[30], &[Int(2), Int(1)], "next:"),
    (0x9f, &[30], &[Int(i32::MIN), Int(i32::MAX)], "next:"),
    (0x9a, &[30], &[Int(9), Int(-1)], "jump 30: 9"),
    (0x9a, &[30], &[Int(9), Int(0)], "next: 9"),
    (0x9a, &[30], &[Int(9), Int(1)], "jump 30: 9"),
    (0xa0, &[30], &[Int(1), Int(2)], "jump 30:"),
    (0xa0, &[30], &[Int(2), Int(2)], "next:"),
    (0xa0, &[30], &[Int(2), Int(1)], "jump 30:"),
    (0xa0, &[30], &[Int(i32::MIN), Int(i32::MAX)], "jump 30:"),
    (0x9b, &[30], &[Int(9), Int(-1)], "jump 30: 9"),
    (0x9b, &[30], &[Int(9), Int(0)], "next: 9"),
    (0x9b, &[30], &[Int(9), Int(1)], "next: 9"),
    (0xa1, &[30], &[Int(1), Int(2)], "jump 30:"),
    (0xa1, &[30], &[Int(2), Int(2)], "next:"),
    (0xa1, &[30], &[Int(2), Int(1)], "next:"),
    (0xa1, &[30], &[Int(i32::MIN), Int(i32::MAX)], "jump 30:"),
    (0x9c, &[30], &[Int(9), Int(-1)], "next: 9"),
    (0x9c, &[30], &[Int(9), Int(0)], "jump 30: 9"),
    (0x9c, &[30], &[Int(9), Int(1)], "jump 30: 9"),
    (0xa2, &[30], &[Int(1), Int(2)], "next:"),
    (0xa2, &[30], &[Int(2), Int(2)], "jump 30:"),
    (0xa2, &[30], &[Int(2), Int(1)], "jump 30:"),
    (0xa2, &[30], &[Int(i32::MIN), Int(i32::MAX)], "next:"),
    (0x9d, &[30], &[Int(9), Int(-1)], "next: 9"),
    (0x9d, &[30], &[Int(9), Int(0)], "next: 9"),
    (0x9d, &[30], &[Int(9), Int(1)], "jump 30: 9"),
    (0xa3, &[30], &[Int(1), Int(2)], "next:"),
    (0xa3, &[30], &[Int(2), Int(2)], "next:"),
    (0xa3, &[30], &[Int(2), Int(1)], "jump 30:"),
    (0xa3, &[30], &[Int(i32::MIN), Int(i32::MAX)], "next:"),
    (0x9e, &[30], &[Int(9), Int(-1)], "jump 30: 9"),
    (0x9e, &[30], &[Int(9), Int(0)], "jump 30: 9"),
    (0x9e, &[30], &[Int(9), Int(1)], "next: 9"),
    (0xa4, &[30], &[Int(1), Int(2)], "jump 30:"),
    (0xa4, &[30], &[Int(2), Int(2)], "jump 30:"),
    (0xa4, &[30], &[Int(2), Int(1)], "next:"),
    (0xa4, &[30], &[Int(i32::MIN), Int(i32::MAX)], "jump 30:"),
    (0xa5, &[30], &[Null, Null], "jump 30:"),
    (0xa6, &[30], &[Null, Null], "next:"),
    (0xa5, &[30], &[Null, Ref(1)], "next:"),
    (0xa6, &[30], &[Null, Ref(1)], "jump 30:"),
    (0xa5, &[30], &[Ref(1), Ref(1)], "jump 30:"),
    (0xa6, &[30], &[Ref(1), Ref(1)], "next:"),
    (0xa5, &[30], &[Ref(1), Ref(2)], "next:"),
    (0xa6, &[30], &[Ref(1), Ref(2)], "jump 30:"),
    (0xa5, &[30], &[FIRST_PORTAL, SAME_PORTAL], "jump 30:"),
    (0xa6, &[30], &[FIRST_PORTAL, SAME_PORTAL], "next:"),
    (0xa5, &[30], &[FIRST_PORTAL, OTHER_PORTAL], "next:"),
    (0xa6, &[30], &[FIRST_PORTAL, OTHER_PORTAL], "jump 30:"),
    (0xa5, &[30], &[MEMORY, MEMORY], "jump 30:"),
    (0xa6, &[30], &[MEMORY, MEMORY], "next:"),
    (0xa5, &[30], &[MEMORY, Ref(1)], "next:"),
    (0xa6, &[30], &[MEMORY, Ref(1)], "jump 30:"),
    (0xa5, &[30], &[MEMORY, Value::Mem(ObjectId(2))], "next:"),
    (0xa6, &[30], &[MEMORY, Value::Mem(ObjectId(2))], "jump 30:"),
    (0xc6, &[30], &[Null], "jump 30:"),
    (0xc7, &[30], &[Null], "next:"),
    (0xc6, &[30], &[Ref(0)], "next:"),
    (0xc7, &[30], &[Ref(0)], "jump 30:"),
    (0xc6, &[30], &[MEMORY], "next:"),
    (0xc7, &[30], &[MEMORY], "jump 30:"),
    (0xc6, &[30], &[FIRST_PORTAL], "next:"),
    (0xc7, &[30], &[FIRST_PORTAL], "jump 30:"),
    (0xa7, &[30], &[Int(1)], "jump 30: 1"),
    (0xc8, &[70000], &[], "jump 70000:"),
    (0x99, &[30], &[Long(0)], "bad"),
    (0x99, &[30], &[], "bad"),
    (0x9f, &[30], &[Int(0)], "bad"),
    (0x9f, &[30], &[Null, Int(0)], "bad"),
    (0xa5, &[30], &[Null, Int(0)], "bad"),
    (0xa5, &[30], &[Null], "bad"),
    (0xc6, &[30], &[Int(0)], "bad"),
    (0xc7, &[30], &[Long(0)], "bad"),
];

static SWITCHES: [Case; 30] = [
    (0xaa, &[90, -1, 1, 10, 11, 12], &[Int(-2)], "jump 90:"),
    (0xaa, &[90, -1, 1, 10, 11, 12], &[Int(-1)], "jump 10:"),
    (0xaa, &[90, -1, 1, 10, 11, 12], &[Int(0)], "jump 11:"),
    (0xaa, &[90, -1, 1, 10, 11, 12], &[Int(1)], "jump 12:"),
    (0xaa, &[90, -1, 1, 10, 11, 12], &[Int(2)], "jump 90:"),
    (0xaa, &[90, -1, 1, 10, 11, 12], &[Int(i32::MIN)], "jump 90:"),
    (0xaa, &[90, -1, 1, 10, 11, 12], &[Int(i32::MAX)], "jump 90:"),
    (
        0xaa,
        &[90, i32::MAX - 1, i32::MAX, 10, 11],
        &[Int(i32::MAX)],
        "jump 11:",
    ),
    (
        0xaa,
        &[90, i32::MAX - 1, i32::MAX, 10, 11],
        &[Int(2147483646)],
        "jump 10:",
    ),
    (
        0xaa,
        &[90, i32::MAX - 1, i32::MAX, 10, 11],
        &[Int(2147483645)],
        "jump 90:",
    ),
    (
        0xaa,
        &[90, i32::MAX - 1, i32::MAX, 10, 11],
        &[Int(i32::MIN)],
        "jump 90:",
    ),
    (
        0xaa,
        &[90, i32::MIN, i32::MIN + 1, 10, 11],
        &[Int(i32::MIN)],
        "jump 10:",
    ),
    (
        0xaa,
        &[90, i32::MIN, i32::MIN + 1, 10, 11],
        &[Int(-2147483647)],
        "jump 11:",
    ),
    (
        0xaa,
        &[90, i32::MIN, i32::MIN + 1, 10, 11],
        &[Int(-2147483646)],
        "jump 90:",
    ),
    (
        0xaa,
        &[90, i32::MIN, i32::MIN + 1, 10, 11],
        &[Int(i32::MAX)],
        "jump 90:",
    ),
    (0xaa, &[90, 5, 5, 10], &[Int(5)], "jump 10:"),
    (0xaa, &[90, 5, 5, 10], &[Int(4)], "jump 90:"),
    (0xaa, &[90, 5, 5, 10], &[Int(6)], "jump 90:"),
    (
        0xab,
        &[90, 2, -5, 10, 5, 11],
        &[Int(3), Int(-5)],
        "jump 10: 3",
    ),
    (
        0xab,
        &[90, 2, -5, 10, 5, 11],
        &[Int(3), Int(5)],
        "jump 11: 3",
    ),
    (
        0xab,
        &[90, 2, -5, 10, 5, 11],
        &[Int(3), Int(0)],
        "jump 90: 3",
    ),
    (
        0xab,
        &[90, 2, -5, 10, 5, 11],
        &[Int(3), Int(-6)],
        "jump 90: 3",
    ),
    (
        0xab,
        &[90, 2, -5, 10, 5, 11],
        &[Int(3), Int(6)],
        "jump 90: 3",
    ),
    (
        0xab,
        &[90, 2, -5, 10, 5, 11],
        &[Int(3), Int(10)],
        "jump 90: 3",
    ),
    (0xab, &[90, 0], &[Int(0)], "jump 90:"),
    (
        0xab,
        &[90, 2, i32::MIN, 10, i32::MAX, 11],
        &[Int(i32::MIN)],
        "jump 10:",
    ),
    (
        0xab,
        &[90, 2, i32::MIN, 10, i32::MAX, 11],
        &[Int(i32::MAX)],
        "jump 11:",
    ),
    (0xaa, &[90, -1, 1, 10, 11, 12], &[Long(0)], "bad"),
    (0xaa, &[90, -1, 1, 10, 11, 12], &[], "bad"),
    (0xab, &[90, 0], &[Null], "bad"),
];

#[test]
fn branches_are_taken_where_the_test_holds(rt: HostRuntime) -> Result<(), Fail> {
    each_comes_to(&rt, rt.alloc(), &[], &BRANCHES)
}

#[test]
fn switches_lead_to_the_target_of_the_key(rt: HostRuntime) -> Result<(), Fail> {
    each_comes_to(&rt, rt.alloc(), &[], &SWITCHES)
}
