//! Cases of code, one after another.

use crate::first_act::answer;
use std::alloc::Global;
use std::process::Abort;
use std::test::Fail;

/// The names of the classes, their short texts in that order, and the first act.
pub type Case = (&'static str, &'static [&'static str], &'static str);

/// The same of the one class Main.
pub type MainCase = (&'static str, &'static str);

/// The heap and the fuel of the one class Main.
pub type LimitCase = (u32, u32, &'static str, &'static str);

fn try_case(
    rt: &impl Abort,
    alloc: Global,
    names: &str,
    classes: &[&str],
    heap: u32,
    fuel: u32,
    due: &str,
) -> Result<(), Fail> {
    let answer = answer(alloc, names, classes, heap, fuel)?;
    assert_eq!(rt; answer.as_str(), due, "{heap} {fuel} {names}: {classes:?}");
    Ok(())
}

pub fn try_cases(rt: &impl Abort, alloc: Global, cases: &[Case]) -> Result<(), Fail> {
    for (names, classes, due) in cases {
        try_case(rt, alloc, names, classes, 4096, 10000, due)?;
    }
    Ok(())
}

pub fn try_mains(rt: &impl Abort, alloc: Global, cases: &[MainCase]) -> Result<(), Fail> {
    for (class, due) in cases {
        try_case(rt, alloc, "Main", &[*class], 4096, 10000, due)?;
    }
    Ok(())
}

pub fn try_limits(rt: &impl Abort, alloc: Global, cases: &[LimitCase]) -> Result<(), Fail> {
    for (heap, fuel, class, due) in cases {
        try_case(rt, alloc, "Main", &[*class], *heap, *fuel, due)?;
    }
    Ok(())
}
