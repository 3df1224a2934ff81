//! Cases of linking, one after another.

use crate::answers::{Shown, answer};
use crate::reading::linked;
use std::alloc::Global;
use std::process::Abort;
use std::test::Fail;

/// The lists of classes, their short texts in the plan's order, what is shown of the system, and the
/// answer.
pub type Case = (&'static str, &'static [&'static str], Shown, &'static str);

/// The lists, the texts, and the first fault; `linked` where there is none.
pub type FaultCase = (&'static str, &'static [&'static str], &'static str);

/// A class that has nothing but main.
pub const A: &str = "CLASS A OBJECT|MAIN|END";

pub const B: &str = "CLASS B OBJECT";

pub const C: &str = "CLASS C OBJECT|MAIN|END";

pub const K: &str = "INTERFACE K OBJECT";

/// Asserts what is shown of the system, or its first fault.
pub fn try_shown(
    rt: &impl Abort,
    alloc: Global,
    lists: &str,
    classes: &[&str],
    shown: Shown,
    due: &str,
) -> Result<(), Fail> {
    let answer = answer(alloc, linked(alloc, lists, classes), shown)?;
    assert_eq!(rt; answer.as_str(), due, "{lists}: {classes:?}");
    Ok(())
}

pub fn try_faults(rt: &impl Abort, alloc: Global, cases: &[FaultCase]) -> Result<(), Fail> {
    for (lists, classes, due) in cases {
        try_shown(rt, alloc, lists, classes, Shown::Whole, due)?;
    }
    Ok(())
}
