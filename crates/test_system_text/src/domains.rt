//! The keys of domains.

use crate::answers::answer;
use jx_base::OutOfMemory;
use std::alloc::Global;
use std::test::Fail;

/// A domain's table with these values, each left out where it is empty.
pub fn push_domain(text: &mut String, values: [&str; 6]) -> Result<(), OutOfMemory> {
    text.push_str("[[domain]]\n")?;
    let keys = ["name", "classes", "main", "heap", "fuel", "boot"];
    for (key, value) in keys.iter().zip(&values) {
        if !value.is_empty() {
            text.push_str(key)?;
            text.push_str(" = ")?;
            text.push_str(value)?;
            text.push('\n')?;
        }
    }
    Ok(())
}

// The answer to a description of that front, of a domain of these values, and of this line.
fn answer_to(
    alloc: Global,
    front: &str,
    values: [&str; 6],
    line: &str,
) -> Result<String, OutOfMemory> {
    let mut text = String::from_str(alloc, front)?;
    push_domain(&mut text, values)?;
    text.push_str(line)?;
    answer(alloc, text.as_bytes())
}

// The values of the last domain, what stands behind them, and the answer.
type Case = ([&'static str; 6], &'static str, &'static str);

const FIRST: &str = "granules = 1\n";

static FIRST_DOMAINS: [Case; 46] = [
    // names
    (
        ["", "['A']", "'A'", "16", "0", ""],
        "",
        "missing domain[0].name",
    ),
    (
        ["1", "['A']", "'A'", "16", "0", ""],
        "",
        "kind domain[0].name",
    ),
    (
        ["''", "['A']", "'A'", "16", "0", ""],
        "",
        "range domain[0].name",
    ),
    (
        ["'a b'", "['A']", "'A'", "16", "0", ""],
        "",
        "range domain[0].name",
    ),
    (["'!~'", "['A']", "'A'", "16", "0", ""], "", "plan"),
    (
        ["\"\\u007f\"", "['A']", "'A'", "16", "0", ""],
        "",
        "range domain[0].name",
    ),
    (
        ["'\u{e9}'", "['A']", "'A'", "16", "0", ""],
        "",
        "range domain[0].name",
    ),
    // classes, and the main one
    (
        ["'a'", "", "'A'", "16", "0", ""],
        "",
        "missing domain[0].classes",
    ),
    (
        ["'a'", "'A'", "'A'", "16", "0", ""],
        "",
        "kind domain[0].classes",
    ),
    (
        ["'a'", "[1]", "'A'", "16", "0", ""],
        "",
        "kind domain[0].classes",
    ),
    (
        ["'a'", "['A', 1]", "'A'", "16", "0", ""],
        "",
        "kind domain[0].classes",
    ),
    (
        ["'a'", "[]", "'A'", "16", "0", ""],
        "",
        "range domain[0].classes",
    ),
    (
        ["'a'", "['java/A']", "'java/A'", "16", "0", ""],
        "",
        "range domain[0].classes",
    ),
    (
        ["'a'", "['A', '']", "'A'", "16", "0", ""],
        "",
        "range domain[0].classes",
    ),
    (
        ["'a'", "['/A', '/A']", "'/A'", "16", "0", ""],
        "",
        "range domain[0].classes",
    ),
    (["'a'", "['A', 'A']", "'A'", "16", "0", ""], "", "twice A"),
    (
        ["'a'", "['A', 'B', 'B', 'A']", "'A'", "16", "0", ""],
        "",
        "twice B",
    ),
    (["'a'", "['A', 'B']", "'B'", "16", "0", ""], "", "plan"),
    (
        ["'a'", "['A']", "", "16", "0", ""],
        "",
        "missing domain[0].main",
    ),
    (
        ["'a'", "['A']", "1", "16", "0", ""],
        "",
        "kind domain[0].main",
    ),
    (
        ["'a'", "['A']", "'B'", "16", "0", ""],
        "",
        "range domain[0].main",
    ),
    (
        ["'a'", "", "", "16", "0", ""],
        "",
        "missing domain[0].classes",
    ),
    // sizes
    (
        ["'a'", "['A']", "'A'", "", "0", ""],
        "",
        "missing domain[0].heap",
    ),
    (
        ["'a'", "['A']", "'A'", "true", "0", ""],
        "",
        "kind domain[0].heap",
    ),
    (
        ["'a'", "['A']", "'A'", "16.0", "0", ""],
        "",
        "kind domain[0].heap",
    ),
    (
        ["'a'", "['A']", "'A'", "15", "0", ""],
        "",
        "range domain[0].heap",
    ),
    (["'a'", "['A']", "'A'", "131072", "0", ""], "", "plan"),
    (
        ["'a'", "['A']", "'A'", "131073", "0", ""],
        "",
        "range domain[0].heap",
    ),
    (
        ["'a'", "['A']", "'A'", "16", "", ""],
        "",
        "missing domain[0].fuel",
    ),
    (
        ["'a'", "['A']", "'A'", "16", "'0'", ""],
        "",
        "kind domain[0].fuel",
    ),
    (
        ["'a'", "['A']", "'A'", "16", "-1", ""],
        "",
        "range domain[0].fuel",
    ),
    (["'a'", "['A']", "'A'", "16", "100000000", ""], "", "plan"),
    (
        ["'a'", "['A']", "'A'", "16", "100000001", ""],
        "",
        "range domain[0].fuel",
    ),
    (
        ["'a'", "['A']", "'A'", "16", "0", "1"],
        "",
        "kind domain[0].boot",
    ),
    (["'a'", "['A']", "'A'", "16", "0", "true"], "", "plan"),
    (["'a'", "['A']", "'A'", "16", "0", "false"], "", "plan"),
    (
        ["'a'", "['A']", "'A'", "", "", ""],
        "",
        "missing domain[0].heap",
    ),
    (
        ["'a'", "['A']", "'A'", "15", "", ""],
        "",
        "range domain[0].heap",
    ),
    (
        ["'a'", "['A']", "'A'", "16", "-1", "1"],
        "",
        "range domain[0].fuel",
    ),
    // other keys
    (
        ["'a'", "['A']", "'A'", "16", "0", ""],
        "size = 1",
        "unknown domain[0].size",
    ),
    (
        ["'a'", "['A']", "'A'", "16", "0", ""],
        "z = 1\nb.c = 1",
        "unknown domain[0].b",
    ),
    (
        ["'a'", "['A']", "'A'", "16", "0", ""],
        "\"\\U0001F600\" = 1",
        "unknown domain[0].##",
    ),
    (
        ["'a'", "['A']", "'A'", "16", "0", "1"],
        "size = 1",
        "kind domain[0].boot",
    ),
    (
        ["'a'", "['A']", "'A'", "16", "0", ""],
        "heap = 17",
        "not toml",
    ),
    (
        ["'a'", "['A']", "'A'", "16", "0", ""],
        "[other]",
        "unknown other",
    ),
    (
        ["'a'", "['A']", "'A'", "16", "0", ""],
        "size = 1\n[other]",
        "unknown other",
    ),
];

// The domain `a`, whose key `size` is unknown.
const LATER: &str =
    "granules = 1\n[[domain]]\nname = 'a'\nclasses = ['A']\nmain = 'A'\nheap = 16\nfuel = 0\nsize = 1\n";

static LATER_DOMAINS: [Case; 5] = [
    (["'a'", "['B']", "'B'", "16", "0", ""], "", "twice a"),
    (
        ["'b'", "['B']", "'B'", "16", "0", ""],
        "",
        "unknown domain[0].size",
    ),
    (
        ["'b'", "['B']", "'B'", "", "0", ""],
        "",
        "missing domain[1].heap",
    ),
    (["'a'", "['B']", "'B'", "", "0", ""], "", "twice a"),
    (
        ["'b'", "['B']", "'B'", "16", "-1", ""],
        "",
        "range domain[1].fuel",
    ),
];

#[test]
fn domains_are_read_or_have_these_first_faults(rt: HostRuntime) -> Result<(), Fail> {
    let alloc = rt.alloc();
    for (front, cases) in [
        (FIRST, FIRST_DOMAINS.as_slice()),
        (LATER, LATER_DOMAINS.as_slice()),
    ] {
        for (values, line, wanted) in cases {
            let answer = answer_to(alloc, front, *values, line)?;
            assert_eq!(rt; answer.as_str(), *wanted, "{values:?} {line}");
        }
    }
    Ok(())
}
