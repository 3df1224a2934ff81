//! Whole texts: the keys of a description itself.

use crate::answers::answer;
use std::test::Fail;

static TEXTS: [(&[u8], &str); 47] = [
    // the numbers
    (b"", "missing granules"),
    (b"granules = 0", "range granules"),
    (b"granules = 1", "plan"),
    (b"granules = 0x10", "plan"),
    (b"granules = 262_144", "plan"),
    (b"granules = 262145", "range granules"),
    (b"granules = -1", "range granules"),
    (b"granules = -9223372036854775808", "range granules"),
    (b"granules = 9223372036854775807", "range granules"),
    (b"granules = 9223372036854775808", "not toml"),
    (b"granules = 1\njournal = 8207", "range journal"),
    (b"granules = 1\njournal = 8208", "plan"),
    (b"granules = 1\njournal = 16777216", "plan"),
    (b"granules = 1\njournal = 16777217", "range journal"),
    // kinds of values
    (b"granules = 1.0", "kind granules"),
    (b"granules = inf", "kind granules"),
    (b"granules = true", "kind granules"),
    (b"granules = '1'", "kind granules"),
    (b"granules = [1]", "kind granules"),
    (b"granules = {}", "kind granules"),
    (b"granules.low = 1", "kind granules"),
    (b"granules = 1979-05-27", "kind granules"),
    (b"granules = 07:32:00", "kind granules"),
    (b"granules = 1\njournal = 'x'", "kind journal"),
    (b"granules = 1\ndomain = 1", "kind domain"),
    (b"granules = 1\ndomain = {}", "kind domain"),
    (b"granules = 1\n[domain]", "kind domain"),
    (b"granules = 1\ndomain = [1]", "kind domain"),
    (b"granules = 1\ndomain = []", "plan"),
    // which of two faults counts
    (b"journal = 1", "missing granules"),
    (b"a = 1", "missing granules"),
    (b"granules = 0\njournal = true", "range granules"),
    (b"journal = true\ngranules = 0", "range granules"),
    (b"granules = 1\njournal = true\ndomain = 1", "kind journal"),
    (b"granules = 1\na = 1\ndomain = 1", "kind domain"),
    (b"granules = 1\na = 1\n[[domain]]", "missing domain[0].name"),
    (b"granules = 1\nb = 1\na = 1", "unknown a"),
    (b"granules = 1\na = 1\nB = 1", "unknown B"),
    (b"granules = 1\n'' = 1", "unknown "),
    (b"granules = 1\n\"\\U0001F600\" = 1", "unknown ##"),
    (b"granules = 1\ngranules = 1", "not toml"),
    (b"granules = 01", "not toml"),
    (b"granules", "not toml"),
    // bytes that are no text, and a letter beyond ASCII
    (b"granules = 1 # \xff", "not toml"),
    (b"granules = 1 # \xc3\xa9", "plan"),
    // domains in other forms
    (
        b"granules = 1\ndomain = [{ name = 'a', classes = ['A'], main = 'A', heap = 16, fuel = 0 }]",
        "plan",
    ),
    (
        b"granules = 1\ndomain = [{ name.first = 'a' }]",
        "kind domain[0].name",
    ),
];

#[test]
fn texts_are_read_or_have_these_first_faults(rt: HostRuntime) -> Result<(), Fail> {
    let alloc = rt.alloc();
    for (i, (text, wanted)) in TEXTS.iter().enumerate() {
        assert_eq!(rt; answer(alloc, text)?.as_str(), *wanted, "text {i}");
    }
    Ok(())
}
