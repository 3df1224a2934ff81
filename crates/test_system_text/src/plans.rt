//! Whole plans, and descriptions of many domains and classes.

use crate::answers::{answer, shown};
use crate::domains::push_domain;
use jx_base::{OutOfMemory, Plan};
use std::alloc::Global;
use std::test::Fail;
use system_text::{one_class, read_system};

// The answer to a description of so many domains.
fn answer_to_domains(alloc: Global, count: u32) -> Result<String, OutOfMemory> {
    let mut text = String::from_str(alloc, "granules = 1\n")?;
    for number in 0..count {
        let name = format!(in alloc; "'d{number}'")?;
        push_domain(&mut text, [name.as_str(), "['A']", "'A'", "16", "0", ""])?;
    }
    answer(alloc, text.as_bytes())
}

// A domain of the classes `C` with these numbers, of which the first one is its main class.
fn push_classes(
    text: &mut String,
    alloc: Global,
    name: &str,
    numbers: (u32, u32),
) -> Result<(), OutOfMemory> {
    let mut list = String::from_str(alloc, "[")?;
    for number in numbers.0..numbers.1 {
        let class = format!(in alloc; "'C{number}', ")?;
        list.push_str(class.as_str())?;
    }
    list.push(']')?;
    let main = format!(in alloc; "'C{}'", numbers.0)?;
    push_domain(text, [name, list.as_str(), main.as_str(), "16", "0", ""])
}

// The answer to a description of two domains of these classes.
fn answer_to_classes(
    alloc: Global,
    first: (u32, u32),
    second: (u32, u32),
) -> Result<String, OutOfMemory> {
    let mut text = String::from_str(alloc, "granules = 1\n")?;
    push_classes(&mut text, alloc, "'a'", first)?;
    push_classes(&mut text, alloc, "'b'", second)?;
    answer(alloc, text.as_bytes())
}

#[test]
fn no_more_than_64_domains_and_256_classes(rt: HostRuntime) -> Result<(), Fail> {
    let alloc = rt.alloc();
    for (count, wanted) in [(0, "plan"), (64, "plan"), (65, "range domain")] {
        assert_eq!(rt;
            answer_to_domains(alloc, count)?.as_str(),
            wanted,
            "{count}"
        );
    }
    for (first, second, wanted) in [
        ((0, 256), (0, 256), "plan"),
        ((0, 257), (0, 1), "range domain[0].classes"),
        ((0, 200), (200, 256), "plan"),
        ((0, 200), (200, 257), "range domain[1].classes"),
    ] {
        let answer = answer_to_classes(alloc, first, second)?;
        assert_eq!(rt; answer.as_str(), wanted, "{second:?}");
    }
    Ok(())
}

fn two_domains(alloc: Global) -> Result<Option<Plan>, OutOfMemory> {
    let mut text = String::from_str(alloc, "granules = 7\n")?;
    push_domain(&mut text, ["'a'", "['A', 'B']", "'B'", "16", "5", "false"])?;
    push_domain(&mut text, ["'b'", "['C', 'B']", "'C'", "20", "6", ""])?;
    Ok(read_system(alloc, text.as_bytes()).ok())
}

#[test]
fn plans_are_as_described(rt: HostRuntime) -> Result<(), Fail> {
    let alloc = rt.alloc();
    let two = two_domains(alloc)?.ok_or("a plan")?;
    let one = one_class(alloc, "a/B")?;
    for (plan, wanted) in [
        (
            &two,
            "7 1048576 | A B C | a 1 16 5 false [0, 1] | b 2 20 6 true [2, 1]",
        ),
        (&one, "16384 1048576 | a/B | main 0 1024 1000000 true [0]"),
    ] {
        assert_eq!(rt; shown(alloc, plan)?.as_str(), wanted);
    }
    Ok(())
}
