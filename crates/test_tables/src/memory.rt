//! Memory objects, and the extents that go out of use.

use crate::memory::Step::{Check, End, Release, Revoke, Root, Size, Split, Sub, Unused};
use jx_base::{DomainId, ObjectId, OutOfMemory, Refusal, Reply};
use memory_objects::Objects;
use std::alloc::Global;
use std::test::Fail;

// A step with the numbers of what it is done to.
#[derive(Clone, Copy)]
enum Step {
    Root(u32, u32),
    Sub(u32, i32, i32),
    Split(u32, i32),
    Revoke(u32),
    Release(u32),
    Size(u32),
    Check(u32, i32, i32),
    End,
    Unused,
}

// The domain of a step, the step, and what comes of it: numbers, + where it is done, and a refusal's
// name.
static STEPS: [(u32, Step, &'static str); 27] = [
    (1, Root(1, 100), "1"),
    (1, Sub(1, 10, 20), "2"),
    (1, Sub(2, 5, 5), "3"),
    (2, Size(1), "not held"),
    (1, Size(3), "5"),
    (1, Check(3, 1, 4), "1 16"),
    (1, Check(3, 2, 4), "range"),
    (1, Check(3, -1, 4), "range"),
    (1, Check(3, 5, 0), "1 20"),
    (1, Revoke(2), "4"),
    (1, Size(3), "revoked"),
    (1, Check(2, 90, 90), "revoked"),
    (1, Size(1), "100"),
    (1, Split(4, 8), "5 6"),
    (1, Check(6, 0, 12), "1 18"),
    (1, Release(1), "+"),
    (1, Unused, "-"),
    (2, Root(2, 1), "7"),
    (1, End, "+"),
    (0, Unused, "1"),
    (0, Unused, "-"),
    (2, Sub(7, 0, 0), "range"),
    (2, Split(7, 1), "range"),
    (0, Root(3, 1), "-"),
    (2, Release(7), "+"),
    (2, Release(7), "not held"),
    (0, Unused, "2"),
];

fn name(refusal: Refusal) -> &'static str {
    match refusal {
        Refusal::NotHeld => "not held",
        Refusal::Revoked => "revoked",
        Refusal::Range => "range",
        Refusal::TooMany => "too many",
        _ => "?",
    }
}

fn reply_text(alloc: Global, reply: Reply) -> Result<String, OutOfMemory> {
    match reply {
        Reply::Done => String::from_str(alloc, "+"),
        Reply::Object(object) => format!(in alloc; "{}", object.0),
        Reply::Pair(left, right) => format!(in alloc; "{} {}", left.0, right.0),
        Reply::Refused(refusal) => String::from_str(alloc, name(refusal)),
        _ => String::from_str(alloc, "?"),
    }
}

fn number_text(alloc: Global, number: Option<u32>) -> Result<String, OutOfMemory> {
    match number {
        Some(number) => format!(in alloc; "{number}"),
        None => String::from_str(alloc, "-"),
    }
}

fn root(objects: &mut Objects, domain: u32, extent: u32, size: u32) -> Option<u32> {
    if domain == 0 || domain > 64 {
        return None;
    }
    Some(objects.root(DomainId(domain), extent, size)?.0)
}

fn end(objects: &mut Objects, domain: u32) -> &'static str {
    if domain == 0 || domain > 64 {
        return "-";
    }
    objects.end_domain(DomainId(domain));
    "+"
}

fn size_text(alloc: Global, size: Result<u32, Refusal>) -> Result<String, OutOfMemory> {
    match size {
        Ok(size) => format!(in alloc; "{size}"),
        Err(refusal) => String::from_str(alloc, name(refusal)),
    }
}

fn place_text(alloc: Global, place: Result<(u32, u32), Refusal>) -> Result<String, OutOfMemory> {
    match place {
        Ok((extent, byte)) => format!(in alloc; "{extent} {byte}"),
        Err(refusal) => String::from_str(alloc, name(refusal)),
    }
}

fn done(alloc: Global, objects: &mut Objects, d: u32, step: Step) -> Result<String, OutOfMemory> {
    let domain = DomainId(d);
    match step {
        Root(extent, size) => number_text(alloc, root(objects, d, extent, size)),
        Sub(m, at, count) => reply_text(alloc, objects.sub(domain, ObjectId(m), at, count)),
        Split(m, at) => reply_text(alloc, objects.split(domain, ObjectId(m), at)),
        Revoke(m) => reply_text(alloc, objects.revoke(domain, ObjectId(m))),
        Release(m) => reply_text(alloc, objects.release(domain, ObjectId(m))),
        Size(m) => size_text(alloc, objects.size(domain, ObjectId(m))),
        Check(m, at, count) => place_text(alloc, objects.check(domain, ObjectId(m), at, count)),
        End => String::from_str(alloc, end(objects, d)),
        Unused => number_text(alloc, objects.unused()),
    }
}

#[test]
fn objects_end_with_what_they_derive_from(rt: HostRuntime) -> Result<(), Fail> {
    let mut objects = Objects::open(rt.alloc())?;
    for (domain, step, told) in &STEPS {
        assert_eq!(rt;
            done(rt.alloc(), &mut objects, *domain, *step)?.as_str(),
            *told
        );
    }
    Ok(())
}
