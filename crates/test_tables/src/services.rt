//! Services, the portals to them and their names.

use crate::service_desk::Desk;
use crate::services::Step::{Bind, End, Export, Holds, Lookup};
use jx_base::{OutOfMemory, Refusal, Reply, text_of};
use std::alloc::Global;
use std::test::Fail;

// A step with the number of a domain; a name is a text of ASCII.
#[derive(Clone, Copy)]
enum Step {
    Export(u32),
    Bind(u32, &'static str, u32),
    Lookup(u32, &'static str),
    Holds(u32, u32),
    End(u32),
}

// The steps, and what comes of each: the number of a service, or a word for a reply; - where it
// can't be asked.
type Case = (&'static [Step], &'static str);

static CASES: [Case; 3] = [
    // Three names of one digest.
    (
        &[
            Export(1),
            Export(1),
            Bind(1, "!h", 1),
            Bind(1, "\"I", 2),
            Lookup(2, "!h"),
            Lookup(3, "\"I"),
            Lookup(2, "#*"),
            Holds(2, 1),
            Holds(2, 2),
            Holds(3, 2),
        ],
        " 1 2 done done 1 2 none yes no yes",
    ),
    // A name is bound twice, by a domain that isn't its owner, and again after its owner's end.
    (
        &[
            Export(1),
            Export(2),
            Bind(1, "echo", 1),
            Bind(1, "echo", 1),
            Bind(3, "echo", 2),
            Lookup(2, "echo"),
            Bind(2, "twin", 1),
            Bind(2, "echo", 2),
            End(1),
            Holds(1, 1),
            Holds(2, 1),
            Lookup(3, "echo"),
            Lookup(3, "twin"),
            Bind(2, "echo", 2),
            Lookup(3, "echo"),
            End(2),
            Lookup(3, "echo"),
            Bind(3, "echo", 2),
        ],
        " 1 2 done taken unheld 1 done taken done no yes none none done 2 done none done",
    ),
    // Numbers of no domain and of no service.
    (
        &[
            Export(0),
            Export(65),
            Export(64),
            Holds(64, 1),
            Holds(0, 1),
            Holds(65, 1),
            Holds(64, 0),
            Holds(64, 2),
            Bind(64, "a", 2),
            Lookup(65, "a"),
            End(0),
            End(65),
            Lookup(64, ""),
        ],
        " - - 1 yes no no no no unheld - - - none",
    ),
];

fn done(alloc: Global, desk: &mut Desk, step: Step) -> Result<Option<Reply>, OutOfMemory> {
    Ok(match step {
        Export(domain) => desk.export(domain),
        Bind(domain, name, service) => desk.bind(domain, &text_of(alloc, name)?, service),
        Lookup(domain, name) => desk.lookup(domain, &text_of(alloc, name)?),
        Holds(domain, service) => {
            if desk.holds(domain, service) {
                Some(Reply::Number(1))
            } else {
                Some(Reply::Number(0))
            }
        }
        End(domain) => desk.end_domain(domain),
    })
}

fn word(alloc: Global, reply: Option<Reply>) -> Result<String, OutOfMemory> {
    let text = match reply {
        None => "-",
        Some(Reply::Done) => "done",
        Some(Reply::NoName) => "none",
        Some(Reply::Number(0)) => "no",
        Some(Reply::Number(_)) => "yes",
        Some(Reply::Refused(Refusal::Taken)) => "taken",
        Some(Reply::Refused(Refusal::NotHeld)) => "unheld",
        Some(Reply::Refused(Refusal::TooMany)) => "full",
        Some(Reply::Service(service, _)) => return Ok(format!(in alloc; "{}", service.0)?),
        Some(_) => "?",
    };
    Ok(String::from_str(alloc, text)?)
}

fn told(alloc: Global, steps: &[Step]) -> Result<String, OutOfMemory> {
    let mut desk = Desk::open(alloc, 8208)?;
    let mut text = String::new(alloc);
    for step in steps {
        let reply = done(alloc, &mut desk, *step)?;
        text.push_str(" ")?;
        text.push_str(word(alloc, reply)?.as_str())?;
    }
    Ok(text)
}

#[test]
fn names_are_told_apart(rt: HostRuntime) -> Result<(), Fail> {
    for case in &CASES {
        assert_eq!(rt; told(rt.alloc(), case.0)?.as_str(), case.1);
    }
    Ok(())
}

#[test]
fn there_are_256_services(rt: HostRuntime) -> Result<(), Fail> {
    let mut desk = Desk::open(rt.alloc(), 8208)?;
    for _ in 0..256 {
        assert!(rt; matches!(desk.export(1), Some(Reply::Service(..))));
    }
    assert!(rt; matches!(desk.export(1), Some(Reply::Refused(Refusal::TooMany))));
    Ok(())
}
