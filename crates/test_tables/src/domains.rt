//! Domains, and what their threads do.

use crate::domain_desk::Desk;
use crate::domains::Step::{End, Running, Serve, Set};
use jx_base::ThreadState::{Idle, Over, Running as Runs, Serving, Waiting, Yielded};
use jx_base::{CallId, Listed, OutOfMemory, Plan, Program, Reason, ServiceId, System, ThreadState};
use std::alloc::Global;
use std::test::Fail;

// A step with the number of a domain: it ends, has so many threads of a service more, has a thread
// in another state, or tells its thread that runs.
#[derive(Clone, Copy)]
enum Step {
    End(u32),
    Serve(u32, u32, u8),
    Set(u32, u32, ThreadState),
    Running(u32),
}

// A system without templates, classes and methods.
fn empty_system(alloc: Global) -> System {
    System {
        plan: Plan {
            granules: 1,
            journal: 8208,
            templates: Listed::from_vec(Vec::new(alloc)),
            classes: Listed::from_vec(Vec::new(alloc)),
        },
        program: Program {
            classes: Listed::from_vec(Vec::new(alloc)),
            methods: Listed::from_vec(Vec::new(alloc)),
            selectors: Listed::from_vec(Vec::new(alloc)),
        },
    }
}

// What comes of the steps: + where one is done, - where it can't be, the number of a thread. Behind
// a thread in another state stands the call that it serves.
static STEPS: [(Step, &'static str); 29] = [
    (Running(1), "0"),
    (Serve(1, 7, 2), "+"),
    (Serve(1, 8, 8), "+"),
    (Serve(1, 9, 9), "-"),
    (Serve(1, 9, 0), "-"),
    (Serve(0, 9, 1), "-"),
    (Serve(65, 9, 1), "-"),
    (Running(1), "0"),
    (Set(1, 0, Waiting(CallId(4))), "+"),
    (Running(1), "-"),
    (Set(1, 2, Serving(CallId(4))), "+4"),
    (Running(1), "2"),
    (Set(1, 1, Serving(CallId(5))), "+5"),
    (Running(1), "1"),
    (Set(1, 1, Waiting(CallId(6))), "+5"),
    (Running(1), "2"),
    (Set(1, 2, Yielded), "+4"),
    (Running(1), "-"),
    (Set(1, 1, Serving(CallId(5))), "+5"),
    (Set(1, 1, Idle(ServiceId(7))), "+"),
    (Set(1, 10, Serving(CallId(9))), "+9"),
    (Set(1, 11, Serving(CallId(9))), "-"),
    (Running(1), "10"),
    (Set(1, 0, Runs), "+"),
    (Running(1), "0"),
    (Set(2, 0, Over), "+"),
    (Running(2), "-"),
    (End(1), "+"),
    (Running(1), "-"),
];

fn set_text(
    alloc: Global,
    desk: &mut Desk,
    domain: u32,
    thread: u32,
    state: ThreadState,
) -> Result<String, OutOfMemory> {
    if !desk.set_thread(domain, thread, state) {
        return String::from_str(alloc, "-");
    }
    match desk.serves(domain, thread) {
        Some(call) => format!(in alloc; "+{}", call.0),
        None => String::from_str(alloc, "+"),
    }
}

fn mark(done: bool) -> &'static str {
    if done { "+" } else { "-" }
}

fn told(alloc: Global, desk: &mut Desk, step: Step) -> Result<String, OutOfMemory> {
    match step {
        End(domain) => String::from_str(alloc, mark(desk.end(domain, Reason::Killed))),
        Serve(domain, service, threads) => {
            String::from_str(alloc, mark(desk.serve(domain, service, threads)))
        }
        Set(domain, thread, state) => set_text(alloc, desk, domain, thread, state),
        Running(domain) => match desk.running(domain) {
            Some(thread) => format!(in alloc; "{thread}"),
            None => String::from_str(alloc, "-"),
        },
    }
}

#[test]
fn domains_have_threads_that_serve(rt: HostRuntime) -> Result<(), Fail> {
    let alloc = rt.alloc();
    let system = empty_system(alloc);
    let mut desk = Desk::open(alloc, &system)?;
    for number in 1..65 {
        assert_eq!(rt; desk.add(3, 0, number), Some(number));
    }
    assert_eq!(rt; desk.add(3, 0, 65), None);
    assert_eq!(rt; desk.made(), 64);
    for (step, due) in &STEPS {
        assert_eq!(rt; told(alloc, &mut desk, *step)?.as_str(), *due);
    }
    // A domain ends once, and keeps what its threads did.
    assert!(rt; !desk.end(1, Reason::Fuel));
    assert!(rt; !desk.serve(1, 9, 1));
    assert_eq!(rt; desk.made_with(1), Some((3, 0, 1)));
    assert!(rt; desk.was_killed(1));
    assert!(rt; desk.thread(1, 10).is_some());
    assert!(rt; desk.thread(1, 11).is_none());
    assert_eq!(rt; desk.service(1, 0), None);
    assert_eq!(rt; desk.service(1, 2), Some(7));
    assert_eq!(rt; desk.service(1, 3), Some(8));
    // The others stay as they were made.
    assert_eq!(rt; desk.made_with(64), Some((3, 0, 64)));
    assert!(rt; !desk.was_killed(64));
    assert_eq!(rt; desk.made_with(0), None);
    assert_eq!(rt; desk.made_with(65), None);
    Ok(())
}
