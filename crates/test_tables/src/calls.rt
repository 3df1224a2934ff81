//! Calls, and the queues of their services.

use crate::call_desk::Desk;
use crate::calls::Step::{Answer, End, First, Queue, Resume, Take};
use jx_base::{AnswerKind, CallState, OutOfMemory};
use std::alloc::Global;
use std::test::Fail;

// A step with the number of a service or of a call.
#[derive(Clone, Copy)]
enum Step {
    Queue(u32),
    First(u32),
    Take(u32),
    Answer(u32, AnswerKind),
    Resume(u32),
    End(u32),
}

// How many calls there may be, the steps, and what comes of each: the number of a call or of a
// service, or - where it can't be done. Then the states of all calls, each a letter.
type Case = (u32, &'static [Step], &'static str);

static CASES: [Case; 3] = [
    // The middle one of a queue is answered. A service ends with a call queued and one that runs.
    (
        5,
        &[
            Queue(7),
            Queue(256),
            Queue(7),
            Queue(7),
            Queue(256),
            Queue(7),
            First(7),
            Answer(3, AnswerKind::Discarded),
            Take(7),
            Take(7),
            Take(7),
            First(7),
            First(256),
            Resume(4),
            Answer(4, AnswerKind::Value),
            Resume(4),
            Answer(4, AnswerKind::Value),
            Take(256),
            End(256),
            Resume(5),
            Answer(6, AnswerKind::Value),
            Answer(0, AnswerKind::Value),
        ],
        " 1 2 3 4 5 - 1 3 1 4 - - 2 - 4 4 - 2 256 5 - -: rEDgg",
    ),
    // The first and the last one of a queue are answered, which then is filled again.
    (
        6,
        &[
            Queue(1),
            Queue(1),
            Queue(1),
            Answer(1, AnswerKind::CopyFailed),
            Answer(3, AnswerKind::Thrown),
            First(1),
            Queue(1),
            Take(1),
            Take(1),
            Queue(1),
            First(1),
            End(2),
            Resume(1),
        ],
        " 1 2 3 1 3 2 4 2 4 5 5 2 1: grTrq",
    ),
    (
        1,
        &[
            Queue(0),
            Queue(257),
            First(0),
            First(257),
            Take(257),
            End(257),
            Queue(3),
            Queue(3),
        ],
        " - - - - - 257 1 -: q",
    ),
];

fn done(desk: &mut Desk, step: Step) -> Option<u32> {
    match step {
        Queue(service) => desk.queue(service),
        First(service) => desk.first(service),
        Take(service) => desk.take(service),
        Answer(call, kind) => desk.answer(call, kind),
        Resume(call) => desk.resume(call),
        End(service) => {
            desk.end_service(service);
            Some(service)
        }
    }
}

fn letter(state: Option<CallState>) -> &'static str {
    match state {
        None => "-",
        Some(CallState::Queued) => "q",
        Some(CallState::Running) => "r",
        Some(CallState::Resumed) => "g",
        Some(CallState::Answered(kind)) => match kind {
            AnswerKind::Value => "V",
            AnswerKind::Thrown => "T",
            AnswerKind::CopyFailed => "C",
            AnswerKind::Ended => "E",
            AnswerKind::Discarded => "D",
        },
    }
}

fn told(alloc: Global, case: &Case) -> Result<String, OutOfMemory> {
    let mut desk = Desk::open(alloc, case.0)?;
    let mut text = String::new(alloc);
    for step in case.1 {
        match done(&mut desk, *step) {
            Some(number) => text.push_str(format!(in alloc; " {number}")?.as_str())?,
            None => text.push_str(" -")?,
        }
    }
    text.push_str(": ")?;
    for place in 0..desk.made() {
        text.push_str(letter(desk.state(place.saturating_add(1))))?;
    }
    Ok(text)
}

#[test]
fn calls_stand_in_the_queues_of_their_services(rt: HostRuntime) -> Result<(), Fail> {
    for case in &CASES {
        assert_eq!(rt; told(rt.alloc(), case)?.as_str(), case.2);
    }
    Ok(())
}
