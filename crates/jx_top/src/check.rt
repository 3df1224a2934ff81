//! The check of a system.
ghost use Rattle.std.specs.Prelude.{◌≡◌};
ghost use Rattle.jx_base.specs.Files.{HasShelfFailed};
ghost use Rattle.jx_base.specs.Puts.{HasSinkFailed};
ghost use Rattle.jx_top.specs.Commands.{Check, IsSystemName};
ghost use Rattle.jx_top.specs.Outcomes.{outcome_of};
ghost use Rattle.jx_top.specs.Requests.{HasCauseFor, PutsFor};
ghost use Rattle.jx_top.specs.StatusLines.{counts_line};
ghost use Rattle.jx_top.specs.Steps.{PutsText};

use crate::finding::find_system;
use crate::status::Status;
use jx_base::{Failed, Plan, Shelf, Sink};
use page_text::Piece::{Number, Plain};
use page_text::put_line;
use std::alloc::Global;

// Says how many classes the plan has, and how many kinds of domains.
#[tactic(auto, unfolding(page_text::specs::Pieces::piece_text))]
fn put_counts<K: Sink>(plan: &Plan, sink: &mut K) -> Status
    ensures puts { PutsText (counts_line plan.now) (K.state sink.old) (K.state sink.new)
        (outcome_of result) }
    ensures cause { result ≡ Status.SinkFault
        → HasSinkFailed (K.state sink.old) (K.state sink.new) }
{
    let classes = plan.classes.as_slice().len() as u64;
    let templates = plan.templates.as_slice().len() as u64;
    match put_line(&[Plain("ok"), Number(classes), Number(templates)], sink) {
        Ok(()) => Status::Done,
        Err(Failed) => Status::SinkFault,
    }
}

/// Links the system of the file, and says how many classes and kinds of domains it has.
pub fn check_system<L: Shelf, K: Sink>(
    alloc: Global,
    file: &str,
    shelf: &mut L,
    sink: &mut K,
) -> Status
    requires { IsSystemName file.now }
    ensures puts { PutsFor (Check file.now) (L.state shelf.old).told
        (K.state sink.old) (K.state sink.new) (outcome_of result) }
    ensures cause { HasCauseFor (Check file.now) (L.state shelf.old).told (outcome_of result) }
    ensures shelf { result ≡ Status.ShelfFault
        → HasShelfFailed (L.state shelf.old) (L.state shelf.new) }
    ensures sink { result ≡ Status.SinkFault → HasSinkFailed (K.state sink.old) (K.state sink.new) }
{
    match find_system(alloc, file, shelf) {
        Ok(system) => put_counts(&system.plan, sink),
        Err(status) => status,
    }
}
