//! The public calls.
ghost use Rattle.std.specs.Prelude.{◌≡◌, ◌≢◌, ◌↔◌};
ghost use Rattle.jx_base.specs.Files.{HasShelfFailed};
ghost use Rattle.jx_base.specs.Puts.{HasSinkFailed, TookNothing};
ghost use Rattle.jx_top.specs.Commands.{AsksFor, AsksForNothing, Command, IsSerial};
ghost use Rattle.jx_top.specs.Commands.{command_of, texts};
ghost use Rattle.jx_top.specs.Outcomes.{outcome_of};
ghost use Rattle.jx_top.specs.Requests.{HasCauseFor, IsDecidedFor, PutsFor};

use crate::assembling::assemble_class;
use crate::check::check_system;
use crate::commands::{WordsFault, read_words};
use crate::request::Request;
use crate::run::run_system;
use crate::status::Status;
use jx_base::{Gate, Shelf, Sink};
use std::alloc::Global;
use std::sync::Wait;
use std::thread::Threads;

// Does the request with one worker.
fn serve<L: Shelf, K: Sink>(alloc: Global, request: &Request, shelf: &mut L, sink: &mut K) -> Status
    requires { IsSerial (command_of request.now) }
    ensures puts { PutsFor (command_of request.now) (L.state shelf.old).told
        (K.state sink.old) (K.state sink.new) (outcome_of result) }
    ensures cause { HasCauseFor (command_of request.now) (L.state shelf.old).told
        (outcome_of result) }
    ensures shelf { result ≡ Status.ShelfFault
        → HasShelfFailed (L.state shelf.old) (L.state shelf.new) }
    ensures sink { result ≡ Status.SinkFault → HasSinkFailed (K.state sink.old) (K.state sink.new) }
{
    match request {
        Request::Run { file, workers: _ } => run_system(alloc, file.as_str(), shelf, sink),
        Request::Check { file } => check_system(alloc, file.as_str(), shelf, sink),
        Request::Asm { file } => assemble_class(alloc, file.as_str(), shelf, sink),
    }
}

/// Does the request with one worker. It waits for nobody.
pub fn jx_serial<L: Shelf, K: Sink>(
    alloc: Global,
    request: &Request,
    shelf: &mut L,
    sink: &mut K,
) -> Status
    requires { IsSerial (command_of request.now) }
    ensures puts { PutsFor (command_of request.now) (L.state shelf.old).told
        (K.state sink.old) (K.state sink.new) (outcome_of result) }
    ensures cause { HasCauseFor (command_of request.now) (L.state shelf.old).told
        (outcome_of result) }
    ensures decided { (HasShelfFailed (L.state shelf.old) (L.state shelf.new) → ⊥)
        → IsDecidedFor (command_of request.now) (L.state shelf.old).told (outcome_of result) }
    ensures request { result ≢ Status.Usage }
    ensures shelf { result ≡ Status.ShelfFault
        → HasShelfFailed (L.state shelf.old) (L.state shelf.new) }
    ensures sink { result ≡ Status.SinkFault → HasSinkFailed (K.state sink.old) (K.state sink.new) }
{
    serve(alloc, request, shelf, sink)
}

/// Reads the words behind the program's name, and does what they ask for.
pub fn jx_main<R: Threads + Wait + Sync, L: Shelf, K: Sink, G: Gate + Sync>(
    _rt: &R,
    alloc: Global,
    words: &[String],
    shelf: &mut L,
    sink: &mut K,
    _gate: &G,
) -> Status
    // The headline: of a run, what is put is the audit of a complete legal history of the system
    // that the files give; of a check it is how many classes and domains that system has; of an
    // assembly it is the class file that the text says.
    ensures puts { (c : Command) → AsksFor (texts words.now) c
        → PutsFor c (L.state shelf.old).told
        (K.state sink.old) (K.state sink.new) (outcome_of result) }
    ensures nothing { result ≡ Status.Usage → TookNothing (K.state sink.old) (K.state sink.new) }

    // Where the shelf doesn't fail, what its files give is what comes, but for memory and the sink.
    ensures decided { (c : Command) → AsksFor (texts words.now) c
        → (HasShelfFailed (L.state shelf.old) (L.state shelf.new) → ⊥)
        → IsDecidedFor c (L.state shelf.old).told (outcome_of result) }

    // Why it ended so.
    ensures cause { (c : Command) → AsksFor (texts words.now) c
        → HasCauseFor c (L.state shelf.old).told (outcome_of result) }
    ensures usage { (result ≡ Status.Usage) ↔ AsksForNothing (texts words.now) }
    ensures shelf { result ≡ Status.ShelfFault
        → HasShelfFailed (L.state shelf.old) (L.state shelf.new) }
    ensures sink { result ≡ Status.SinkFault → HasSinkFailed (K.state sink.old) (K.state sink.new) }
{
    match read_words(alloc, words) {
        Ok(request) => jx_serial(alloc, &request, shelf, sink),
        Err(WordsFault::Usage) => Status::Usage,
        Err(WordsFault::OutOfMemory) => Status::OutOfMemory,
    }
}
