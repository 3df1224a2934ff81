//! Assembling the text of a file.
ghost use Rattle.std.specs.Prelude.{◌≡◌, ◌≤◌, ◌^◌, length, IsErrOf};
ghost use Rattle.jx_base.specs.Files.{HasShelfFailed};
ghost use Rattle.jx_base.specs.Puts.{HasSinkFailed};
ghost use Rattle.jx_top.specs.Assemblies.{AssemblesText};
ghost use Rattle.jx_top.specs.Commands.{Asm};
ghost use Rattle.jx_top.specs.Outcomes.{outcome_of};
ghost use Rattle.jx_top.specs.Requests.{HasCauseFor, PutsFor};
ghost use Rattle.jx_top.specs.Steps.{FindsText, PutsText};

use crate::fetching::fetch_bytes;
use crate::status::Status;
use class_asm::{AsmError, assemble};
use jx_base::{Failed, Shelf, Sink};
use page_text::put_bytes;
use std::alloc::Global;

// The class file that the text says.
fn assemble_text(alloc: Global, text: &[u8]) -> Result<Vec<u8>, Status>
    requires { length text.now ≤ 2 ^ 31 }
    ensures { AssemblesText text.now result }
{
    match assemble(alloc, text) {
        Ok(bytes) => Ok(bytes),
        Err(AsmError::Bad(fault)) => Err(Status::BadAsm(fault)),
        Err(AsmError::OutOfMemory) => Err(Status::OutOfMemory),
    }
}

// The class file that the text of the file says.
fn assemble_file<L: Shelf>(alloc: Global, file: &str, shelf: &mut L) -> Result<Vec<u8>, Status>
    ensures bytes { FindsText (L.state shelf.old).told file.now result }
    ensures cause { IsErrOf result Status.ShelfFault
        → HasShelfFailed (L.state shelf.old) (L.state shelf.new) }
{
    let text = fetch_bytes(alloc, file, shelf)?;
    assemble_text(alloc, &text)
}

// Puts the class file.
fn put_class_file<K: Sink>(bytes: &[u8], sink: &mut K) -> Status
    ensures puts { PutsText bytes.now (K.state sink.old) (K.state sink.new) (outcome_of result) }
    ensures cause { result ≡ Status.SinkFault
        → HasSinkFailed (K.state sink.old) (K.state sink.new) }
{
    match put_bytes(bytes, sink) {
        Ok(()) => Status::Done,
        Err(Failed) => Status::SinkFault,
    }
}

/// Fetches the text of the file, assembles it and puts the class file that it says.
pub fn assemble_class<L: Shelf, K: Sink>(
    alloc: Global,
    file: &str,
    shelf: &mut L,
    sink: &mut K,
) -> Status
    ensures puts { PutsFor (Asm file.now) (L.state shelf.old).told
        (K.state sink.old) (K.state sink.new) (outcome_of result) }
    ensures cause { HasCauseFor (Asm file.now) (L.state shelf.old).told (outcome_of result) }
    ensures shelf { result ≡ Status.ShelfFault
        → HasShelfFailed (L.state shelf.old) (L.state shelf.new) }
    ensures sink { result ≡ Status.SinkFault → HasSinkFailed (K.state sink.old) (K.state sink.new) }
{
    match assemble_file(alloc, file, shelf) {
        Ok(bytes) => put_class_file(&bytes, sink),
        Err(status) => status,
    }
}
