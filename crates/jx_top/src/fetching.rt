//! Fetching a file.
ghost use Rattle.std.specs.Prelude.{◌≡◌, ◌≤◌, Some, length, IsErrOf, IfErr, IfOk, MatchResult};
ghost use Rattle.std.specs.Prelude.{string_bytes};
ghost use Rattle.jx_base.specs.Files.{Files, HasShelfFailed, longest_file};
ghost use Rattle.jx_top.specs.GotFiles.{CanFailFetch, FetchesBytes};
ghost use Rattle.jx_top.specs.Outcomes.{outcome_of};

use crate::status::Status;
use jx_base::{Fetch, Shelf};
use std::alloc::Global;

/// The text again, for a status.
pub fn copy_of(alloc: Global, text: &str) -> Result<String, Status>
    ensures { MatchResult result
        (λ copy. string_bytes copy ≡ text.now) (λ status. status ≡ Status.OutOfMemory) }
{
    String::from_str(alloc, text).map_err(|_| Status::OutOfMemory)
}

/// The bytes of the file.
pub fn fetch_bytes<L: Shelf>(alloc: Global, file: &str, shelf: &mut L) -> Result<Vec<u8>, Status>
    ensures bytes { (files : Files) → (L.state shelf.old).told ≡ Some files
        → FetchesBytes files file.now result }
    ensures short { IfOk result (λ bytes. length bytes.items ≤ longest_file) }
    ensures ends { IfErr result (λ status. CanFailFetch (outcome_of status)) }
    ensures same { (L.state shelf.new).told ≡ (L.state shelf.old).told }
    ensures later { (L.state shelf.old).faults ≤ (L.state shelf.new).faults }
    ensures cause { IsErrOf result Status.ShelfFault
        → HasShelfFailed (L.state shelf.old) (L.state shelf.new) }
{
    match shelf.fetch(alloc, file) {
        Fetch::Got(bytes) => Ok(bytes),
        Fetch::NotThere => Err(Status::Missing(copy_of(alloc, file)?)),
        Fetch::TooLong => Err(Status::TooLong(copy_of(alloc, file)?)),
        Fetch::Failed => Err(Status::ShelfFault),
        Fetch::OutOfMemory => Err(Status::OutOfMemory),
    }
}
