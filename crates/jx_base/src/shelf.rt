//! Where files come from.
ghost use Rattle.std.specs.Prelude.{◌≡◌, ◌≢◌, ◌≤◌, ◌↔◌, Some, IsTrue};
ghost use Rattle.jx_base.specs.Files.{HasShelfFailed, IsAnswer, IsToldAnswer, ShelfState};
ghost use Rattle.jx_base.specs.InMemory.{file_of, file_entries, is_listed, fetch_fails};
ghost use Rattle.jx_base.specs.InMemory.{after_fetch, shown_by_shelf};

use std::alloc::Global;
use std::marker::Model;

/// What a fetch answers. `TooLong` stands for a file above 16 MiB, `Failed` for a fault of the
/// shelf.
#[derive(Drop)]
pub enum Fetch {
    Got(Vec<u8>),
    NotThere,
    TooLong,
    Failed,
    OutOfMemory,
}

/// A place where files lie under names.
pub trait Shelf {
    /// The files, where the shelf tells them, and how often it has failed. No fetch changes the
    /// files.
    ghost state: { Self → ShelfState };

    /// The file of the name, of at most 16 MiB.
    fn fetch(&mut self, alloc: Global, name: &str) -> Fetch
        ensures same { (state self.new).told ≡ (state self.old).told }
        ensures answer { IsAnswer (state self.old).told name.now result }
        ensures later { (state self.old).faults ≤ (state self.new).faults }
        ensures cause { result ≡ Fetch.Failed → HasShelfFailed (state self.old) (state self.new) };
}

/// The length of the longest file that is fetched, in bytes: 16 MiB.
pub const MAX_FILE: usize = 16_777_216;

// The first file of the name.
fn find(alloc: Global, files: &[(String, Vec<u8>)], name: &str) -> Fetch
    ensures answer { IsToldAnswer (file_of (file_entries files.now)) name.now result }
    ensures honest { result ≢ Fetch.Failed }
{
    for file in files {
        if file.0.as_str() == name {
            if file.1.len() > MAX_FILE {
                return Fetch::TooLong;
            }
            return match file.1.as_slice().to_vec(alloc) {
                Ok(bytes) => Fetch::Got(bytes),
                Err(_) => Fetch::OutOfMemory,
            };
        }
    }
    Fetch::NotThere
}

/// A shelf in memory that never fails. The first file of a name counts.
#[derive(Drop)]
pub struct HonestShelf {
    files: Vec<(String, Vec<u8>)>,
}

impl Model for HonestShelf {
    ghost use Rattle.std.specs.Prelude.{List};
    ghost use Rattle.jx_base.specs.InMemory.{FileEntry, file_entries};

    ghost Value = { List FileEntry };

    ghost view = { λ shelf. file_entries shelf.files.items };
}

impl HonestShelf {
    pub fn new(files: Vec<(String, Vec<u8>)>) -> HonestShelf
        ensures { result ≡ file_entries files.items }
    {
        HonestShelf { files }
    }
}

impl Shelf for HonestShelf {
    ghost state = { λ shelf. record { told = Some (file_of shelf); faults = 0 } };

    fn fetch(&mut self, alloc: Global, name: &str) -> Fetch {
        find(alloc, &self.files, name)
    }
}

/// Whether the call at this place is listed.
pub fn is_listed(failing: &[u32], place: u64) -> bool
    ensures { result ≡ is_listed failing.now place }
{
    failing.iter().any(|listed| u64::from(*listed) == place)
}

/// A shelf in memory that fails at the fetches whose places, from 0, are listed. The first file of
/// a name counts.
#[derive(Drop)]
pub struct MemoryShelf {
    files: Vec<(String, Vec<u8>)>,
    failing: Vec<u32>,
    calls: u64,
    faults: u64,
}

impl Model for MemoryShelf {
    ghost use Rattle.jx_base.specs.InMemory.{MemoryShelfState, file_entries};

    ghost Value = { MemoryShelfState };

    ghost view = { λ shelf. record {
      files = file_entries shelf.files.items;
      failing = shelf.failing.items;
      calls = shelf.calls;
      faults = shelf.faults;
    } };
}

impl MemoryShelf {
    pub fn new(files: Vec<(String, Vec<u8>)>, failing: Vec<u32>) -> MemoryShelf
        ensures { result ≡ record
            { files = file_entries files.items; failing = failing.items; calls = 0; faults = 0 } }
    {
        MemoryShelf {
            files,
            failing,
            calls: 0,
            faults: 0,
        }
    }
}

impl Shelf for MemoryShelf {
    ghost state = { shown_by_shelf };

    fn fetch(&mut self, alloc: Global, name: &str) -> Fetch
        ensures same { Some (file_of self.new.files) ≡ Some (file_of self.old.files) }
        ensures answer { IsAnswer (Some (file_of self.old.files)) name.now result }
        ensures later { self.old.faults ≤ self.new.faults }
        ensures cause { result ≡ Fetch.Failed
            → HasShelfFailed (shown_by_shelf self.old) (shown_by_shelf self.new) }
        ensures fails { result ≡ Fetch.Failed ↔ IsTrue (fetch_fails self.old) }
        ensures after { self.new ≡ after_fetch self.old }
    {
        let place = self.calls;
        self.calls = place.saturating_add(1);
        if is_listed(&self.failing, place) {
            self.faults = self.faults.saturating_add(1);
            return Fetch::Failed;
        }
        find(alloc, &self.files, name)
    }
}
