//! The folder and the streams of the system. They tell no content.
ghost use Rattle.std.specs.Prelude.{None};

use jx_base::{Failed, Fetch, MAX_FILE, Shelf, Sink};
use std::alloc::Global;
use std::io::{ErrorKind, Read, Write};
use std::rt::Files;
use std::{fs, io};

/// The files under the current folder.
#[derive(Drop)]
pub struct FolderShelf<'a, R: Files> {
    rt: &'a R,
    faults: u64,
}

impl<'a, R: Files> FolderShelf<'a, R> {
    pub fn new(rt: &'a R) -> Self {
        FolderShelf { rt, faults: 0 }
    }
}

// The file's bytes, and of a longer one than is fetched one byte more than that.
fn read_file<R: Files>(rt: &R, alloc: Global, name: &str) -> io::Result<Vec<u8>> {
    let file = fs::open(rt, name)?;
    let mut bytes = Vec::new(alloc);
    file.take(MAX_FILE as u64 + 1).read_to_end(&mut bytes)?;
    Ok(bytes)
}

impl<R: Files> Shelf for FolderShelf<'_, R> {
    ghost state = { λ shelf. record { told = None; faults = shelf.faults } };

    fn fetch(&mut self, alloc: Global, name: &str) -> Fetch {
        match read_file(self.rt, alloc, name) {
            Ok(bytes) if bytes.len() > MAX_FILE => Fetch::TooLong,
            Ok(bytes) => Fetch::Got(bytes),
            Err(error) => match error.kind() {
                ErrorKind::NotFound => Fetch::NotThere,
                ErrorKind::OutOfMemory => Fetch::OutOfMemory,
                _ => {
                    self.faults = self.faults.saturating_add(1);
                    Fetch::Failed
                }
            },
        }
    }
}

/// A stream of the system: standard output or standard error.
#[derive(Drop)]
pub struct StreamSink<W: Write> {
    stream: W,
    faults: u64,
}

impl<W: Write> StreamSink<W> {
    pub fn new(stream: W) -> Self {
        StreamSink { stream, faults: 0 }
    }
}

impl<W: Write> Sink for StreamSink<W> {
    ghost state = { λ sink. record { told = None; faults = sink.faults } };

    fn put(&mut self, bytes: &[u8]) -> Result<(), Failed> {
        match self.stream.write_all(bytes) {
            Ok(()) => Ok(()),
            Err(_) => {
                self.faults = self.faults.saturating_add(1);
                Err(Failed)
            }
        }
    }
}
