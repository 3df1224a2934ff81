//! Runs a system of classes, and prints its audit.
#![tactic(auto)]

mod edge;

use edge::{FolderShelf, StreamSink};
use jx_base::{OpenGate, OutOfMemory};
use jx_top::{Status, jx_main, status_line, status_number};
use std::alloc::AllocError;
use std::io::ErrorKind;
use std::process::ExitCode;
use std::{env, io};

// The words behind the program's name. Words that aren't UTF-8 are none.
fn words(rt: &HostRuntime) -> Result<Vec<String>, OutOfMemory> {
    match env::args(rt) {
        Ok(args) => args.skip(1).collect(rt.alloc()),
        Err(error) => match error.kind() {
            ErrorKind::OutOfMemory => Err(AllocError),
            _ => Ok(Vec::new(rt.alloc())),
        },
    }
}

fn main(rt: HostRuntime) -> ExitCode {
    let status = match words(&rt) {
        Ok(words) => {
            let mut shelf = FolderShelf::new(&rt);
            let mut sink = StreamSink::new(io::writer(&rt));
            jx_main(&rt, rt.alloc(), &words, &mut shelf, &mut sink, &OpenGate)
        }
        Err(_) => Status::OutOfMemory,
    };
    let mut errors = StreamSink::new(rt.stderr());
    let _ = status_line(&status, &mut errors);
    ExitCode::from(status_number(&status))
}

#[cfg(test)]
mod tests;
