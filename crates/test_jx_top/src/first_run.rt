//! Runs of the first class, and each call with words.

use crate::assemblies::ASSEMBLIES;
use crate::bad_classes::BAD_CLASSES;
use crate::systems::SYSTEMS;
use jx_base::{MemoryShelf, MemorySink, OpenGate, OutOfMemory};
use jx_top::{Request, Status, jx_main, jx_serial, status_line, status_number};
use std::alloc::Global;
use std::test::Fail;
use test_files::HELLO_CLASS;

/// A name, and as bytes so many of the first class with these behind them.
pub type File = (&'static str, usize, &'static [u8]);

/// The words, the one file of the shelf, the fetches that fail, the number, the line, and what is
/// put.
pub type Case = (
    &'static [&'static str],
    File,
    &'static [u32],
    u8,
    &'static str,
    &'static str,
);

/// The words that run the first class.
pub const RUN: &[&str] = &["run", "Hello.class"];

/// The audit of the first class.
pub const FIRST_AUDIT: &str =
    "jx audit 1\n1 0 0 create \"main\" -> domain 1 at 0\n2 1 0 print \"hi\" -> done\n3 1 0 end-thread -> done\n4 0 0 quiet -> done\nconsole\n1 \"hi\"\ndomains\n1 \"main\" by 0 live\ncalls\nmemory 128 of 16384\nwords 26 of 1048576\nend quiet\n";

static RUNS: [Case; 18] = [
    (
        &["run", "Hello.class"],
        ("Hello.class", 191, b""),
        &[],
        0,
        "",
        FIRST_AUDIT,
    ),
    (
        &["run", "Hello.class"],
        ("Other.class", 191, b""),
        &[],
        4,
        "jx: missing Hello.class\n",
        "",
    ),
    (
        &["run", "Hello.class"],
        ("Hello.class", 191, b""),
        &[0],
        3,
        "jx: shelf fault\n",
        "",
    ),
    (
        &["run", "Hello.class"],
        ("Hello.class", 191, b""),
        &[1],
        0,
        "",
        FIRST_AUDIT,
    ),
    (
        &["run", "Other.class"],
        ("Other.class", 191, b""),
        &[],
        7,
        "jx: bad link Other kind 9 Hello\n",
        "",
    ),
    (&[], ("Hello.class", 191, b""), &[], 2, "jx: usage\n", ""),
    (
        &["run"],
        ("Hello.class", 191, b""),
        &[],
        2,
        "jx: usage\n",
        "",
    ),
    (
        &["run", "a", "b"],
        ("Hello.class", 191, b""),
        &[],
        2,
        "jx: usage\n",
        "",
    ),
    (
        &["--help"],
        ("Hello.class", 191, b""),
        &[],
        2,
        "jx: usage\n",
        "",
    ),
    (
        &["run", ".class"],
        (".class", 191, b""),
        &[],
        2,
        "jx: usage\n",
        "",
    ),
    (
        &["run", "a//B.class"],
        ("a//B.class", 191, b""),
        &[],
        2,
        "jx: usage\n",
        "",
    ),
    (
        &["run", "/B.class"],
        ("/B.class", 191, b""),
        &[],
        2,
        "jx: usage\n",
        "",
    ),
    (
        &["run", "a/.class"],
        ("a/.class", 191, b""),
        &[],
        2,
        "jx: usage\n",
        "",
    ),
    (
        &["run", "./B.class"],
        ("./B.class", 191, b""),
        &[],
        2,
        "jx: usage\n",
        "",
    ),
    (
        &["run", "jx/A.class"],
        ("jx/A.class", 191, b""),
        &[],
        2,
        "jx: usage\n",
        "",
    ),
    (
        &["run", "java/A.class"],
        ("java/A.class", 191, b""),
        &[],
        2,
        "jx: usage\n",
        "",
    ),
    (
        &["run", "jx.class"],
        ("jx.class", 191, b""),
        &[],
        7,
        "jx: bad link jx kind 9 Hello\n",
        "",
    ),
    (
        &["run", "a/B_$9.class"],
        ("a/B_$9.class", 191, b""),
        &[],
        7,
        "jx: bad link a/B_$9 kind 9 Hello\n",
        "",
    ),
];

// What comes where no byte can be put, and where no more than 100 can be.
static NOTHING_PUT: [Case; 1] = [(
    RUN,
    ("Hello.class", 191, b""),
    &[],
    8,
    "jx: sink fault\n",
    "",
)];

static FRONT_PUT: [Case; 1] = [(
    RUN,
    ("Hello.class", 191, b""),
    &[],
    8,
    "jx: sink fault\n",
    "jx audit 1\n1 0 0 create \"main\" -> domain 1 at 0\n2 1 0 print \"hi\" -> done\n3 1 0 end-thread -> done\n4 ",
)];

/// A shelf of this file, of which these fetches fail.
pub fn shelf(alloc: Global, file: File, failing: &[u32]) -> Result<MemoryShelf, OutOfMemory> {
    let (name, len, more) = file;
    let mut bytes = Vec::new(alloc);
    for byte in HELLO_CLASS.iter().take(len) {
        bytes.push(*byte)?;
    }
    bytes.extend_from_slice(more)?;
    let file = (String::from_str(alloc, name)?, bytes);
    let failing = Vec::from_slice(alloc, failing)?;
    Ok(MemoryShelf::new(vec![in alloc; file]?, failing))
}

/// The line of a status.
pub fn line(alloc: Global, status: &Status) -> Result<Vec<u8>, OutOfMemory> {
    let mut sink = MemorySink::open(alloc, 1000, Vec::new(alloc))?;
    let _ = status_line(status, &mut sink);
    Vec::from_slice(alloc, sink.bytes())
}

/// The words.
pub fn strings(alloc: Global, words: &[&str]) -> Result<Vec<String>, OutOfMemory> {
    let mut strings = Vec::new(alloc);
    for word in words {
        strings.push(String::from_str(alloc, word)?)?;
    }
    Ok(strings)
}

#[test]
fn ends_as_the_words_the_shelf_and_the_sink_would_have_it(rt: HostRuntime) -> Result<(), Fail> {
    let alloc = rt.alloc();
    for (room, failing_put, cases) in [
        (1000, 9, RUNS.as_slice()),
        (1000, 9, ASSEMBLIES.as_slice()),
        (1000, 9, BAD_CLASSES.as_slice()),
        (1000, 9, SYSTEMS.as_slice()),
        (0, 9, NOTHING_PUT.as_slice()),
        (100, 9, FRONT_PUT.as_slice()),
        (1000, 0, NOTHING_PUT.as_slice()),
    ] {
        for (words, file, failing, number, said, put) in cases {
            let strings = strings(alloc, words)?;
            let mut shelf = shelf(alloc, *file, failing)?;
            let mut sink = MemorySink::open(alloc, room, vec![in alloc; failing_put]?)?;
            let status = jx_main(&rt, alloc, &strings, &mut shelf, &mut sink, &OpenGate);
            let line = line(alloc, &status)?;
            assert_eq!(rt;
                (status_number(&status), line.as_slice(), sink.bytes()),
                (*number, said.as_bytes(), put.as_bytes()),
                "{words:?} {said} {room}"
            );
        }
    }
    Ok(())
}

#[test]
fn serial_call_runs_the_class(rt: HostRuntime) -> Result<(), Fail> {
    let alloc = rt.alloc();
    let mut shelf = shelf(alloc, ("Hello.class", 191, b""), &[])?;
    let mut sink = MemorySink::open(alloc, 1000, Vec::new(alloc))?;
    let request = Request::Run {
        file: String::from_str(alloc, "Hello.class")?,
        workers: 1,
    };
    let status = jx_serial(alloc, &request, &mut shelf, &mut sink);
    assert_eq!(rt;
        (status_number(&status), sink.bytes()),
        (0, FIRST_AUDIT.as_bytes())
    );
    Ok(())
}
