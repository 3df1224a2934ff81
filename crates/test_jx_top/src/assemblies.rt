//! Assemblies of texts.

use crate::first_run::{Case, File, line, shelf};
use jx_base::MemorySink;
use jx_top::{Request, jx_serial, status_number};
use std::test::Fail;
use test_files::{HELLO_CLASS, HELLO_TEXT};

const TEXT: File = ("text", 0, HELLO_TEXT);

/// Calls whose word for a file is not that of the text.
pub static ASSEMBLIES: [Case; 16] = [
    (&["asm", "a"], TEXT, &[], 4, "jx: missing a\n", ""),
    (
        &["asm", "a.class"],
        TEXT,
        &[],
        4,
        "jx: missing a.class\n",
        "",
    ),
    (&["asm", "-"], TEXT, &[], 4, "jx: missing -\n", ""),
    (&["asm", "--", "-a"], TEXT, &[], 4, "jx: missing -a\n", ""),
    (&["asm", "--", "--"], TEXT, &[], 4, "jx: missing --\n", ""),
    (&["asm", "a", "--"], TEXT, &[], 4, "jx: missing a\n", ""),
    (&["asm"], TEXT, &[], 2, "jx: usage\n", ""),
    (&["asm", ""], TEXT, &[], 2, "jx: usage\n", ""),
    (&["asm", "--"], TEXT, &[], 2, "jx: usage\n", ""),
    (&["asm", "-a"], TEXT, &[], 2, "jx: usage\n", ""),
    (&["asm", "-a", "--"], TEXT, &[], 2, "jx: usage\n", ""),
    (&["asm", "a", "b"], TEXT, &[], 2, "jx: usage\n", ""),
    (
        &["asm", "--workers=2", "a"],
        TEXT,
        &[],
        2,
        "jx: usage\n",
        "",
    ),
    (&["asm", "--", "a", "b"], TEXT, &[], 2, "jx: usage\n", ""),
    (&["--", "asm", "a"], TEXT, &[], 2, "jx: usage\n", ""),
    (&["ASM", "a"], TEXT, &[], 2, "jx: usage\n", ""),
];

#[test]
fn texts_are_assembled_or_told_bad(rt: HostRuntime) -> Result<(), Fail> {
    let alloc = rt.alloc();
    for (text, number, said, bytes) in [
        (HELLO_TEXT, 0, "", HELLO_CLASS.as_slice()),
        (b"class", 10, "jx: bad text line 1 kind 2\n", &[]),
        (b"nonsense\n", 10, "jx: bad text line 1 kind 1\n", &[]),
    ] {
        let mut shelf = shelf(alloc, ("text", 0, text), &[])?;
        let mut sink = MemorySink::open(alloc, 1000, Vec::new(alloc))?;
        let request = Request::Asm {
            file: String::from_str(alloc, "text")?,
        };
        let status = jx_serial(alloc, &request, &mut shelf, &mut sink);
        let line = line(alloc, &status)?;
        assert_eq!(rt;
            (status_number(&status), line.as_slice(), sink.bytes()),
            (number, said.as_bytes(), bytes),
            "{said}"
        );
    }
    Ok(())
}
