//! Checks of systems, and runs of some.

use crate::first_run::{Case, FIRST_AUDIT, File, RUN};
use test_files::JAVAC_CLASS;

// The first class, whose code is five times nothing and a return.
const IDLE: File = ("Hello.class", 179, &[0, 0, 0, 0, 0, 0xb1, 0, 0, 0, 0, 0, 0]);

const HELLO: File = ("Hello.class", 191, b"");

// The first class, in which the name is Hallo.
const NAMED_HALLO: File = (
    "Hello.class",
    14,
    &[
        0x61, 0x6c, 0x6c, 0x6f, 0x07, 0x00, 0x01, 0x01, 0x00, 0x10, 0x6a, 0x61, 0x76, 0x61, 0x2f,
        0x6c, 0x61, 0x6e, 0x67, 0x2f, 0x4f, 0x62, 0x6a, 0x65, 0x63, 0x74, 0x07, 0x00, 0x03, 0x01,
        0x00, 0x04, 0x6d, 0x61, 0x69, 0x6e, 0x01, 0x00, 0x16, 0x28, 0x5b, 0x4c, 0x6a, 0x61, 0x76,
        0x61, 0x2f, 0x6c, 0x61, 0x6e, 0x67, 0x2f, 0x53, 0x74, 0x72, 0x69, 0x6e, 0x67, 0x3b, 0x29,
        0x56, 0x01, 0x00, 0x04, 0x43, 0x6f, 0x64, 0x65, 0x01, 0x00, 0x02, 0x68, 0x69, 0x08, 0x00,
        0x08, 0x01, 0x00, 0x07, 0x6a, 0x78, 0x2f, 0x5a, 0x65, 0x72, 0x6f, 0x07, 0x00, 0x0a, 0x01,
        0x00, 0x05, 0x70, 0x72, 0x69, 0x6e, 0x74, 0x01, 0x00, 0x15, 0x28, 0x4c, 0x6a, 0x61, 0x76,
        0x61, 0x2f, 0x6c, 0x61, 0x6e, 0x67, 0x2f, 0x53, 0x74, 0x72, 0x69, 0x6e, 0x67, 0x3b, 0x29,
        0x56, 0x0c, 0x00, 0x0c, 0x00, 0x0d, 0x0a, 0x00, 0x0b, 0x00, 0x0e, 0x00, 0x21, 0x00, 0x02,
        0x00, 0x04, 0x00, 0x00, 0x00, 0x00, 0x00, 0x01, 0x00, 0x09, 0x00, 0x05, 0x00, 0x06, 0x00,
        0x01, 0x00, 0x07, 0x00, 0x00, 0x00, 0x12, 0x00, 0x01, 0x00, 0x01, 0x00, 0x00, 0x00, 0x06,
        0x12, 0x09, 0xb8, 0x00, 0x0f, 0xb1, 0x00, 0x00, 0x00, 0x00, 0x00, 0x00,
    ],
);

// The first class under another name.
const HALLO: File = ("Hallo.class", 191, b"");

const NO_DOMAINS: File = ("plan", 0, b"granules = 1\n");

// The same class as javac lays it out.
const JAVAC: File = ("Hello.class", 0, &JAVAC_CLASS);

const IDLE_AUDIT: &str =
    "jx audit 1\n1 0 0 create \"main\" -> domain 1 at 0\n2 1 0 end-thread -> done\n3 0 0 quiet -> done\nconsole\ndomains\n1 \"main\" by 0 live\ncalls\nmemory 128 of 16384\nwords 16 of 1048576\nend quiet\n";

const CHECK: &[&str] = &["check", "Hello.class"];

const CHECK_PLAN: &[&str] = &["check", "plan"];

/// The lines of `check`, audits, and the lines of a run that say why there is none.
pub static SYSTEMS: [Case; 17] = [
    (CHECK, HELLO, &[], 0, "", "ok 1 1\n"),
    (CHECK, IDLE, &[], 0, "", "ok 1 1\n"),
    (CHECK, JAVAC, &[], 0, "", "ok 1 1\n"),
    (CHECK, HELLO, &[0], 3, "jx: shelf fault\n", ""),
    (CHECK, HALLO, &[], 4, "jx: missing Hello.class\n", ""),
    (
        &["check", "Hallo.class"],
        HALLO,
        &[],
        7,
        "jx: bad link Hallo kind 9 Hello\n",
        "",
    ),
    (
        CHECK,
        NAMED_HALLO,
        &[],
        7,
        "jx: bad link Hello kind 9 Hallo\n",
        "",
    ),
    (CHECK_PLAN, NO_DOMAINS, &[], 0, "", "ok 0 0\n"),
    (CHECK_PLAN, HELLO, &[], 4, "jx: missing plan\n", ""),
    (
        CHECK_PLAN,
        ("plan", 0, b"granules = 0\n"),
        &[],
        5,
        "jx: bad plan 4 granules\n",
        "",
    ),
    (
        CHECK_PLAN,
        ("plan", 0, b"granules = 1\nx = 2\n"),
        &[],
        5,
        "jx: bad plan 6 x\n",
        "",
    ),
    (
        CHECK_PLAN,
        ("plan", 0, b"="),
        &[],
        5,
        "jx: bad plan 1\n",
        "",
    ),
    (
        &["check", ".class"],
        (".class", 191, b""),
        &[],
        2,
        "jx: usage\n",
        "",
    ),
    (&["check"], HELLO, &[], 2, "jx: usage\n", ""),
    (RUN, IDLE, &[], 0, "", IDLE_AUDIT),
    (RUN, JAVAC, &[], 0, "", FIRST_AUDIT),
    (
        &["run", "plan"],
        ("plan", 0, b"granules = 0\n"),
        &[],
        5,
        "jx: bad plan 4 granules\n",
        "",
    ),
];
