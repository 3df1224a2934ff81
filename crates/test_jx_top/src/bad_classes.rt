//! Runs of classes that aren't read.

use crate::first_run::{Case, RUN};

/// The code begins at 179: opcode BA is left out, CA is unassigned, and a load of a constant needs
/// an index.
pub static BAD_CLASSES: [Case; 6] = [
    (
        RUN,
        ("Hello.class", 0, &[]),
        &[],
        6,
        "jx: bad class Hello at 0 kind 1\n",
        "",
    ),
    (
        RUN,
        ("Hello.class", 190, &[]),
        &[],
        6,
        "jx: bad class Hello at 190 kind 1\n",
        "",
    ),
    (
        RUN,
        ("Hello.class", 191, &[0]),
        &[],
        6,
        "jx: bad class Hello at 191 kind 10\n",
        "",
    ),
    (
        RUN,
        (
            "Hello.class",
            179,
            &[0xba, 9, 0xb8, 0, 15, 0xb1, 0, 0, 0, 0, 0, 0],
        ),
        &[],
        6,
        "jx: bad class Hello at 179 kind 14\n",
        "",
    ),
    (
        RUN,
        (
            "Hello.class",
            179,
            &[0x12, 9, 0xca, 0, 15, 0xb1, 0, 0, 0, 0, 0, 0],
        ),
        &[],
        6,
        "jx: bad class Hello at 181 kind 11\n",
        "",
    ),
    (
        RUN,
        (
            "Hello.class",
            179,
            &[0x12, 9, 0xb8, 0, 15, 0x12, 0, 0, 0, 0, 0, 0],
        ),
        &[],
        6,
        "jx: bad class Hello at 184 kind 12\n",
        "",
    ),
];
