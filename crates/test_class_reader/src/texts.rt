//! Modified UTF-8.

use crate::parts::bytes_of;
use class_reader::{utf8_read, utf8_write};
use std::test::Fail;

// Bytes, and the text that they spell, if any.
static SPELLED: [(&str, Option<&[u16]>); 41] = [
    ("", Some(&[])),
    ("01", Some(&[0x1])),
    ("7f", Some(&[0x7f])),
    ("c080", Some(&[0x0])),
    ("c280", Some(&[0x80])),
    ("dfbf", Some(&[0x7ff])),
    ("e0a080", Some(&[0x800])),
    ("e1bfbf", Some(&[0x1fff])),
    ("efbfbf", Some(&[0xffff])),
    ("eda080", Some(&[0xd800])),
    ("edbfbf", Some(&[0xdfff])),
    ("eda081 edb080", Some(&[0xd801, 0xdc00])),
    (
        "48 c3a9 e282ac c080 21",
        Some(&[0x48, 0xe9, 0x20ac, 0x0, 0x21]),
    ),
    ("00", None),
    ("41 00", None),
    ("80", None),
    ("bf", None),
    ("c2 80 80", None),
    ("c0", None),
    ("c0 81", None),
    ("c1 80", None),
    ("c1 bf", None),
    ("c2", None),
    ("df", None),
    ("c2 7f", None),
    ("c2 c0", None),
    ("c2 41", None),
    ("e0", None),
    ("e0 a0", None),
    ("ef bf", None),
    ("e0 80 80", None),
    ("e0 9f bf", None),
    ("e0 a0 7f", None),
    ("e0 a0 c0", None),
    ("e0 7f 80", None),
    ("e0 c0 80", None),
    ("41 e2 82", None),
    ("f0", None),
    ("f0 90 80 80", None),
    ("f4 8f bf bf", None),
    ("ff", None),
];

#[test]
fn texts_are_read_and_written_back_and_other_bytes_spell_none(rt: HostRuntime) -> Result<(), Fail> {
    let alloc = rt.alloc();
    for (hex, units) in &SPELLED {
        let bytes = bytes_of(alloc, hex)?;
        let text = utf8_read(alloc, bytes.as_slice())?;
        assert_eq!(rt; text.as_ref().map(|text| text.as_slice()), *units, "{hex}");
        if let Some(units) = units {
            let written = utf8_write(alloc, units)?;
            assert_eq!(rt; written.as_slice(), bytes.as_slice(), "{hex}");
        }
    }
    Ok(())
}
