//! Shelves and sinks in memory, and the built-in classes.

use boot_classes::boot;
use jx_base::{Fetch, HonestShelf, MemorySink, Shelf, Sink, text_of};
use std::test::Fail;

#[test]
fn forms_in_memory_and_built_in_classes_hold_what_they_are_given(
    rt: HostRuntime,
) -> Result<(), Fail> {
    let alloc = rt.alloc();
    let mut files = Vec::new(alloc);
    for (name, bytes) in [("a", b"one"), ("b", b"two"), ("a", b"six")] {
        files.push((
            String::from_str(alloc, name)?,
            Vec::from_slice(alloc, bytes)?,
        ))?;
    }
    let mut shelf = HonestShelf::new(files);
    let Fetch::Got(bytes) = shelf.fetch(alloc, "a") else {
        panic!(rt; "the file is there");
    };
    assert_eq!(rt; bytes.as_slice(), b"one".as_slice());
    assert!(rt; matches!(shelf.fetch(alloc, "c"), Fetch::NotThere));
    let mut sink = MemorySink::open(alloc, 5, vec![in alloc; 1]?)?;
    for (bytes, fits) in [(b"abc".as_slice(), true), (b"d", false), (b"def", false)] {
        assert_eq!(rt; sink.put(bytes).is_ok(), fits, "{bytes:?}");
    }
    assert_eq!(rt; sink.bytes(), b"abcde".as_slice());
    let classes = boot(alloc)?;
    assert_eq!(rt; classes.len(), 27);
    let first = text_of(alloc, "java/lang/Object")?;
    assert_eq!(rt; classes[0].name.as_slice(), first.as_slice());
    assert!(rt; classes[0].parent.is_none());
    let last = text_of(alloc, "jx/RefusedException")?;
    assert_eq!(rt; classes[26].name.as_slice(), last.as_slice());
    assert_eq!(rt; classes[26].methods.as_slice().len(), 2);
    Ok(())
}
