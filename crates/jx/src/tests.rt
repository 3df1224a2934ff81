use super::*;
use jx_base::{Fetch, Shelf, Sink};
use std::fs;
use std::test::Fail;

#[test]
fn folder_gives_its_files(rt: HostRuntime) -> Result<(), Fail> {
    let mut shelf = FolderShelf::new(&rt);
    assert!(rt; matches!(shelf.fetch(rt.alloc(), "there"), Fetch::NotThere));
    fs::write(&rt, "there", b"bytes")?;
    let Fetch::Got(bytes) = shelf.fetch(rt.alloc(), "there") else {
        panic!(rt; "the file is there");
    };
    assert_eq!(rt; bytes.as_slice(), b"bytes".as_slice());
    fs::create_dir(&rt, "folder")?;
    assert!(rt; matches!(shelf.fetch(rt.alloc(), "folder"), Fetch::Failed));
    fs::remove_file(&rt, "there")?;
    fs::remove_dir(&rt, "folder")?;
    Ok(())
}

#[test]
fn folder_reads_no_file_above_16_mib(rt: HostRuntime) -> Result<(), Fail> {
    let file = fs::create(&rt, "long")?;
    file.set_len(16_777_217)?;
    let mut shelf = FolderShelf::new(&rt);
    assert!(rt; matches!(shelf.fetch(rt.alloc(), "long"), Fetch::TooLong));
    file.set_len(16_777_216)?;
    assert!(rt; matches!(shelf.fetch(rt.alloc(), "long"), Fetch::Got(_)));
    fs::remove_file(&rt, "long")?;
    Ok(())
}

#[test]
fn streams_take_bytes_or_fail(rt: HostRuntime) -> Result<(), Fail> {
    assert!(rt; StreamSink::new(io::writer(&rt)).put(b"out\n").is_ok());
    assert!(rt; StreamSink::new(rt.stderr()).put(b"err\n").is_ok());
    let full = fs::create(&rt, "/dev/full")?;
    assert!(rt; StreamSink::new(full).put(b"bytes").is_err());
    Ok(())
}
