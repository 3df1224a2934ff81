//! Lines of words, and pages.

use jx_base::MemorySink;
use page_text::{Page, Piece, put_line};
use std::test::Fail;

#[test]
fn lines_are_quoted_and_cut_into_pages(rt: HostRuntime) -> Result<(), Fail> {
    let alloc = rt.alloc();
    let mut sink = MemorySink::open(alloc, 10_000, Vec::new(alloc))?;
    let units = [0x61, 0x22, 0x5c, 0x1f, 0x20, 0x7e, 0x7f, 0xabcd, 0xd800, 0];
    let words = [
        Piece::Plain("say"),
        Piece::Number(18_446_744_073_709_551_615),
        Piece::Signed(-2_147_483_648),
        Piece::Quoted(&units),
    ];
    assert!(rt; put_line(&words, &mut sink).is_ok());
    let wanted =
        "say 18446744073709551615 -2147483648 \"a\\u0022\\u005c\\u001f ~\\u007f\\uabcd\\ud800\\u0000\"\n";
    assert_eq!(rt; sink.bytes(), wanted.as_bytes());

    let mut sink = MemorySink::open(alloc, 10_000, Vec::new(alloc))?;
    let mut page = Page::new();
    for _ in 0..4097 {
        assert!(rt; page.write_byte(b'x', &mut sink).is_ok());
    }
    assert_eq!(rt; sink.bytes().len(), 4096);
    assert!(rt; page.flush(&mut sink).is_ok());
    assert_eq!(rt; sink.bytes().len(), 4097);
    Ok(())
}
