use crate::printers::two_printers;
use jx_base::{Act, Entry, Reply};
use std::test::*;

// The number of the domain that a create was answered with, or 0.
fn created(entry: &Entry) -> u32 {
    match (&entry.act, &entry.reply) {
        (Act::Create(_), Reply::Domain(domain, _)) => domain.0,
        _ => 0,
    }
}

// The one unit that was printed.
fn printed(entry: &Entry) -> Option<u16> {
    match &entry.act {
        Act::Print(text) => text.as_slice().first().copied(),
        _ => None,
    }
}

#[test]
fn two_domains_print(rt: HostRuntime) -> Result<(), Fail> {
    let Ok(list) = two_printers(&rt, rt.alloc()) else {
        panic!(rt; "no memory")
    };
    let entries = list.entries();
    assert_eq!(rt; entries.len(), 202);
    for (place, entry) in entries[..2].iter().enumerate() {
        assert_eq!(rt; entry.domain.0, 0);
        assert_eq!(rt; created(entry) as usize, place + 1);
    }
    let mut next = [0u16; 2];
    for entry in &entries[2..] {
        assert!(rt; entry.domain.0 == 1 || entry.domain.0 == 2);
        let place = entry.domain.0 as usize - 1;
        assert!(rt; printed(entry) == Some(next[place]));
        next[place] = next[place].wrapping_add(1);
    }
    assert!(rt; next == [100, 100]);
    Ok(())
}
