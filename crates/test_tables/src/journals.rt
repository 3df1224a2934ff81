//! Journals, and what their entries cost.

use crate::prints::Prints;
use jx_base::{Act, Entry, Listed, OutOfMemory, Text};
use std::alloc::Global;
use std::test::Fail;

// The units of each text that is printed, and whether there was room.
type Texts = &'static [(usize, bool)];

// The prints, the entries and their words before a halt, and those with it.
type Case = (Texts, (u32, u32), (u32, u32));

static CASES: [Case; 4] = [
    (&[], (0, 0), (1, 8)),
    // The halt costs what lies behind the limit.
    (
        &[(4096, true), (4096, true), (0, false)],
        (2, 8208),
        (3, 8216),
    ),
    (
        &[
            (4097, false),
            (0, true),
            (4088, true),
            (4096, true),
            (0, false),
        ],
        (3, 8208),
        (4, 8216),
    ),
    // A word too many for an entry of the largest cost.
    (&[(0, true), (4089, true), (0, false)], (2, 4105), (3, 4113)),
];

fn text_of_units(alloc: Global, count: usize) -> Result<Text, OutOfMemory> {
    let mut units = Vec::new(alloc);
    units.resize(count, 0x61)?;
    Ok(Listed::from_vec(units))
}

fn are_printed(alloc: Global, prints: &mut Prints, texts: Texts) -> Result<bool, OutOfMemory> {
    for (count, due) in texts {
        if prints.print(text_of_units(alloc, *count)?) != *due {
            return Ok(false);
        }
    }
    Ok(true)
}

fn is_halt(entry: &Entry) -> bool {
    match entry.act {
        Act::Halt => true,
        _ => false,
    }
}

#[test]
fn an_entry_of_any_cost_has_room_or_a_halt(rt: HostRuntime) -> Result<(), Fail> {
    let alloc = rt.alloc();
    for (texts, open, closed) in &CASES {
        let mut prints = Prints::open(alloc)?;
        assert!(rt; are_printed(alloc, &mut prints, texts)?);
        assert_eq!(rt; prints.measured(), *open);
        let journal = prints.halted();
        assert_eq!(rt; (journal.len(), journal.words()), *closed);
        let history = journal.close();
        let entries = history.entries.as_slice();
        assert_eq!(rt; entries.len(), closed.0 as usize);
        assert!(rt; entries.last().is_some_and(is_halt));
    }
    Ok(())
}
