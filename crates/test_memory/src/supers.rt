//! Classes that stand above others.

use crate::systems::{BEHIND, SERVER, SERVICE, layered};
use program_types::is_below;
use std::test::Fail;

// Over so many layers more paths lead than can be walked.
const LAYERS: u32 = 60;

const LAST: u32 = BEHIND + 2 * LAYERS - 1;

// Two classes, and whether the first is the second or stands below it.
static PAIRS: [(u32, u32, bool); 9] = [
    (LAST, LAST, true),
    (LAST, LAST - 1, false),
    (LAST, LAST - 2, true),
    (LAST, LAST - 3, true),
    (LAST, BEHIND, true),
    (LAST, SERVICE, false),
    (LAST, LAST + 1, false),
    (BEHIND, LAST, false),
    (SERVER, SERVICE, true),
];

#[test]
fn layers_of_interfaces_are_walked_once(rt: HostRuntime) -> Result<(), Fail> {
    let system = layered(rt.alloc(), LAYERS)?;
    for (class, above, due) in &PAIRS {
        let found = is_below(&system, *class as usize, *above as usize);
        assert!(rt; found == *due, "class {class}, {above}");
    }
    Ok(())
}
