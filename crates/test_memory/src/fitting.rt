//! Which parcels fit a domain.

use crate::systems::{
    BOOLEANS, BYTES, CHARS, HIDDEN, HIDDEN_ARRAY, HIDDEN_TABLE, INTS, LONGS, MEMORIES, OBJECTS,
    PAIR, PAIRS, PORTALS, SERVER, SERVICE, SERVICES, SHORTS, STRINGS, TABLE, system,
};
use jx_base::Word::{Int, Long, Mem, Null};
use jx_base::{ClassId, Listed, Node, ObjectId, OutOfMemory, Parcel, ServiceId, System, Word};
use param_copy::fits;
use std::alloc::Global;
use std::process::Abort;
use std::test::Fail;

// The class of a node, its cells, and whether a parcel of it alone fits.
type Case = (u32, &'static [Word], bool);

fn node(alloc: Global, class: u32, cells: &[Word]) -> Result<Node, OutOfMemory> {
    Ok(Node {
        class: ClassId(class),
        cells: Listed::from_slice(alloc, cells)?,
    })
}

fn fits_first(alloc: Global, system: &System, nodes: Vec<Node>) -> bool {
    let parcel = Parcel {
        roots: Listed::from_vec(Vec::new(alloc)),
        nodes: Listed::from_vec(nodes),
    };
    fits(&parcel, 0, system)
}

fn node_fits(
    alloc: Global,
    system: &System,
    class: u32,
    cells: &[Word],
) -> Result<bool, OutOfMemory> {
    let nodes = vec![in alloc; node(alloc, class, cells)?]?;
    Ok(fits_first(alloc, system, nodes))
}

// Whether a node fits that has one cell, which refers to a node without cells.
fn reference_fits(
    alloc: Global,
    system: &System,
    class: u32,
    behind: u32,
) -> Result<bool, OutOfMemory> {
    let first = node(alloc, class, &[Word::Node(1)])?;
    let second = node(alloc, behind, &[])?;
    let nodes = vec![in alloc; first, second]?;
    Ok(fits_first(alloc, system, nodes))
}

fn each_fits(rt: &impl Abort, alloc: Global, cases: &[Case]) -> Result<(), Fail> {
    let system = system(alloc)?;
    for (class, cells, due) in cases {
        let found = node_fits(alloc, &system, *class, cells)?;
        assert!(rt; found == *due, "class {class}");
    }
    Ok(())
}

static NUMBERS: [Case; 32] = [
    (BOOLEANS, &[Int(0)], true),
    (BOOLEANS, &[Int(1)], true),
    (BOOLEANS, &[Int(-1)], false),
    (BOOLEANS, &[Int(2)], false),
    (BOOLEANS, &[Int(i32::MIN)], false),
    (BOOLEANS, &[Int(i32::MAX)], false),
    (BYTES, &[Int(-128)], true),
    (BYTES, &[Int(127)], true),
    (BYTES, &[Int(-129)], false),
    (BYTES, &[Int(128)], false),
    (BYTES, &[Int(i32::MIN)], false),
    (BYTES, &[Int(i32::MAX)], false),
    (SHORTS, &[Int(-32_768)], true),
    (SHORTS, &[Int(32_767)], true),
    (SHORTS, &[Int(-32_769)], false),
    (SHORTS, &[Int(32_768)], false),
    (SHORTS, &[Int(i32::MIN)], false),
    (SHORTS, &[Int(i32::MAX)], false),
    (CHARS, &[Int(0)], true),
    (CHARS, &[Int(65_535)], true),
    (CHARS, &[Int(-1)], false),
    (CHARS, &[Int(65_536)], false),
    (CHARS, &[Int(i32::MIN)], false),
    (CHARS, &[Int(i32::MAX)], false),
    (1, &[Int(0)], true),
    (1, &[Int(65_535)], true),
    (1, &[Int(-1)], false),
    (1, &[Int(65_536)], false),
    (1, &[Int(i32::MIN)], false),
    (1, &[Int(i32::MAX)], false),
    (INTS, &[Int(i32::MIN)], true),
    (INTS, &[Int(i32::MAX)], true),
];

#[test]
fn numbers_fit_the_range_of_their_cell(rt: HostRuntime) -> Result<(), Fail> {
    each_fits(&rt, rt.alloc(), &NUMBERS)
}

const PORTAL: Word = Word::Portal(ServiceId(1), ClassId(SERVICE));

const OTHER_PORTAL: Word = Word::Portal(ServiceId(1), ClassId(HIDDEN));

const MEMORY: Word = Mem(ObjectId(1));

// The last refers to a node that there is not.
static WORDS: [Case; 19] = [
    (LONGS, &[Long(1)], true),
    (LONGS, &[Int(1)], false),
    (INTS, &[Long(1)], false),
    (INTS, &[Null], false),
    (LONGS, &[Null], false),
    (OBJECTS, &[Null], true),
    (TABLE, &[Null], true),
    (OBJECTS, &[Int(1)], false),
    (OBJECTS, &[PORTAL], true),
    (SERVICES, &[PORTAL], true),
    (PORTALS, &[PORTAL], true),
    (PAIRS, &[PORTAL], false),
    (SERVICES, &[OTHER_PORTAL], false),
    (PORTALS, &[OTHER_PORTAL], true),
    (OBJECTS, &[MEMORY], true),
    (MEMORIES, &[MEMORY], true),
    (STRINGS, &[MEMORY], false),
    (SERVICES, &[MEMORY], false),
    (OBJECTS, &[Word::Node(1)], false),
];

#[test]
fn words_fit_the_type_of_their_cell(rt: HostRuntime) -> Result<(), Fail> {
    each_fits(&rt, rt.alloc(), &WORDS)
}

// The class of a node, the class of that to which its one cell refers, and whether they fit.
static REFERENCES: [(u32, u32, bool); 13] = [
    (OBJECTS, SERVER, true),
    (SERVICES, SERVER, true),
    (PAIRS, SERVER, false),
    (STRINGS, 1, true),
    (OBJECTS, 1, true),
    (STRINGS, SERVER, false),
    (TABLE, BOOLEANS, true),
    (TABLE, BYTES, false),
    (OBJECTS, BOOLEANS, true),
    (SERVICES, BOOLEANS, false),
    (2, 1, true),
    (2, SERVER, false),
    (3, 1, true),
];

#[test]
fn nodes_fit_the_type_of_the_cell_that_refers_to_them(rt: HostRuntime) -> Result<(), Fail> {
    let system = system(rt.alloc())?;
    for (class, behind, due) in &REFERENCES {
        let found = reference_fits(rt.alloc(), &system, *class, *behind)?;
        assert!(rt; found == *due, "class {class}, {behind}");
    }
    Ok(())
}

static NODES: [Case; 22] = [
    (PAIR, &[Int(1), Long(-1)], true),
    (PAIR, &[Int(2), Long(-1)], false),
    (PAIR, &[Long(-1), Int(1)], false),
    (PAIR, &[Int(1)], false),
    (PAIR, &[Int(1), Long(1), Null], false),
    (HIDDEN, &[], false),
    (SERVER, &[], true),
    (0, &[], true),
    (0, &[Null], false),
    (1, &[], true),
    (2, &[], false),
    (2, &[Null], true),
    (26, &[Null], true),
    (HIDDEN_TABLE + 1, &[], false),
    (u32::MAX, &[], false),
    (BOOLEANS, &[], true),
    (BOOLEANS, &[Int(0), Int(1), Int(2)], false),
    (PAIRS, &[Null], true),
    (TABLE, &[Null], true),
    (HIDDEN_ARRAY, &[], false),
    (HIDDEN_TABLE, &[], false),
    (OBJECTS, &[Word::Node(0)], true),
];

#[test]
fn nodes_are_of_known_classes_and_whole(rt: HostRuntime) -> Result<(), Fail> {
    each_fits(&rt, rt.alloc(), &NODES)?;
    let system = system(rt.alloc())?;
    assert!(rt; fits_first(rt.alloc(), &system, Vec::new(rt.alloc())));
    Ok(())
}
