//! Parcels: what is packed, and packed again where it was unpacked.
ghost use Rattle.std.specs.Prelude.{IfOk};
ghost use Rattle.param_copy.specs.Copies.{ArePlaced};

use crate::objects::{Object, heap_of};
use crate::packed::packed;
use crate::parcel_text::parcel_text;
use domain_heap::Heap;
use jx_base::Value::{Int, Long, Mem, Null, Portal, Ref};
use jx_base::{ClassId, Exported, ObjectId, OutOfMemory, Parcel, ServiceId, Value};
use param_copy::{UnpackFault, unpack};
use std::alloc::Global;
use std::test::Fail;

// An exported object, its service and its interface.
type Export = (u32, u32, u32);

// The objects of a heap, those that are exported, the roots, and the parcel.
type Case = (
    &'static [Object],
    &'static [Export],
    &'static [Value],
    &'static str,
);

const OBJECT_4_TWICE: [Export; 2] = [(4, 7, 40), (4, 5, 41)];

const OBJECT_1: [Export; 1] = [(1, 9, 42)];

// Object 2 three times, by its least service neither first nor last.
const MANY: [Export; 8] = [
    (6, 1, 40),
    (2, 11, 41),
    (3, 4, 42),
    (2, 3, 43),
    (5, 2, 44),
    (2, 7, 45),
    (3, 9, 46),
    (4, 6, 47),
];

const PORTAL_HOME: Value = Portal(ServiceId(9), ClassId(42));

const OTHER_PORTAL: Value = Portal(ServiceId(8), ClassId(40));

const MEMORY: Value = Mem(ObjectId(3));

static COPIES: [Case; 9] = [
    (
        &[],
        &[],
        &[Int(-5), Long(1_099_511_627_776), Null],
        "roots: -5 1099511627776L null",
    ),
    (&[], &[], &[], "roots:"),
    // Sharing, a cycle, and an exported root by its least service.
    (
        &[
            (30, &[Ref(2), Ref(1)]),
            (31, &[Ref(3), Ref(1)]),
            (32, &[Ref(1)]),
            (33, &[]),
            (34, &[Ref(3)]),
        ],
        &OBJECT_4_TWICE,
        &[Ref(0), Ref(4), Ref(1), Int(6)],
        "roots: @0 p5:41 @1 6 | 30: @2 @1 | 31: @3 @1 | 32: @1 | 33:",
    ),
    // A tree by its levels.
    (
        &[
            (30, &[Ref(1), Ref(2)]),
            (31, &[Ref(3)]),
            (32, &[Ref(4), Ref(0)]),
            (33, &[]),
            (34, &[Ref(4)]),
        ],
        &[],
        &[Ref(0), Ref(0)],
        "roots: @0 @0 | 30: @1 @2 | 31: @3 | 32: @4 @0 | 33: | 34: @4",
    ),
    // An array of arrays, one twice, and objects that aren't reached.
    (
        &[
            (9, &[Ref(2)]),
            (50, &[Ref(3), Null, Ref(2), Ref(3)]),
            (51, &[Int(1), Int(2)]),
            (51, &[Int(3)]),
        ],
        &[],
        &[Ref(1)],
        "roots: @0 | 50: @1 null @2 @1 | 51: 3 | 51: 1 2",
    ),
    // A String in a StringBuilder.
    (
        &[(1, &[Int(104), Int(105)]), (2, &[Ref(0)])],
        &[],
        &[Ref(1)],
        "roots: @0 | 2: @1 | 1: 104 105",
    ),
    // An exported object in an object, with what it alone reaches.
    (
        &[(30, &[Ref(1), Ref(0)]), (31, &[Ref(2)]), (32, &[])],
        &OBJECT_1,
        &[Ref(0)],
        "roots: @0 | 30: p9:42 @0",
    ),
    // A portal that comes home, and a memory object twice.
    (
        &[(30, &[MEMORY]), (31, &[])],
        &OBJECT_1,
        &[PORTAL_HOME, MEMORY, Ref(0), OTHER_PORTAL],
        "roots: p9:42 m3 @0 p8:40 | 30: m3",
    ),
    // An object that is exported three times, among other exports.
    (
        &[
            (30, &[Ref(2), Ref(1)]),
            (31, &[Ref(3), Ref(2)]),
            (32, &[Ref(1)]),
            (33, &[]),
        ],
        &MANY,
        &[Ref(2), Ref(0), Ref(2), Ref(3)],
        "roots: p3:43 @0 p3:43 p4:42 | 30: p3:43 @1 | 31: p4:42 p3:43",
    ),
];

static BEFORE: [Object; 2] = [(60, &[Ref(1)]), (61, &[Ref(0)])];

fn exports_of(alloc: Global, exports: &[Export]) -> Result<Vec<Exported>, OutOfMemory> {
    let mut made = Vec::new(alloc);
    for (object, service, iface) in exports {
        made.push(Exported {
            object: *object,
            service: ServiceId(*service),
            iface: ClassId(*iface),
        })?;
    }
    Ok(made)
}

fn parcel_of(alloc: Global, case: &Case) -> Result<Parcel, Fail>
    ensures { IfOk result ArePlaced }
{
    let heap = heap_of(alloc, 10_000, case.0)?;
    let exports = exports_of(alloc, case.1)?;
    Ok(packed(alloc, &heap, exports.as_slice(), case.2)?)
}

// The text of what is packed where the parcel was unpacked behind two objects.
fn text_of_copy(alloc: Global, parcel: &Parcel) -> Result<String, Fail>
    requires { ArePlaced parcel.now }
{
    let mut other = heap_of(alloc, 10_000, &BEFORE)?;
    let roots = unpack(alloc, &mut other, parcel)?;
    let exports = exports_of(alloc, &OBJECT_1)?;
    let again = packed(alloc, &other, exports.as_slice(), roots.as_slice())?;
    Ok(parcel_text(alloc, &again)?)
}

#[test]
fn objects_are_copied_breadth_first(rt: HostRuntime) -> Result<(), Fail> {
    for case in &COPIES {
        let parcel = parcel_of(rt.alloc(), case)?;
        assert_eq!(rt; parcel_text(rt.alloc(), &parcel)?.as_str(), case.3);
        assert_eq!(rt; text_of_copy(rt.alloc(), &parcel)?.as_str(), case.3);
    }
    Ok(())
}

// Of 2, 0 and 1 cells, so that their parcel takes 9.
static OBJECTS: [Object; 3] = [(30, &[Ref(1), Ref(2)]), (31, &[]), (32, &[Ref(0)])];

// The cells of a heap, and then how many are left, how many objects there are, and whether there is
// a root.
static ROOMS: [(u32, u32, u32, bool); 4] = [
    (0, 0, 0, false),
    (8, 8, 0, false),
    (9, 0, 3, true),
    (12, 3, 3, true),
];

// Whether the parcel is unpacked, with its one root at the first object.
fn is_unpacked(alloc: Global, heap: &mut Heap, parcel: &Parcel) -> Result<bool, UnpackFault>
    requires { ArePlaced parcel.now }
{
    match unpack(alloc, heap, parcel) {
        Ok(roots) => Ok(matches!(roots.as_slice(), [Ref(0)])),
        Err(UnpackFault::NoRoom) => Ok(false),
        Err(UnpackFault::OutOfMemory) => Err(UnpackFault::OutOfMemory),
    }
}

#[test]
fn nodes_need_their_cells(rt: HostRuntime) -> Result<(), Fail> {
    let heap = heap_of(rt.alloc(), 100, &OBJECTS)?;
    let parcel = packed(rt.alloc(), &heap, &[], &[Ref(0)])?;
    for (cells, left, made, has_root) in &ROOMS {
        let mut other = Heap::open(rt.alloc(), *cells)?;
        assert!(rt; is_unpacked(rt.alloc(), &mut other, &parcel)? == *has_root);
        assert_eq!(rt; other.left(), *left);
        assert_eq!(rt; other.objects(), *made);
    }
    Ok(())
}
