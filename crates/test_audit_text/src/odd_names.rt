//! A system whose names have characters that are not shown as they are, and parcels of it.
ghost use Rattle.std.specs.Prelude.{◌≡◌};
ghost use Rattle.test_audit_text.specs.CallsMade.{bare};

use crate::rendering::template;
use jx_base::{
    Class, ClassId, Listed, Node, ObjectId, OutOfMemory, Parcel, Plan, Program, Selector,
    ServiceId, System, Word, text_of,
};
use std::alloc::Global;

fn class(alloc: Global, name: &str) -> Result<Class, OutOfMemory> {
    Ok(Class {
        name: text_of(alloc, name)?,
        parent: None,
        interfaces: Listed::from_vec(Vec::new(alloc)),
        component: None,
        fields: Listed::from_vec(Vec::new(alloc)),
        statics: Listed::from_vec(Vec::new(alloc)),
        methods: Listed::from_vec(Vec::new(alloc)),
        flags: 0,
        constants: Listed::from_vec(Vec::new(alloc)),
    })
}

fn selector(alloc: Global, name: &str, descriptor: &str) -> Result<Selector, OutOfMemory> {
    Ok(Selector {
        name: text_of(alloc, name)?,
        descriptor: text_of(alloc, descriptor)?,
    })
}

// An interface, a class of arrays, and names with characters that are not shown.
pub fn system(alloc: Global) -> Result<System, OutOfMemory> {
    let templates = vec![in alloc; template(alloc, "a")?, template(alloc, "b\n")?]?;
    let classes = vec![in alloc;
        class(alloc, "a/I")?,
        class(alloc, "[I")?,
        class(alloc, "E\"")?,
    ]?;
    let selectors = vec![in alloc;
        selector(alloc, "ask", "([I)V")?,
        selector(alloc, "s\\", "()\"")?,
    ]?;
    Ok(System {
        plan: Plan {
            granules: 64,
            journal: 9000,
            templates: Listed::from_vec(templates),
            classes: Listed::from_vec(Vec::new(alloc)),
        },
        program: Program {
            classes: Listed::from_vec(classes),
            methods: Listed::from_vec(Vec::new(alloc)),
            selectors: Listed::from_vec(selectors),
        },
    })
}

fn node(class: u32, cells: Vec<Word>) -> Node {
    Node {
        class: ClassId(class),
        cells: Listed::from_vec(cells),
    }
}

pub fn parcel(roots: Vec<Word>, nodes: Vec<Node>) -> Parcel
    ensures { result ≡ record { roots = roots.items; nodes = nodes.items } }
{
    Parcel {
        roots: Listed::from_vec(roots),
        nodes: Listed::from_vec(nodes),
    }
}

// [|]
#[tactic(auto, unfolding(crate::specs::CallsMade::bare))]
pub fn nothing(alloc: Global) -> Parcel
    ensures { result ≡ bare }
{
    parcel(Vec::new(alloc), Vec::new(alloc))
}

// [#0|"E\u0022"()]
pub fn exception(alloc: Global) -> Result<Parcel, OutOfMemory> {
    let nodes = vec![in alloc; node(2, Vec::new(alloc))]?;
    Ok(parcel(vec![in alloc; Word::Node(0)]?, nodes))
}

// [i-5 l-9223372036854775808 n #1 p7 m9|"[I"(i1 i2147483647) "E\u0022"(n #0 p4294967295)]
pub fn every_word(alloc: Global) -> Result<Parcel, OutOfMemory> {
    let roots = vec![in alloc;
        Word::Int(-5),
        Word::Long(-9_223_372_036_854_775_808),
        Word::Null,
        Word::Node(1),
        Word::Portal(ServiceId(7), ClassId(0)),
        Word::Mem(ObjectId(9)),
    ]?;
    let elements = vec![in alloc; Word::Int(1), Word::Int(2_147_483_647)]?;
    let portal = Word::Portal(ServiceId(4_294_967_295), ClassId(0));
    let fields = vec![in alloc; Word::Null, Word::Node(0), portal]?;
    let nodes = vec![in alloc; node(1, elements), node(2, fields)]?;
    Ok(parcel(roots, nodes))
}
