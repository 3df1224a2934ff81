//! A system with the built-in classes and a few more.

use boot_classes::boot;
use jx_base::{
    Class, ClassId, Field, Listed, OutOfMemory, Plan, Program, System, Template, text_of,
};
use std::alloc::Global;

/// The numbers of the classes behind the built-in ones: four of the plan, then arrays.
pub const PAIR: u32 = 27;

pub const HIDDEN: u32 = 28;

pub const SERVICE: u32 = 29;

pub const SERVER: u32 = 30;

pub const BOOLEANS: u32 = 31;

pub const BYTES: u32 = 32;

pub const CHARS: u32 = 33;

pub const SHORTS: u32 = 34;

pub const INTS: u32 = 35;

pub const LONGS: u32 = 36;

pub const TABLE: u32 = 37;

pub const PAIRS: u32 = 38;

pub const HIDDEN_ARRAY: u32 = 39;

pub const SERVICES: u32 = 40;

pub const OBJECTS: u32 = 41;

pub const MEMORIES: u32 = 42;

pub const PORTALS: u32 = 43;

pub const STRINGS: u32 = 44;

pub const HIDDEN_TABLE: u32 = 45;

/// The number of a class behind all of these.
pub const BEHIND: u32 = 46;

fn class(
    alloc: Global,
    name: &str,
    interfaces: Vec<ClassId>,
    component: Option<&str>,
) -> Result<Class, OutOfMemory> {
    let component = match component {
        Some(text) => Some(text_of(alloc, text)?),
        None => None,
    };
    Ok(Class {
        name: text_of(alloc, name)?,
        parent: Some(ClassId(0)),
        interfaces: Listed::from_vec(interfaces),
        component,
        fields: Listed::from_vec(Vec::new(alloc)),
        statics: Listed::from_vec(Vec::new(alloc)),
        methods: Listed::from_vec(Vec::new(alloc)),
        flags: 0x21,
        constants: Listed::from_vec(Vec::new(alloc)),
    })
}

fn field(alloc: Global, name: &str, descriptor: &str) -> Result<Field, OutOfMemory> {
    Ok(Field {
        owner: ClassId(PAIR),
        name: text_of(alloc, name)?,
        descriptor: text_of(alloc, descriptor)?,
    })
}

// A class with a boolean and a long.
fn pair(alloc: Global) -> Result<Class, OutOfMemory> {
    let mut pair = class(alloc, "Pair", Vec::new(alloc), None)?;
    let first = field(alloc, "first", "Z")?;
    let second = field(alloc, "second", "J")?;
    pair.fields = Listed::from_vec(vec![in alloc; first, second]?);
    Ok(pair)
}

// The arrays behind the classes of the plan, and their components.
static ARRAYS: [(&str, &str); 15] = [
    ("[Z", "Z"),
    ("[B", "B"),
    ("[C", "C"),
    ("[S", "S"),
    ("[I", "I"),
    ("[J", "J"),
    ("[[Z", "[Z"),
    ("[LPair;", "LPair;"),
    ("[LHidden;", "LHidden;"),
    ("[LService;", "LService;"),
    ("[Ljava/lang/Object;", "Ljava/lang/Object;"),
    ("[Ljx/Memory;", "Ljx/Memory;"),
    ("[Ljx/Portal;", "Ljx/Portal;"),
    ("[Ljava/lang/String;", "Ljava/lang/String;"),
    ("[[LHidden;", "[LHidden;"),
];

fn classes(alloc: Global) -> Result<Vec<Class>, OutOfMemory> {
    let mut classes = boot(alloc)?;
    classes.push(pair(alloc)?)?;
    classes.push(class(alloc, "Hidden", Vec::new(alloc), None)?)?;
    classes.push(class(alloc, "Service", Vec::new(alloc), None)?)?;
    let above = vec![in alloc; ClassId(SERVICE)]?;
    classes.push(class(alloc, "Server", above, None)?)?;
    for (name, component) in &ARRAYS {
        classes.push(class(alloc, name, Vec::new(alloc), Some(component))?)?;
    }
    Ok(classes)
}

// Adds two interfaces that extend both of these.
fn add_layer(
    alloc: Global,
    classes: &mut Vec<Class>,
    above: Option<(ClassId, ClassId)>,
) -> Result<(), OutOfMemory> {
    for name in &["First", "Second"] {
        let interfaces = match above {
            Some((first, second)) => vec![in alloc; first, second]?,
            None => Vec::new(alloc),
        };
        classes.push(class(alloc, name, interfaces, None)?)?;
    }
    Ok(())
}

fn system_of(alloc: Global, classes: Vec<Class>) -> Result<System, OutOfMemory> {
    let template = Template {
        name: Listed::from_vec(Vec::new(alloc)),
        main: 0,
        classes: Listed::from_vec(vec![in alloc; 0, 2, 3]?),
        heap: 64,
        fuel: 1000,
        boot: true,
    };
    Ok(System {
        plan: Plan {
            granules: 16,
            journal: 8208,
            templates: Listed::from_vec(vec![in alloc; template]?),
            classes: Listed::from_vec(Vec::new(alloc)),
        },
        program: Program {
            classes: Listed::from_vec(classes),
            methods: Listed::from_vec(Vec::new(alloc)),
            selectors: Listed::from_vec(Vec::new(alloc)),
        },
    })
}

/// One template, which lists Pair, Service and Server, the first, third and fourth class of the plan.
pub fn system(alloc: Global) -> Result<System, OutOfMemory> {
    system_of(alloc, classes(alloc)?)
}

/// The same with so many layers of two interfaces behind all, each of which extends both of the layer
/// before it.
pub fn layered(alloc: Global, layers: u32) -> Result<System, OutOfMemory> {
    let mut classes = classes(alloc)?;
    add_layer(alloc, &mut classes, None)?;
    for layer in 1..layers {
        let above = BEHIND.saturating_add(layer.saturating_mul(2));
        let first = ClassId(above.saturating_sub(2));
        let second = ClassId(above.saturating_sub(1));
        add_layer(alloc, &mut classes, Some((first, second)))?;
    }
    system_of(alloc, classes)
}
