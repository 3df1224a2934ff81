//! The plan of a system, and the program that linking makes of its classes.

ghost use Rattle.std.specs.Prelude.{◌≡◌, IfOk};

use crate::OutOfMemory;
use crate::class_file::{Code, Instr};
use crate::ids::{ClassId, MethodId};
use crate::listed::{Listed, Name, Text};
use std::alloc::Global;

/// A kind of domain. `main` and `classes` are places in `Plan::classes`. The heap is in cells, from
/// 16 to 131,072; the fuel in instructions, up to 100,000,000.
#[derive(Drop)]
pub struct Template {
    pub name: Text,
    pub main: u32,
    pub classes: Listed<u32>,
    pub heap: u32,
    pub fuel: u32,
    pub boot: bool,
}

/// A described system. The machine has 1 to 262,144 granules of 64 bytes, the journal 8,208 to
/// 16,777,216 words. `classes` has the names in order of first mention.
#[derive(Drop)]
pub struct Plan {
    pub granules: u32,
    pub journal: u32,
    pub templates: Listed<Template>,
    pub classes: Listed<Name>,
}

/// A method's name with its descriptor.
#[derive(PartialEq, Eq, Hash, Drop)]
pub struct Selector {
    pub name: Text,
    pub descriptor: Text,
}

impl Selector {
    /// The same selector once more.
    pub fn copy(&self, alloc: Global) -> Result<Selector, OutOfMemory>
        ensures { IfOk result (λ selector. selector ≡ self.now) }
    {
        Ok(Selector {
            name: self.name.copy(alloc)?,
            descriptor: self.descriptor.copy(alloc)?,
        })
    }
}

/// A field of a layout, with the class that declares it.
#[derive(Drop)]
pub struct Field {
    pub owner: ClassId,
    pub name: Text,
    pub descriptor: Text,
}

impl Field {
    /// The same field once more.
    pub fn copy(&self, alloc: Global) -> Result<Field, OutOfMemory>
        ensures { IfOk result (λ field. field ≡ self.now) }
    {
        Ok(Field {
            owner: self.owner,
            name: self.name.copy(alloc)?,
            descriptor: self.descriptor.copy(alloc)?,
        })
    }
}

/// A method as a class declares it.
#[derive(Drop)]
pub struct Declared {
    pub flags: u16,
    pub selector: Selector,
}

impl Declared {
    /// The same method once more.
    pub fn copy(&self, alloc: Global) -> Result<Declared, OutOfMemory>
        ensures { IfOk result (λ method. method ≡ self.now) }
    {
        Ok(Declared {
            flags: self.flags,
            selector: self.selector.copy(alloc)?,
        })
    }
}

/// What a constant means. `Instance` has the place among an object's cells, `Static` the place
/// among a domain's static fields, each with the declaring class; `Method` has a place in
/// `Program::methods`.
#[derive(Drop)]
pub enum Resolved {
    Unused,
    Int(i32),
    Long(i64),
    Str(Text),
    Class(ClassId),
    Instance(ClassId, u32),
    Static(ClassId, u32),
    Method(u32),
}

/// A linked class. `parent` is `None` for java/lang/Object alone; `component` is the descriptor of
/// an array's element, and `None` for other classes. `fields` is the layout of an instance, the
/// parent's first; `statics` and `methods` are what the class itself declares, in file order.
/// `constants` goes by constant index.
#[derive(Drop)]
pub struct Class {
    pub name: Text,
    pub parent: Option<ClassId>,
    pub interfaces: Listed<ClassId>,
    pub component: Option<Text>,
    pub fields: Listed<Field>,
    pub statics: Listed<Field>,
    pub methods: Listed<Declared>,
    pub flags: u16,
    pub constants: Listed<Resolved>,
}

/// A linked method. `code` is `None` and `instrs` empty exactly where it is abstract or built in.
#[derive(Drop)]
pub struct Method {
    pub class: ClassId,
    pub selector: MethodId,
    pub flags: u16,
    pub code: Option<Code>,
    pub instrs: Listed<Instr>,
}

/// The classes of a system, built in, of the plan and of arrays, with all their methods.
#[derive(Drop)]
pub struct Program {
    pub classes: Listed<Class>,
    pub methods: Listed<Method>,
    pub selectors: Listed<Selector>,
}

/// A plan with its linked program.
#[derive(Drop)]
pub struct System {
    pub plan: Plan,
    pub program: Program,
}
