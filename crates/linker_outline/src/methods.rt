//! The methods of a linked system.
ghost use Rattle.std.specs.Prelude.{◌≡◌, ◌++◌, ◌<◌, ◌≤◌, ◌^◌, IfOk, OnOk, length, map, position};
ghost use Rattle.std.specs.Prelude.{unwrap_or};
ghost use Rattle.link_model.specs.Linking.{linked_method, sources};
ghost use Rattle.linker_names.specs.Bodies.{instructions_of_member};
ghost use Rattle.linker_names.specs.Names.{selector_of};
ghost use Rattle.linker_outline.specs.Methods.{class_source, file_source};
ghost use Rattle.program_model.specs.BuiltIn.{built_in_table};
ghost use Rattle.program_model.specs.Lookup.{same_selector};

use crate::selectors::Selectors;
use jx_base::{
    Class, ClassId, Code, Declared, Instr, Listed, Member, Method, MethodId, OutOfMemory,
};
use linker_names::{NameAndType, ReadClass};
use std::alloc::Global;

// The number of a selector, 0 of one that isn't there.
fn number_of(selectors: &Selectors, member: NameAndType<'_>) -> MethodId
    requires { length selectors.now < 2 ^ 32 }
    ensures { result.0
        ≡ unwrap_or (position (same_selector (selector_of member.entry)) selectors.now) 0 }
{
    match selectors.find(member) {
        Some(place) => MethodId(place as u32),
        None => MethodId(0),
    }
}

// A method that a built-in class declares.
#[tactic(auto, unfolding(link_model::specs::Linking::linked_method))]
fn built_in_method(
    alloc: Global,
    selectors: &Selectors,
    class: ClassId,
    declared: &Declared,
) -> Method
    requires { length selectors.now < 2 ^ 32 }
    ensures { result ≡ linked_method selectors.now (class_source class.0 declared.now) }
{
    let member = NameAndType {
        name: declared.selector.name.as_slice(),
        descriptor: declared.selector.descriptor.as_slice(),
    };
    Method {
        class,
        selector: number_of(selectors, member),
        flags: declared.flags,
        code: None,
        instrs: Listed::from_vec(Vec::new(alloc)),
    }
}

fn copy_of_code(alloc: Global, code: &Option<Code>) -> Result<Option<Code>, OutOfMemory>
    ensures { IfOk result (λ copy. copy ≡ code.now) }
{
    match code {
        Some(code) => Ok(Some(code.copy(alloc)?)),
        None => Ok(None),
    }
}

fn copy_of_body(alloc: Global, instrs: &[Instr]) -> Result<Listed<Instr>, OutOfMemory>
    ensures { IfOk result (λ copy. copy ≡ instrs.now) }
{
    let mut copies = Vec::with_capacity(alloc, instrs.len())?;
    for instr in instrs {
        copies.push(Instr {
            pc: instr.pc,
            opcode: instr.opcode,
            wide: instr.wide,
            operands: instr.operands.copy(alloc)?,
        })?;
    }
    Ok(Listed::from_vec(copies))
}

// A method that a class file declares, with its instructions.
#[tactic(auto, unfolding(link_model::specs::Linking::linked_method, link_model::specs::Linking::declared_of, link_model::specs::ClassFiles::member_selector))]
fn file_method(
    alloc: Global,
    selectors: &Selectors,
    class: ClassId,
    member: &Member,
    body: &[Instr],
) -> Result<Method, OutOfMemory>
    requires small { length selectors.now < 2 ^ 32 }
    requires body { body.now ≡ instructions_of_member member.now }
    ensures { IfOk result (λ method. method
        ≡ linked_method selectors.now (file_source class.0 member.now)) }
{
    let selector = NameAndType {
        name: member.name.as_slice(),
        descriptor: member.descriptor.as_slice(),
    };
    Ok(Method {
        class,
        selector: number_of(selectors, selector),
        flags: member.flags,
        code: copy_of_code(alloc, &member.code)?,
        instrs: copy_of_body(alloc, body)?,
    })
}

// Adds the methods of a built-in class.
fn push_of_class(
    alloc: Global,
    methods: &mut Vec<Method>,
    selectors: &Selectors,
    id: ClassId,
    class: &Class,
) -> Result<(), OutOfMemory>
    requires { length selectors.now < 2 ^ 32 }
    ensures { OnOk result (methods.new.items ≡ methods.old.items
        ++ map (linked_method selectors.now) (map (class_source id.0) class.now.methods)) }
{
    for declared in class.methods.as_slice() {
        methods.push(built_in_method(alloc, selectors, id, declared))?;
    }
    Ok(())
}

// Adds the methods of a class file.
fn push_of_file(
    alloc: Global,
    methods: &mut Vec<Method>,
    selectors: &Selectors,
    id: ClassId,
    class: &ReadClass,
) -> Result<(), OutOfMemory>
    requires { length selectors.now < 2 ^ 32 }
    ensures { OnOk result (methods.new.items ≡ methods.old.items
        ++ map (linked_method selectors.now) (map (file_source id.0) class.now.methods)) }
{
    let members = class.file().methods.as_slice();
    for place in 0..members.len() {
        let body = class.instructions(place);
        methods.push(file_method(alloc, selectors, id, &members[place], body)?)?;
    }
    Ok(())
}

/// The methods of all classes in their order: those of the built-in classes, then those of the
/// files.
pub fn all_methods(
    alloc: Global,
    built_in: &[Class],
    files: &[ReadClass],
    selectors: &Selectors,
) -> Result<Vec<Method>, OutOfMemory>
    requires built_in { built_in.now ≡ built_in_table }
    requires few { length files.now ≤ 256 }
    requires small { length selectors.now < 2 ^ 32 }
    ensures { IfOk result (λ methods.
        methods.items ≡ map (linked_method selectors.now) (sources files.now)) }
{
    let mut methods = Vec::new(alloc);
    for (place, class) in built_in.iter().enumerate() {
        let id = ClassId(place as u32);
        push_of_class(alloc, &mut methods, selectors, id, class)?;
    }
    for (place, class) in files.iter().enumerate() {
        let id = ClassId((built_in.len() + place) as u32);
        push_of_file(alloc, &mut methods, selectors, id, class)?;
    }
    Ok(methods)
}
