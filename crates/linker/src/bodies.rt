//! Class files with the instructions of their methods.
ghost use Rattle.std.specs.Prelude.{All, ◌≡◌, ◌<◌, ◌^◌, Some, IfErr, IfOk, IfSome, length, map};
ghost use Rattle.class_grammar.specs.ClassGrammar.{IsShortCode};
ghost use Rattle.class_grammar.specs.ReadFiles.{IsReadCode, IsReadFile};
ghost use Rattle.code_reader.specs.CodeReading.{FindsFault};
ghost use Rattle.linker.specs.Bodies.{IsBody, IsReadMethod};
ghost use Rattle.linker_names.specs.Bodies.{instructions_of_code, instructions_of_member};
ghost use Rattle.program_model.specs.Instructions.{instructions_of};

use code_reader::{CodeError, read_code};
use jx_base::{ClassFile, Code, Instr, Listed, Member, OutOfMemory};
use linker_names::ReadClass;
use std::alloc::{AllocError, Global};

/// The instructions of a method's code, or its first fault.
pub fn read_body(alloc: Global, code: &Code) -> Result<Listed<Instr>, CodeError>
    requires short { length code.now.code < 2 ^ 16 }
    ensures found { IfOk result (IsBody code.now) }
    ensures fault { IfErr result (FindsFault code.now.code code.now.table) }
{
    match read_code(alloc, code.code.as_slice(), code.table.as_slice()) {
        Ok(instrs) => Ok(Listed::from_vec(instrs)),
        Err(error) => Err(error),
    }
}

// The instructions of code that is read.
fn known_body(alloc: Global, code: &Code) -> Result<Listed<Instr>, OutOfMemory>
    requires short { length code.now.code < 2 ^ 16 }
    requires read { IsReadCode code.now }
    ensures { IfOk result (λ body. body ≡ instructions_of code.now.code) }
{
    match read_code(alloc, code.code.as_slice(), code.table.as_slice()) {
        Ok(instrs) => Ok(Listed::from_vec(instrs)),
        // The code is read, so that it has no fault.
        Err(CodeError::Bad(_)) => unreachable!(),
        Err(CodeError::OutOfMemory) => Err(AllocError),
    }
}

fn body_of_method(alloc: Global, code: &Option<Code>) -> Result<Listed<Instr>, OutOfMemory>
    requires short { IsShortCode code.now }
    requires read { IfSome code.now IsReadCode }
    ensures { IfOk result (λ body. body ≡ instructions_of_code code.now) }
{
    match code {
        Some(code) => known_body(alloc, code),
        None => Ok(Listed::from_vec(Vec::new(alloc))),
    }
}

fn bodies_of_methods(alloc: Global, methods: &[Member]) -> Result<Vec<Listed<Instr>>, OutOfMemory>
    requires { All IsReadMethod methods.now }
    ensures { IfOk result (λ bodies. bodies.items ≡ map instructions_of_member methods.now) }
{
    let mut bodies = Vec::with_capacity(alloc, methods.len())?;
    for method in methods {
        bodies.push(body_of_method(alloc, &method.code)?)?;
    }
    Ok(bodies)
}

/// The class file with the instructions of its methods, whose code is read.
pub fn with_bodies(alloc: Global, file: ClassFile) -> Result<ReadClass, OutOfMemory>
    requires { IsReadFile file }
    ensures { IfOk result (λ class. class ≡ file) }
{
    let bodies = bodies_of_methods(alloc, file.methods.as_slice())?;
    Ok(ReadClass::new(file, bodies))
}
