//! Reading a class with the code of its methods.
ghost use Rattle.std.specs.Prelude.{◌≤◌, ◌<◌, ◌^◌, IfOk, length};
ghost use Rattle.class_grammar.specs.ReadFiles.{IsReadFile};
ghost use Rattle.class_grammar.specs.ClassGrammar.{IsShortCode, HasShortCodes};
ghost use Rattle.jx_top.specs.ReadClasses.{ReadsClass, ReadsMethods, ReadsMethod, ReadsCode};

use crate::class_error::ClassError;
use crate::defect::{Defect, DefectKind};
use class_reader::{ReadFault, read_class};
use code_reader::CodeError;
use jx_base::{Code, Instr, Listed, Member};
use linker::read_body;
use linker_names::ReadClass;
use std::alloc::Global;

fn read_one(alloc: Global, code: &Code) -> Result<Listed<Instr>, ClassError>
    requires { length code.now.code < 2 ^ 16 }
    ensures { ReadsCode code.now result }
{
    match read_body(alloc, code) {
        Ok(body) => Ok(body),
        Err(CodeError::Bad(fault)) => Err(ClassError::Bad(Defect {
            at: u64::from(code.at) + u64::from(fault.pc),
            kind: DefectKind::Code(fault.kind),
        })),
        Err(CodeError::OutOfMemory) => Err(ClassError::OutOfMemory),
    }
}

fn read_method(alloc: Global, code: &Option<Code>) -> Result<Listed<Instr>, ClassError>
    requires { IsShortCode code.now }
    ensures { ReadsMethod code.now result }
{
    match code {
        None => Ok(Listed::from_vec(Vec::new(alloc))),
        Some(code) => read_one(alloc, code),
    }
}

fn read_methods(alloc: Global, methods: &[Member]) -> Result<Vec<Listed<Instr>>, ClassError>
    requires { HasShortCodes methods.now }
    ensures { ReadsMethods methods.now result }
{
    let mut bodies = Vec::with_capacity(alloc, methods.len())?;
    for method in methods {
        bodies.push(read_method(alloc, &method.code)?)?;
    }
    Ok(bodies)
}

/// The class that the bytes are, with code that is read.
pub fn read_whole(alloc: Global, bytes: &[u8]) -> Result<ReadClass, ClassError>
    requires { length bytes.now ≤ 2 ^ 31 }
    ensures class { ReadsClass bytes.now result }
    ensures file { IfOk result IsReadFile }
{
    match read_class(alloc, bytes) {
        Ok(file) => {
            let bodies = read_methods(alloc, file.methods.as_slice())?;
            Ok(ReadClass::new(file, bodies))
        }
        Err(ReadFault::Bad(fault)) => Err(ClassError::Bad(Defect {
            at: u64::from(fault.at),
            kind: DefectKind::File(fault.kind),
        })),
        Err(ReadFault::OutOfMemory) => Err(ClassError::OutOfMemory),
    }
}
