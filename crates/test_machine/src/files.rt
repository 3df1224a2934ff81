//! Class files, read whole.
ghost use Rattle.std.specs.Prelude.{◌<◌, ◌≤◌, ◌^◌, IfOk, IfSome, OnOk, length};
ghost use Rattle.std.specs.List.{AllByRecursion};
ghost use Rattle.class_grammar.specs.ClassGrammar.{HasShortCodes, IsShortCode};
ghost use Rattle.class_grammar.specs.ReadFiles.{IsReadCode, IsReadFile};

use crate::short_forms::class_text;
use class_asm::{AsmError, assemble};
use class_reader::{ReadFault, read_class};
use code_reader::{CodeError, read_code};
use jx_base::{ClassFile, Code, Error, Member};
use std::alloc::Global;

/// Why there is no system, in words, or memory was refused.
pub type Unlinked = Error<String>;

/// There is no system, for a reason in words.
pub fn because(alloc: Global, reason: &str) -> Unlinked {
    match String::from_str(alloc, reason) {
        Ok(reason) => Unlinked::Bad(reason),
        Err(_) => Unlinked::OutOfMemory,
    }
}

// That code is read.
fn try_code(alloc: Global, code: &Code) -> Result<(), Unlinked>
    requires short { length code.now.code < 2 ^ 16 }
    ensures { OnOk result (IsReadCode code.now) }
{
    match read_code(alloc, code.code.as_slice(), code.table.as_slice()) {
        Ok(_) => Ok(()),
        Err(CodeError::Bad(_)) => Err(because(alloc, "unread code")),
        Err(CodeError::OutOfMemory) => Err(Unlinked::OutOfMemory),
    }
}

fn try_body(alloc: Global, code: &Option<Code>) -> Result<(), Unlinked>
    requires short { IsShortCode code.now }
    ensures { OnOk result (IfSome code.now IsReadCode) }
{
    match code {
        Some(code) => try_code(alloc, code),
        None => Ok(()),
    }
}

fn try_methods(alloc: Global, methods: &[Member]) -> Result<(), Unlinked>
    requires short { HasShortCodes methods.now }
    ensures { OnOk result (AllByRecursion (λ m. IfSome m.code IsReadCode) methods.now) }
{
    for method in methods {
        try_body(alloc, &method.code)?;
    }
    Ok(())
}

fn short_file(alloc: Global, bytes: &[u8]) -> Result<ClassFile, Unlinked>
    requires short { length bytes.now ≤ 2 ^ 31 }
    ensures { IfOk result IsReadFile }
{
    match read_class(alloc, bytes) {
        Ok(file) => {
            try_methods(alloc, file.methods.as_slice())?;
            Ok(file)
        }
        Err(ReadFault::Bad(_)) => Err(because(alloc, "bad class file")),
        Err(ReadFault::OutOfMemory) => Err(Unlinked::OutOfMemory),
    }
}

/// The class file of the bytes, with code that is read.
pub fn file_of(alloc: Global, bytes: &[u8]) -> Result<ClassFile, Unlinked>
    ensures { IfOk result IsReadFile }
{
    if bytes.len() > 1 << 31 {
        return Err(because(alloc, "a long file"));
    }
    short_file(alloc, bytes)
}

/// The class file of a class as cases write it.
pub fn assembled(alloc: Global, short: &str) -> Result<ClassFile, Unlinked>
    ensures { IfOk result IsReadFile }
{
    let text = class_text(alloc, short)?;
    if text.len() > 1 << 31 {
        return Err(because(alloc, "a long text"));
    }
    match assemble(alloc, text.as_bytes()) {
        Ok(bytes) => file_of(alloc, bytes.as_slice()),
        Err(AsmError::Bad(_)) => Err(because(alloc, "bad text")),
        Err(AsmError::OutOfMemory) => Err(Unlinked::OutOfMemory),
    }
}
