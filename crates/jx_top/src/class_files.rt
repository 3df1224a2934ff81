//! Fetching the class files of a plan.
ghost use Rattle.std.specs.Prelude.{◌≡◌, ◌≤◌, ◌^◌, ◌++◌, IfOk, IsErrOf, MatchResult, codes, length};
ghost use Rattle.std.specs.Prelude.{string_bytes};
ghost use Rattle.std.specs.List.{AllByRecursion};
ghost use Rattle.class_grammar.specs.ReadFiles.{IsReadFile};
ghost use Rattle.jx_base.specs.Files.{HasShelfFailed};
ghost use Rattle.jx_top.specs.Finding.{Finds, HoldsClass};
ghost use Rattle.jx_top.specs.Systems.{HasClass, HasRefusedClass, HaveClasses, IsClassRefused};
ghost use Rattle.jx_top.specs.Systems.{file_of_class};

use crate::class_error::ClassError;
use crate::fetching::{copy_of, fetch_bytes};
use crate::read_classes::read_whole;
use crate::status::Status;
use jx_base::{Name, Shelf};
use linker_names::ReadClass;
use std::alloc::Global;

/// The class of that name that the bytes are.
pub fn class_of_bytes(alloc: Global, name: &str, bytes: &[u8]) -> Result<ReadClass, Status>
    requires { length bytes.now ≤ 2 ^ 31 }
    ensures class { HoldsClass name.now bytes.now result }
    ensures file { IfOk result IsReadFile }
{
    match read_whole(alloc, bytes) {
        Ok(class) => Ok(class),
        Err(ClassError::Bad(defect)) => Err(Status::BadClass(copy_of(alloc, name)?, defect)),
        Err(ClassError::OutOfMemory) => Err(Status::OutOfMemory),
    }
}

// The name of the file of a class.
fn file_of_class(alloc: Global, name: &str) -> Result<String, Status>
    ensures { MatchResult result (λ file. string_bytes file ≡ file_of_class name.now)
        (λ status. status ≡ Status.OutOfMemory) }
{
    let mut file = copy_of(alloc, name)?;
    match file.push_str(".class") {
        Ok(()) => Ok(file),
        Err(_) => Err(Status::OutOfMemory),
    }
}

// The class of that name.
fn fetch_class<L: Shelf>(alloc: Global, name: &str, shelf: &mut L) -> Result<ReadClass, Status>
    ensures class { Finds (L.state shelf.old).told (λ files class. HasClass files name.now class)
        (λ files o. IsClassRefused files name.now o) result }
    ensures file { IfOk result IsReadFile }
    ensures same { (L.state shelf.new).told ≡ (L.state shelf.old).told }
    ensures later { (L.state shelf.old).faults ≤ (L.state shelf.new).faults }
    ensures cause { IsErrOf result Status.ShelfFault
        → HasShelfFailed (L.state shelf.old) (L.state shelf.new) }
{
    let file = file_of_class(alloc, name)?;
    let bytes = fetch_bytes(alloc, file.as_str(), shelf)?;
    class_of_bytes(alloc, name, &bytes)
}

/// The classes of those names, each fetched and read before the next.
pub fn fetch_classes<L: Shelf>(
    alloc: Global,
    names: &[Name],
    shelf: &mut L,
) -> Result<Vec<ReadClass>, Status>
    ensures classes { Finds (L.state shelf.old).told
        (λ files classes. HaveClasses files names.now classes.items)
        (λ files o. HasRefusedClass files names.now o) result }
    ensures files { IfOk result (λ classes. AllByRecursion IsReadFile classes.items) }
    ensures count { IfOk result (λ classes. length classes.items ≡ length names.now) }
    ensures later { (L.state shelf.old).faults ≤ (L.state shelf.new).faults }
    ensures cause { IsErrOf result Status.ShelfFault
        → HasShelfFailed (L.state shelf.old) (L.state shelf.new) }
{
    let mut classes = Vec::new(alloc);
    for name in names {
        classes.push(fetch_class(alloc, name.as_str(), shelf)?)?;
    }
    Ok(classes)
}
