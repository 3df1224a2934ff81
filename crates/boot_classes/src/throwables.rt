//! The classes of objects that can be thrown.
ghost use Rattle.std.specs.Prelude.{◌≡◌, IfOk};
ghost use Rattle.program_model.specs.BuiltIn.{language_throwables, nucleus_exceptions};
ghost use Rattle.program_model.specs.BuiltIn.{throwable_below, throwable_itself};
ghost use Rattle.boot_classes.specs.Rows.{throwable_of, throwables_of};

use crate::methods::{constructors, throwable_methods};
use crate::places::{
    ERROR, EXCEPTION, INDEX_EXCEPTION, MACHINE_ERROR, OBJECT, RUNTIME_EXCEPTION, THROWABLE,
};
use crate::shapes::{class_with_field, text_field};
use jx_base::{Class, ClassId, OutOfMemory};
use std::alloc::Global;

// A Throwable class by the class that it is below and its name.
#[derive(Drop)]
struct ThrowableRow(ClassId, &'static str);

#[tactic(auto, unfolding(program_model::specs::BuiltIn::throwable_itself, program_model::specs::BuiltIn::throwable_below, program_model::specs::BuiltIn::class_below, program_model::specs::BuiltIn::built_in_class, program_model::specs::BuiltIn::object_class, program_model::specs::BuiltIn::throwable_class))]
fn throwable_itself(alloc: Global) -> Result<Class, OutOfMemory>
    ensures { IfOk result (λ class. class ≡ throwable_itself) }
{
    let message = text_field(alloc, THROWABLE, "message")?;
    class_with_field(
        alloc,
        OBJECT,
        "java/lang/Throwable",
        message,
        throwable_methods(alloc)?,
    )
}

#[tactic(auto, unfolding(crate::specs::Rows::throwable_of, program_model::specs::BuiltIn::throwable_below, program_model::specs::BuiltIn::throwable_class))]
fn throwable(alloc: Global, row: &ThrowableRow) -> Result<Class, OutOfMemory>
    ensures { IfOk result (λ class. class ≡ throwable_of row.now) }
{
    let message = text_field(alloc, THROWABLE, "message")?;
    class_with_field(alloc, row.0, row.1, message, constructors(alloc)?)
}

fn throwables(alloc: Global, rows: &[ThrowableRow]) -> Result<Vec<Class>, OutOfMemory>
    ensures { IfOk result (λ classes. classes.items ≡ throwables_of rows.now) }
{
    let mut classes = Vec::with_capacity(alloc, rows.len())?;
    for row in rows {
        classes.push(throwable(alloc, row)?)?;
    }
    Ok(classes)
}

pub fn language_throwables(alloc: Global) -> Result<Vec<Class>, OutOfMemory>
    ensures { IfOk result (λ classes. classes.items ≡ language_throwables) }
{
    let mut classes = vec![in alloc; throwable_itself(alloc)?]?;
    let mut below = throwables(
        alloc,
        &[
            ThrowableRow(THROWABLE, "java/lang/Exception"),
            ThrowableRow(EXCEPTION, "java/lang/RuntimeException"),
            ThrowableRow(RUNTIME_EXCEPTION, "java/lang/ArithmeticException"),
            ThrowableRow(RUNTIME_EXCEPTION, "java/lang/NullPointerException"),
            ThrowableRow(RUNTIME_EXCEPTION, "java/lang/IndexOutOfBoundsException"),
            ThrowableRow(INDEX_EXCEPTION, "java/lang/ArrayIndexOutOfBoundsException"),
            ThrowableRow(INDEX_EXCEPTION, "java/lang/StringIndexOutOfBoundsException"),
            ThrowableRow(RUNTIME_EXCEPTION, "java/lang/NegativeArraySizeException"),
            ThrowableRow(RUNTIME_EXCEPTION, "java/lang/ClassCastException"),
            ThrowableRow(RUNTIME_EXCEPTION, "java/lang/ArrayStoreException"),
            ThrowableRow(THROWABLE, "java/lang/Error"),
            ThrowableRow(ERROR, "java/lang/VirtualMachineError"),
            ThrowableRow(MACHINE_ERROR, "java/lang/OutOfMemoryError"),
            ThrowableRow(MACHINE_ERROR, "java/lang/StackOverflowError"),
        ],
    )?;
    classes.append(&mut below)?;
    Ok(classes)
}

#[tactic(auto, unfolding(crate::specs::Rows::throwable_of, program_model::specs::BuiltIn::nucleus_exceptions, program_model::specs::BuiltIn::runtime_exception))]
pub fn nucleus_exceptions(alloc: Global) -> Result<Vec<Class>, OutOfMemory>
    ensures { IfOk result (λ classes. classes.items ≡ nucleus_exceptions) }
{
    throwables(
        alloc,
        &[
            ThrowableRow(RUNTIME_EXCEPTION, "jx/CopyException"),
            ThrowableRow(RUNTIME_EXCEPTION, "jx/EndedException"),
            ThrowableRow(RUNTIME_EXCEPTION, "jx/RevokedException"),
            ThrowableRow(RUNTIME_EXCEPTION, "jx/DroppedException"),
            ThrowableRow(RUNTIME_EXCEPTION, "jx/RangeException"),
            ThrowableRow(RUNTIME_EXCEPTION, "jx/RefusedException"),
        ],
    )
}
