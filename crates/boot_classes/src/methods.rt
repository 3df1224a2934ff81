//! The methods of the built-in classes.
ghost use Rattle.std.specs.Prelude.{◌≡◌, IfOk};
ghost use Rattle.program_model.specs.BuiltIn.{builder_methods, constructors, memory_methods};
ghost use Rattle.program_model.specs.BuiltIn.{object_methods, string_methods, throwable_itself};
ghost use Rattle.program_model.specs.BuiltIn.{zero_methods};
ghost use Rattle.boot_classes.specs.Rows.{declared_method, declared_methods};

use jx_base::{Declared, Listed, OutOfMemory, Selector, text_of};
use std::alloc::Global;

const PUBLIC: u16 = 0x0001;

const PUBLIC_STATIC: u16 = 0x0009;

// A method by its name and its descriptor.
#[derive(Drop)]
struct Signature(&'static str, &'static str);

#[tactic(auto, unfolding(crate::specs::Rows::declared_method))]
fn declared_method(
    alloc: Global,
    flags: u16,
    signature: &Signature,
) -> Result<Declared, OutOfMemory>
    ensures { IfOk result (λ method. method ≡ declared_method flags signature.now) }
{
    let selector = Selector {
        name: text_of(alloc, signature.0)?,
        descriptor: text_of(alloc, signature.1)?,
    };
    Ok(Declared { flags, selector })
}

fn declared_methods(
    alloc: Global,
    flags: u16,
    signatures: &[Signature],
) -> Result<Listed<Declared>, OutOfMemory>
    ensures { IfOk result (λ methods. methods ≡ declared_methods flags signatures.now) }
{
    let mut methods = Vec::with_capacity(alloc, signatures.len())?;
    for signature in signatures {
        methods.push(declared_method(alloc, flags, signature)?)?;
    }
    Ok(Listed::from_vec(methods))
}

#[tactic(auto, unfolding(program_model::specs::BuiltIn::object_methods, program_model::specs::BuiltIn::method, crate::specs::Rows::declared_method))]
pub fn object_methods(alloc: Global) -> Result<Listed<Declared>, OutOfMemory>
    ensures { IfOk result (λ methods. methods ≡ object_methods) }
{
    let signatures = [
        Signature("<init>", "()V"),
        Signature("equals", "(Ljava/lang/Object;)Z"),
    ];
    declared_methods(alloc, PUBLIC, &signatures)
}

#[tactic(auto, unfolding(program_model::specs::BuiltIn::string_methods, program_model::specs::BuiltIn::method, crate::specs::Rows::declared_method))]
pub fn string_methods(alloc: Global) -> Result<Listed<Declared>, OutOfMemory>
    ensures { IfOk result (λ methods. methods ≡ string_methods) }
{
    let signatures = [
        Signature("length", "()I"),
        Signature("charAt", "(I)C"),
        Signature("equals", "(Ljava/lang/Object;)Z"),
        Signature("hashCode", "()I"),
        Signature("concat", "(Ljava/lang/String;)Ljava/lang/String;"),
    ];
    declared_methods(alloc, PUBLIC, &signatures)
}

#[tactic(auto, unfolding(program_model::specs::BuiltIn::builder_methods, program_model::specs::BuiltIn::method, crate::specs::Rows::declared_method))]
pub fn builder_methods(alloc: Global) -> Result<Listed<Declared>, OutOfMemory>
    ensures { IfOk result (λ methods. methods ≡ builder_methods) }
{
    let signatures = [
        Signature("<init>", "()V"),
        Signature("append", "(Ljava/lang/String;)Ljava/lang/StringBuilder;"),
        Signature("append", "(I)Ljava/lang/StringBuilder;"),
        Signature("append", "(J)Ljava/lang/StringBuilder;"),
        Signature("append", "(C)Ljava/lang/StringBuilder;"),
        Signature("append", "(Z)Ljava/lang/StringBuilder;"),
        Signature("toString", "()Ljava/lang/String;"),
    ];
    declared_methods(alloc, PUBLIC, &signatures)
}

#[tactic(auto, unfolding(program_model::specs::BuiltIn::constructors, program_model::specs::BuiltIn::method, crate::specs::Rows::declared_method))]
pub fn constructors(alloc: Global) -> Result<Listed<Declared>, OutOfMemory>
    ensures { IfOk result (λ methods. methods ≡ constructors) }
{
    let signatures = [
        Signature("<init>", "()V"),
        Signature("<init>", "(Ljava/lang/String;)V"),
    ];
    declared_methods(alloc, PUBLIC, &signatures)
}

#[tactic(auto, unfolding(program_model::specs::BuiltIn::throwable_itself, program_model::specs::BuiltIn::constructors, program_model::specs::BuiltIn::method, crate::specs::Rows::declared_method))]
pub fn throwable_methods(alloc: Global) -> Result<Listed<Declared>, OutOfMemory>
    ensures { IfOk result (λ methods. methods ≡ throwable_itself.methods) }
{
    let signatures = [
        Signature("<init>", "()V"),
        Signature("<init>", "(Ljava/lang/String;)V"),
        Signature("getMessage", "()Ljava/lang/String;"),
    ];
    declared_methods(alloc, PUBLIC, &signatures)
}

#[tactic(auto, unfolding(program_model::specs::BuiltIn::zero_methods, program_model::specs::BuiltIn::static_method, crate::specs::Rows::declared_method))]
pub fn zero_methods(alloc: Global) -> Result<Listed<Declared>, OutOfMemory>
    ensures { IfOk result (λ methods. methods ≡ zero_methods) }
{
    let signatures = [
        Signature("print", "(Ljava/lang/String;)V"),
        Signature(
            "export",
            "(Ljava/lang/Object;Ljava/lang/String;I)Ljx/Portal;",
        ),
        Signature("bind", "(Ljava/lang/String;Ljx/Portal;)V"),
        Signature("lookup", "(Ljava/lang/String;)Ljx/Portal;"),
        Signature("alloc", "(I)Ljx/Memory;"),
        Signature("spawn", "(Ljava/lang/String;)I"),
        Signature("kill", "(I)V"),
        Signature("exit", "(I)V"),
        Signature("pause", "()V"),
    ];
    declared_methods(alloc, PUBLIC_STATIC, &signatures)
}

#[tactic(auto, unfolding(program_model::specs::BuiltIn::memory_methods, program_model::specs::BuiltIn::method, crate::specs::Rows::declared_method))]
pub fn memory_methods(alloc: Global) -> Result<Listed<Declared>, OutOfMemory>
    ensures { IfOk result (λ methods. methods ≡ memory_methods) }
{
    let signatures = [
        Signature("size", "()I"),
        Signature("get8", "(I)I"),
        Signature("get16", "(I)I"),
        Signature("get32", "(I)I"),
        Signature("set8", "(II)V"),
        Signature("set16", "(II)V"),
        Signature("set32", "(II)V"),
        Signature("fill", "(III)V"),
        Signature("copy", "(ILjx/Memory;II)V"),
        Signature("sub", "(II)Ljx/Memory;"),
        Signature("split", "(I)[Ljx/Memory;"),
        Signature("revoke", "()Ljx/Memory;"),
        Signature("drop", "()V"),
    ];
    declared_methods(alloc, PUBLIC, &signatures)
}
