//! The table of built-in methods, by the class that declares them (docs/boot_classes.md).
ghost use Rattle.std.specs.Prelude.{◌≡◌, IfSome, IsSomeAnd, find, map};
ghost use Rattle.std.specs.List.{AllByRecursion};
ghost use Rattle.std.specs.Option.{option_map};
ghost use Rattle.std.specs.Str.{bytes_eq};
ghost use Rattle.interp_built_in.specs.BuiltIns.{effect_of, HasParameters};
ghost use Rattle.interp_built_in.specs.Table.{built_in_at, is_record_of, method_of};
ghost use Rattle.interp_built_in.specs.Table.{HasItsParameters};
ghost use Rattle.machine_model.specs.BuiltInMethods.{effects_of};
ghost use Rattle.program_model.specs.Lookup.{selector_at};
ghost use Rattle.program_model.specs.Types.{parameter_types};

use crate::built_in::{Appended, BuiltIn, IntAct, MemoryAct, PlaceAct, RangeAct, TextAct};
use crate::texts::is_ascii_text;
use jx_base::{ClassId, Method, Selector, System};
use program_types::{BUILDER, MEMORY, PORTAL, STRING, THROWABLE, ZERO};

// java/lang/Object
const OBJECT: ClassId = ClassId(0);

// A method of a class: its name, its descriptor and what it does.
#[derive(Clone, Copy)]
struct MethodRecord(&'static str, &'static str, BuiltIn);

static OBJECT_METHODS: [MethodRecord; 2] = [
    MethodRecord("<init>", "()V", BuiltIn::Construct),
    MethodRecord("equals", "(Ljava/lang/Object;)Z", BuiltIn::IsSame),
];

static STRING_METHODS: [MethodRecord; 5] = [
    MethodRecord("length", "()I", BuiltIn::Length),
    MethodRecord("charAt", "(I)C", BuiltIn::CharAt),
    MethodRecord("equals", "(Ljava/lang/Object;)Z", BuiltIn::EqualsText),
    MethodRecord("hashCode", "()I", BuiltIn::HashCode),
    MethodRecord(
        "concat",
        "(Ljava/lang/String;)Ljava/lang/String;",
        BuiltIn::Concat,
    ),
];

static BUILDER_METHODS: [MethodRecord; 7] = [
    MethodRecord("<init>", "()V", BuiltIn::MakeBuilder),
    MethodRecord(
        "append",
        "(Ljava/lang/String;)Ljava/lang/StringBuilder;",
        BuiltIn::Append(Appended::Text),
    ),
    MethodRecord(
        "append",
        "(I)Ljava/lang/StringBuilder;",
        BuiltIn::Append(Appended::Number),
    ),
    MethodRecord(
        "append",
        "(J)Ljava/lang/StringBuilder;",
        BuiltIn::Append(Appended::Number),
    ),
    MethodRecord(
        "append",
        "(C)Ljava/lang/StringBuilder;",
        BuiltIn::Append(Appended::Unit),
    ),
    MethodRecord(
        "append",
        "(Z)Ljava/lang/StringBuilder;",
        BuiltIn::Append(Appended::Bool),
    ),
    MethodRecord("toString", "()Ljava/lang/String;", BuiltIn::FirstCell),
];

// Of each class that can be thrown.
static CONSTRUCTORS: [MethodRecord; 2] = [
    MethodRecord("<init>", "()V", BuiltIn::Construct),
    MethodRecord("<init>", "(Ljava/lang/String;)V", BuiltIn::SetMessage),
];

static THROWABLE_METHODS: [MethodRecord; 3] = [
    MethodRecord("<init>", "()V", BuiltIn::Construct),
    MethodRecord("<init>", "(Ljava/lang/String;)V", BuiltIn::SetMessage),
    MethodRecord("getMessage", "()Ljava/lang/String;", BuiltIn::FirstCell),
];

static ZERO_METHODS: [MethodRecord; 9] = [
    MethodRecord(
        "print",
        "(Ljava/lang/String;)V",
        BuiltIn::OfText(TextAct::Print),
    ),
    MethodRecord(
        "export",
        "(Ljava/lang/Object;Ljava/lang/String;I)Ljx/Portal;",
        BuiltIn::Export,
    ),
    MethodRecord("bind", "(Ljava/lang/String;Ljx/Portal;)V", BuiltIn::Bind),
    MethodRecord("lookup", "(Ljava/lang/String;)Ljx/Portal;", BuiltIn::Lookup),
    MethodRecord("alloc", "(I)Ljx/Memory;", BuiltIn::OfInt(IntAct::Alloc)),
    MethodRecord(
        "spawn",
        "(Ljava/lang/String;)I",
        BuiltIn::OfText(TextAct::Spawn),
    ),
    MethodRecord("kill", "(I)V", BuiltIn::OfInt(IntAct::Kill)),
    MethodRecord("exit", "(I)V", BuiltIn::OfInt(IntAct::Exit)),
    MethodRecord("pause", "()V", BuiltIn::Pause),
];

static MEMORY_METHODS: [MethodRecord; 13] = [
    MethodRecord("size", "()I", BuiltIn::OfMemory(MemoryAct::Size)),
    MethodRecord("get8", "(I)I", BuiltIn::AtPlace(PlaceAct::Get(1))),
    MethodRecord("get16", "(I)I", BuiltIn::AtPlace(PlaceAct::Get(2))),
    MethodRecord("get32", "(I)I", BuiltIn::AtPlace(PlaceAct::Get(4))),
    MethodRecord("set8", "(II)V", BuiltIn::OverRange(RangeAct::Set(1))),
    MethodRecord("set16", "(II)V", BuiltIn::OverRange(RangeAct::Set(2))),
    MethodRecord("set32", "(II)V", BuiltIn::OverRange(RangeAct::Set(4))),
    MethodRecord("fill", "(III)V", BuiltIn::Fill),
    MethodRecord("copy", "(ILjx/Memory;II)V", BuiltIn::Copy),
    MethodRecord("sub", "(II)Ljx/Memory;", BuiltIn::OverRange(RangeAct::Sub)),
    MethodRecord(
        "split",
        "(I)[Ljx/Memory;",
        BuiltIn::AtPlace(PlaceAct::Split),
    ),
    MethodRecord(
        "revoke",
        "()Ljx/Memory;",
        BuiltIn::OfMemory(MemoryAct::Revoke),
    ),
    MethodRecord("drop", "()V", BuiltIn::OfMemory(MemoryAct::Release)),
];

// The methods of a built-in class. All classes but those that are named can be thrown.
fn methods_of(class: ClassId) -> &'static [MethodRecord]
    ensures effects { map (method_of class.0) result.now ≡ effects_of class.0 }
    ensures parameters { AllByRecursion HasItsParameters result.now }
{
    if class == OBJECT {
        &OBJECT_METHODS
    } else if class == STRING {
        &STRING_METHODS
    } else if class == BUILDER {
        &BUILDER_METHODS
    } else if class == THROWABLE {
        &THROWABLE_METHODS
    } else if class == PORTAL {
        &[]
    } else if class == ZERO {
        &ZERO_METHODS
    } else if class == MEMORY {
        &MEMORY_METHODS
    } else {
        &CONSTRUCTORS
    }
}

fn is_record_of(selector: &Selector, method: MethodRecord) -> bool
    ensures { result ≡ is_record_of selector.now method }
{
    is_ascii_text(selector.name.as_slice(), method.0)
        && is_ascii_text(selector.descriptor.as_slice(), method.1)
}

// The first record of that selector.
fn record_for(records: &'static [MethodRecord], selector: &Selector) -> Option<BuiltIn>
    ensures { result ≡ option_map (λ r. r.2) (find (is_record_of selector.now) records.now) }
{
    let found = records
        .iter()
        .find(|listed| is_record_of(selector, **listed))?;
    Some(found.2)
}

/// What the method does, where it is a built-in one.
pub fn built_in_of(system: &System, method: &Method) -> Option<BuiltIn>
    ensures effect { option_map effect_of result
        ≡ option_map (λ m. m.effect) (built_in_at system.now method.now) }
    ensures parameters { IfSome result
        (λ b. IsSomeAnd (selector_at system.now method.now.selector.0)
        (λ x. HasParameters b (parameter_types x.descriptor))) }
{
    let selectors = system.program.selectors.as_slice();
    let Some(selector) = selectors.get(method.selector.0 as usize) else {
        return None;
    };
    record_for(methods_of(method.class), selector)
}
