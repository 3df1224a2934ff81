//! The heap and the static fields with which a domain starts.
ghost use Rattle.std.specs.Prelude.{◌≡◌, ◌≤◌, ◌<◌, ◌^◌, ◌-◌, ◌++◌, [], ◌∷◌, IfOk, IfSome, OnOk, codes, map};
ghost use Rattle.std.specs.Option.{unwrap_or};
ghost use Rattle.interp_core.specs.Cores.{store_of};
ghost use Rattle.jx_base.specs.declared.value.Value.TheVariants as value;
ghost use Rattle.machine_model.specs.Start.{first_store, object_of};
ghost use Rattle.machine_model.specs.State.{default_of, static_types};
ghost use Rattle.program_model.specs.BuiltIn.{out_of_memory_error};
ghost use Rattle.program_model.specs.Lookup.{class_count, class_named};

use domain_heap::Heap;
use interp_core::{Core, default_of};
use jx_base::{ClassId, Field, OutOfMemory, System, Template, Value, text_of};
use program_types::class_named;
use std::alloc::Global;

// The built-in class java/lang/OutOfMemoryError, whose objects have a message.
const OUT_OF_MEMORY_ERROR: ClassId = ClassId(16);

// The class of that place, or the first one where there is none.
fn class_at_place(place: Option<usize>) -> ClassId
    requires { IfSome place (λ c. c < 2 ^ 32) }
    ensures { result.0 ≡ unwrap_or place 0 }
{
    ClassId(place.unwrap_or(0) as u32)
}

// The class of String[], or the first one where there is none.
fn string_array(alloc: Global, system: &System) -> Result<ClassId, OutOfMemory>
    requires { class_count system.now < 2 ^ 32 }
    ensures { IfOk result (λ class. class.0
        ≡ unwrap_or (class_named system.now (codes "[Ljava/lang/String;")) 0) }
{
    let name = text_of(alloc, "[Ljava/lang/String;")?;
    Ok(class_at_place(class_named(system, name.as_slice())))
}

// A heap of so many cells with the object that is thrown for want of room, whose message is null, and
// an empty array.
fn first_heap(alloc: Global, cells: u32, array: ClassId) -> Result<Heap, OutOfMemory>
    requires { 5 ≤ cells }
    ensures objects { IfOk result (λ heap. heap.objects
        ≡ object_of out_of_memory_error (value.Null ∷ []) ∷ object_of array.0 [] ∷ []) }
    ensures left { IfOk result (λ heap. heap.left ≡ cells - 5) }
{
    let mut heap = Heap::open(alloc, cells)?;
    // There is room for both: they take five cells.
    heap.make(OUT_OF_MEMORY_ERROR, 1);
    heap.make(array, 0);
    Ok(heap)
}

// Adds the defaults of fields.
fn add_defaults(values: &mut Vec<Value>, fields: &[Field]) -> Result<(), OutOfMemory>
    ensures { OnOk result (values.new.items
        ≡ values.old.items ++ map (λ f. default_of f.descriptor) fields.now) }
{
    for field in fields {
        values.push(default_of(field.descriptor.as_slice()))?;
    }
    Ok(())
}

// The defaults of all static fields.
fn first_statics(alloc: Global, system: &System) -> Result<Vec<Value>, OutOfMemory>
    ensures { IfOk result (λ values. values.items ≡ map default_of (static_types system.now)) }
{
    let mut values = Vec::new(alloc);
    for class in system.program.classes.as_slice() {
        add_defaults(&mut values, class.statics.as_slice())?;
    }
    Ok(values)
}

/// What a domain of the template has at the start: the object that is thrown for want of room, the
/// empty String[] that main is passed, and each static field with its default.
#[tactic(auto, unfolding(machine_model::specs::Start::first_store, machine_model::specs::Start::first_objects))]
pub fn first_core(alloc: Global, system: &System, template: &Template) -> Result<Core, OutOfMemory>
    requires heap { 5 ≤ template.now.heap }
    requires classes { class_count system.now < 2 ^ 32 }
    ensures store { IfOk result (λ core. store_of core ≡ first_store system.now template.now) }
    ensures frames { IfOk result (λ core. core.frames.items ≡ []) }
{
    let array = string_array(alloc, system)?;
    Ok(Core {
        frames: Vec::new(alloc),
        heap: first_heap(alloc, template.heap, array)?,
        statics: first_statics(alloc, system)?,
        literals: Vec::new(alloc),
        exports: Vec::new(alloc),
    })
}
