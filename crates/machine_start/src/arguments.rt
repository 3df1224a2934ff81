//! What the methods of the start are passed.
ghost use Rattle.std.specs.Prelude.{◌≡◌, IfOk};
ghost use Rattle.jx_base.specs.Basics.{passes};
ghost use Rattle.machine_model.specs.MachineThreads as Spec;
ghost use Rattle.machine_model.specs.MachineThreads.{is_initializer_selector};
ghost use Rattle.program_model.specs.Lookup.{selector_of_method};

use crate::found::same_selector;
use crate::selectors::initializer_selector;
use interp_obj::{method_at, selector_at};
use jx_base::{OutOfMemory, System, Value};
use std::alloc::Global;

// The empty String[] that main is passed.
const MAIN_ARGUMENT: Value = Value::Ref(1);

// Whether the method's selector is that of static initialisers.
fn is_initializer(alloc: Global, system: &System, method: u32) -> Result<bool, OutOfMemory>
    ensures { IfOk result (λ yes. yes
        ≡ passes is_initializer_selector (selector_of_method system.now method)) }
{
    let initializer = initializer_selector(alloc)?;
    let Some(found) = method_at(system, method) else {
        return Ok(false);
    };
    match selector_at(system, found.selector.0) {
        Some(selector) => Ok(same_selector(selector, &initializer)),
        None => Ok(false),
    }
}

/// What a method of the start is passed: main gets the empty String[], an initialiser nothing.
#[tactic(auto, unfolding(machine_model::specs::MachineThreads::start_arguments))]
pub fn start_arguments(
    alloc: Global,
    system: &System,
    method: u32,
) -> Result<Vec<Value>, OutOfMemory>
    ensures { IfOk result (λ arguments. arguments.items
        ≡ Spec.start_arguments system.now method) }
{
    let mut arguments = Vec::new(alloc);
    if !is_initializer(alloc, system, method)? {
        arguments.push(MAIN_ARGUMENT)?;
    }
    Ok(arguments)
}
