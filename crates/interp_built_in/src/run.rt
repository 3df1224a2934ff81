//! Running a built-in method.
ghost use Rattle.std.specs.Prelude.{◌≡◌, ◌≤◌, IfOk, All, length};
ghost use Rattle.interp_built_in.specs.Answers.{AnswersAs};
ghost use Rattle.interp_built_in.specs.BuiltIns.{effect_of, HasTexts};
ghost use Rattle.interp_core.specs.Cores.{store_of, core_state, IsRunnable};
ghost use Rattle.machine_laws.specs.Called.{IsCallOf};
ghost use Rattle.machine_laws.specs.Sound.{IsSound};
ghost use Rattle.machine_laws.specs.Values.{cell_limit};
ghost use Rattle.machine_model.specs.BuiltInMethods.{built_in_outcome};
ghost use Rattle.machine_model.specs.Conditions.{HasUnits, IsHeldBy};

use crate::answer::BuiltInAnswer;
use crate::builders::{append, make_builder};
use crate::built_in::BuiltIn;
use crate::memory::{at_place, copy_over, fill, on_memory, over_range};
use crate::services::{bind, export, look_up, of_int, of_text};
use crate::strings::{char_at, concat, equals_text, hash_code, text_length};
use crate::table::built_in_of;
use crate::values::{compare, first_cell, set_message};
use interp_core::Core;
use jx_base::{Act, Method, OutOfMemory, System, Value};
use std::alloc::Global;

// What comes of the method that a case is.
#[tactic(auto, unfolding(crate::specs::BuiltIns::effect_of, machine_model::specs::BuiltInMethods::constructor, machine_model::specs::BuiltInMethods::pause))]
fn outcome_of(
    alloc: Global,
    core: &mut Core,
    system: &System,
    built_in: BuiltIn,
    arguments: &[Value],
) -> Result<BuiltInAnswer, OutOfMemory>
    requires small { All (λ o. length o.cells ≤ cell_limit) core.old.heap.objects }
    requires units { All HasUnits core.old.heap.objects }
    requires texts { HasTexts built_in (store_of core.old) arguments.now }
    ensures outcome { IfOk result (λ answer. AnswersAs answer (store_of core.old)
        (store_of core.new) (effect_of built_in system.now (store_of core.old) arguments.now)) }
    ensures frames { core.new.frames ≡ core.old.frames }
{
    Ok(match built_in {
        BuiltIn::Construct => BuiltInAnswer::Gives(None),
        BuiltIn::IsSame => compare(core, arguments),
        BuiltIn::SetMessage => set_message(core, arguments),
        BuiltIn::FirstCell => first_cell(core, arguments),
        BuiltIn::Length => text_length(core, arguments),
        BuiltIn::CharAt => char_at(core, arguments),
        BuiltIn::EqualsText => equals_text(core, arguments),
        BuiltIn::HashCode => hash_code(core, arguments),
        BuiltIn::Concat => concat(alloc, core, arguments)?,
        BuiltIn::MakeBuilder => make_builder(core, arguments),
        BuiltIn::Append(appended) => append(alloc, core, appended, arguments)?,
        BuiltIn::OfText(act) => of_text(alloc, core, act, arguments)?,
        BuiltIn::Export => export(alloc, system, core, arguments)?,
        BuiltIn::Bind => bind(alloc, core, arguments)?,
        BuiltIn::Lookup => look_up(alloc, core, arguments)?,
        BuiltIn::OfInt(act) => of_int(act, arguments),
        BuiltIn::Pause => BuiltInAnswer::Performs(Act::Yield),
        BuiltIn::OfMemory(act) => on_memory(act, arguments),
        BuiltIn::AtPlace(act) => at_place(act, arguments),
        BuiltIn::OverRange(act) => over_range(act, arguments),
        BuiltIn::Fill => fill(arguments),
        BuiltIn::Copy => copy_over(arguments),
    })
}

/// Runs a built-in method on the arguments of a call, the object first.
#[tactic(auto, unfolding(machine_model::specs::BuiltInMethods::built_in_outcome))]
pub fn run_built_in(
    alloc: Global,
    core: &mut Core,
    system: &System,
    method: &Method,
    arguments: &[Value],
) -> Result<BuiltInAnswer, OutOfMemory>
    requires system { IsSound system.now }
    requires core { IsRunnable system.now (core_state core.old) }
    requires arguments { All (IsHeldBy (store_of core.old)) arguments.now }
    requires call { IsCallOf system.now (store_of core.old) method.now arguments.now }
    ensures outcome { IfOk result (λ answer. AnswersAs answer (store_of core.old)
        (store_of core.new) (built_in_outcome system.now (store_of core.old) method.now
        arguments.now)) }
    ensures frames { core.new.frames ≡ core.old.frames }
{
    match built_in_of(system, method) {
        Some(built_in) => outcome_of(alloc, core, system, built_in, arguments),
        None => Ok(BuiltInAnswer::Unfit),
    }
}
