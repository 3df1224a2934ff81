//! The methods of jx/Zero.
ghost use Rattle.std.specs.Prelude.{◌≡◌, pos, IfOk, All};
ghost use Rattle.interp_built_in.specs.Answers.{AnswersAs, Answers};
ghost use Rattle.interp_built_in.specs.BuiltIns.{act_of_int, act_of_text, HasTexts};
ghost use Rattle.interp_built_in.specs.declared.built_in.BuiltIn.TheVariants as built_in;
ghost use Rattle.interp_core.specs.Cores.{store_of};
ghost use Rattle.machine_model.specs.BuiltInMethods as Spec;
ghost use Rattle.machine_model.specs.Conditions.{HasUnits};
ghost use Rattle.machine_model.specs.State.{Store};

use crate::answer::BuiltInAnswer;
use crate::built_in::{IntAct, TextAct};
use crate::names::is_service_name;
use crate::supers::interface_named;
use crate::texts::text_of;
use interp_core::{Core, cells_of, class_of_object};
use jx_base::{Act, OutOfMemory, System, Value};
use program_types::{CLASS_CAST_EXCEPTION, NULL_POINTER_EXCEPTION, RANGE_EXCEPTION};
use std::alloc::Global;

// The units that an act's text has at most.
const TEXT_LIMIT: usize = 4096;

// The threads that a service has at most.
const THREAD_LIMIT: i32 = 8;

/// The act of a text.
#[tactic(auto, using(crate::proofs::TextSteps::units_of_text), unfolding(machine_model::specs::BuiltInMethods::text_act, machine_model::specs::BuiltInMethods::act_if, machine_model::specs::BuiltInMethods::text_of, machine_model::specs::BuiltInMethods::is_short, program_model::specs::Limits::text_limit, program_model::specs::BuiltIn::null_pointer_exception, program_model::specs::BuiltIn::range_exception))]
pub fn of_text(
    alloc: Global,
    core: &Core,
    act: TextAct,
    arguments: &[Value],
) -> Result<BuiltInAnswer, OutOfMemory>
    requires units { All HasUnits core.now.heap.objects }
    requires texts { HasTexts (built_in.OfText act) (store_of core.now) arguments.now }
    ensures { IfOk result (Answers (Spec.text_act (act_of_text act)) arguments.now
        (store_of core.now)) }
{
    match arguments {
        [Value::Null] => Ok(BuiltInAnswer::Raises(NULL_POINTER_EXCEPTION)),
        [Value::Ref(text)] => {
            let cells = cells_of(core, *text);
            if cells.len() > TEXT_LIMIT {
                return Ok(BuiltInAnswer::Raises(RANGE_EXCEPTION));
            }
            let text = text_of(alloc, cells)?;
            Ok(BuiltInAnswer::Performs(match act {
                TextAct::Print => Act::Print(text),
                TextAct::Spawn => Act::Spawn { name: text },
            }))
        }
        _ => Ok(BuiltInAnswer::Unfit),
    }
}

/// The act of an int.
#[tactic(auto, unfolding(machine_model::specs::BuiltInMethods::int_act))]
pub fn of_int(act: IntAct, arguments: &[Value]) -> BuiltInAnswer
    ensures { (s : Store) → Answers (Spec.int_act (act_of_int act)) arguments.now s result }
{
    let [Value::Int(number)] = arguments else {
        return BuiltInAnswer::Unfit;
    };
    BuiltInAnswer::Performs(match act {
        IntAct::Alloc => Act::Alloc(*number),
        IntAct::Kill => Act::Kill(*number),
        IntAct::Exit => Act::Exit(*number),
    })
}

/// lookup
#[tactic(auto, using(crate::proofs::TextSteps::units_of_text), unfolding(machine_model::specs::BuiltInMethods::lookup, machine_model::specs::BuiltInMethods::act_if, machine_model::specs::BuiltInMethods::text_of, program_model::specs::BuiltIn::null_pointer_exception, program_model::specs::BuiltIn::range_exception))]
pub fn look_up(
    alloc: Global,
    core: &Core,
    arguments: &[Value],
) -> Result<BuiltInAnswer, OutOfMemory>
    requires units { All HasUnits core.now.heap.objects }
    requires texts { HasTexts built_in.Lookup (store_of core.now) arguments.now }
    ensures { IfOk result (Answers Spec.lookup arguments.now (store_of core.now)) }
{
    match arguments {
        [Value::Null] => Ok(BuiltInAnswer::Raises(NULL_POINTER_EXCEPTION)),
        [Value::Ref(text)] => {
            let name = text_of(alloc, cells_of(core, *text))?;
            Ok(if is_service_name(name.as_slice()) {
                BuiltInAnswer::Performs(Act::Lookup { name })
            } else {
                BuiltInAnswer::Raises(RANGE_EXCEPTION)
            })
        }
        _ => Ok(BuiltInAnswer::Unfit),
    }
}

/// bind
#[tactic(auto, using(crate::proofs::TextSteps::units_of_text), unfolding(machine_model::specs::BuiltInMethods::bind, machine_model::specs::BuiltInMethods::text_of, program_model::specs::BuiltIn::null_pointer_exception, program_model::specs::BuiltIn::range_exception, program_model::specs::BuiltIn::class_cast_exception))]
pub fn bind(alloc: Global, core: &Core, arguments: &[Value]) -> Result<BuiltInAnswer, OutOfMemory>
    requires units { All HasUnits core.now.heap.objects }
    requires texts { HasTexts built_in.Bind (store_of core.now) arguments.now }
    ensures { IfOk result (Answers Spec.bind arguments.now (store_of core.now)) }
{
    match arguments {
        [Value::Null, _] | [Value::Ref(_), Value::Null] => {
            Ok(BuiltInAnswer::Raises(NULL_POINTER_EXCEPTION))
        }
        [Value::Ref(text), portal] => {
            let name = text_of(alloc, cells_of(core, *text))?;
            if !is_service_name(name.as_slice()) {
                return Ok(BuiltInAnswer::Raises(RANGE_EXCEPTION));
            }
            Ok(match portal {
                Value::Portal(service, _) => BuiltInAnswer::Performs(Act::Bind {
                    name,
                    service: *service,
                }),
                _ => BuiltInAnswer::Raises(CLASS_CAST_EXCEPTION),
            })
        }
        _ => Ok(BuiltInAnswer::Unfit),
    }
}

// The export of an object under the interface of that name. A portal or a memory object can't be
// exported.
#[tactic(auto, unfolding(machine_model::specs::BuiltInMethods::export_of, program_model::specs::BuiltIn::class_cast_exception, jx_base::specs::Basics::not_below_zero))]
fn export_of(
    system: &System,
    core: &Core,
    object: Value,
    name: &[u16],
    threads: u8,
) -> BuiltInAnswer
    ensures { AnswersAs result (store_of core.now) (store_of core.now)
        (Spec.export_of system.now (store_of core.now) object name.now (pos threads)) }
{
    let Value::Ref(object) = object else {
        return BuiltInAnswer::Raises(CLASS_CAST_EXCEPTION);
    };
    let Some(class) = class_of_object(core, object) else {
        return BuiltInAnswer::Raises(CLASS_CAST_EXCEPTION);
    };
    match interface_named(system, class, name) {
        Some(iface) => BuiltInAnswer::Performs(Act::Export { iface, threads }),
        None => BuiltInAnswer::Raises(CLASS_CAST_EXCEPTION),
    }
}

/// export
#[tactic(auto, using(crate::proofs::TextSteps::units_of_text), unfolding(machine_model::specs::BuiltInMethods::export, machine_model::specs::BuiltInMethods::text_of, machine_model::specs::BuiltInMethods::is_short, machine_model::specs::BuiltInMethods::is_thread_count, program_model::specs::Limits::text_limit, program_model::specs::Limits::thread_limit, program_model::specs::BuiltIn::null_pointer_exception, program_model::specs::BuiltIn::range_exception))]
pub fn export(
    alloc: Global,
    system: &System,
    core: &Core,
    arguments: &[Value],
) -> Result<BuiltInAnswer, OutOfMemory>
    requires units { All HasUnits core.now.heap.objects }
    requires texts { HasTexts built_in.Export (store_of core.now) arguments.now }
    ensures { IfOk result (λ answer. AnswersAs answer (store_of core.now) (store_of core.now)
        (Spec.export system.now (store_of core.now) arguments.now)) }
{
    match arguments {
        [Value::Null, _, _] | [_, Value::Null, _] => {
            Ok(BuiltInAnswer::Raises(NULL_POINTER_EXCEPTION))
        }
        [object, Value::Ref(text), Value::Int(threads)] => {
            let cells = cells_of(core, *text);
            if cells.len() > TEXT_LIMIT || *threads < 1 || *threads > THREAD_LIMIT {
                return Ok(BuiltInAnswer::Raises(RANGE_EXCEPTION));
            }
            let name = text_of(alloc, cells)?;
            let threads = *threads as u8;
            Ok(export_of(system, core, *object, name.as_slice(), threads))
        }
        _ => Ok(BuiltInAnswer::Unfit),
    }
}
