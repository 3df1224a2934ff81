//! The call that the running frame is at.
ghost use Rattle.std.specs.Prelude.{◌≡◌, [], ◌∷◌, false, option_map};
ghost use Rattle.std.specs.List.{All};
ghost use Rattle.std.specs.Option.{option_map};
ghost use Rattle.interp_core.specs.Cores.{core_state, store_of};
ghost use Rattle.machine_model.specs.AfterEntry.{site_for, site_in};
ghost use Rattle.machine_model.specs.Conditions.{IsFrameOf};
ghost use Rattle.machine_model.specs.ObjectRows.{all_fit};
ghost use Rattle.machine_replies.specs.Sites as Spec;
ghost use Rattle.machine_replies.specs.Sites.{taken_first};
ghost use Rattle.machine_steps.specs.Stepping.{AreInstrsOf, AreListed};
ghost use Rattle.program_model.specs.Lookup.{selector_of_method};
ghost use Rattle.program_model.specs.Types.{signature_of};

use instruction_table::row_of;
use interp_core::{Core, class_of_frame, constant_at, running, shape_of};
use interp_num::index_operand;
use interp_obj::{method_at, selector_at};
use jx_base::{Instr, Invocation, Resolved, Row, Selector, System, Value};
use machine_steps::next_instr;
use program_types::{is_void, parameter_count, result_type, shape_fits};

// How many values a call of a method of that descriptor takes.
#[tactic(auto, unfolding(machine_model::specs::AfterEntry::site_for, program_model::specs::Types::parameter_types))]
fn taken_for(kind: Invocation, descriptor: &[u16]) -> usize
    ensures { result ≡ (site_for kind (signature_of descriptor.now)).takes }
{
    let count = parameter_count(descriptor);
    match kind {
        Invocation::Static => count,
        Invocation::Virtual | Invocation::Special | Invocation::Interface => 1 + count,
    }
}

// The selector of the method of that place.
#[tactic(auto, unfolding(program_model::specs::Lookup::selector_of_method))]
fn selector_of(system: &System, place: u32) -> Option<&Selector>
    ensures { option_map (λ y. y.now) result ≡ selector_of_method system.now place }
{
    let method = method_at(system, place)?;
    selector_at(system, method.selector.0)
}

// How many values the call takes that an instruction of the class is, if it is one.
fn taken_by(system: &System, class: u32, instr: &Instr) -> Option<usize>
    ensures { result ≡ option_map (λ x. x.takes) (site_in system.now class instr.now) }
{
    let Row::Invoke(kind) = row_of(instr.opcode) else {
        return None;
    };
    let Resolved::Method(place) = constant_at(system, class, index_operand(instr, 0))? else {
        return None;
    };
    let selector = selector_of(system, *place)?;
    Some(taken_for(kind, selector.descriptor.as_slice()))
}

// How many values the call takes that the running frame is at.
pub(crate) fn taken_first(system: &System, core: &Core) -> usize
    requires frames { All (IsFrameOf system.now) (core_state core.now).frames }
    requires listed { AreListed system.now }
    requires instructions { AreInstrsOf system.now (core_state core.now) }
    ensures { result ≡ taken_first system.now (core_state core.now).frames }
{
    let Some(frame) = running(core) else {
        return 0;
    };
    let Some(instr) = next_instr(system, core) else {
        return 0;
    };
    taken_by(system, class_of_frame(system, frame), instr).unwrap_or(0)
}

// The type of what the call leaves that an instruction of the class is, if it is one.
fn result_by<'s>(system: &'s System, class: u32, instr: &Instr) -> Option<&'s [u16]>
    ensures { option_map (λ t. t.now) result
        ≡ option_map (λ x. x.result) (site_in system.now class instr.now) }
{
    let Row::Invoke(_) = row_of(instr.opcode) else {
        return None;
    };
    let Resolved::Method(place) = constant_at(system, class, index_operand(instr, 0))? else {
        return None;
    };
    let selector = selector_of(system, *place)?;
    Some(result_type(selector.descriptor.as_slice()))
}

// The type of what the call leaves that the running frame is at, if it is at one.
fn result_first<'s>(system: &'s System, core: &Core) -> Option<&'s [u16]>
    requires frames { All (IsFrameOf system.now) (core_state core.now).frames }
    requires listed { AreListed system.now }
    requires instructions { AreInstrsOf system.now (core_state core.now) }
    ensures { option_map (λ t. t.now) result
        ≡ Spec.result_first system.now (core_state core.now).frames }
{
    let frame = running(core)?;
    let instr = next_instr(system, core)?;
    result_by(system, class_of_frame(system, frame), instr)
}

// Whether there is one value, and it fits the type.
fn is_one(system: &System, core: &Core, values: &[Value], kind: &[u16]) -> bool
    ensures { result ≡ all_fit system.now false (store_of core.now) values.now (kind.now ∷ []) }
{
    match values {
        [value] => shape_fits(system, false, shape_of(core, *value), kind),
        _ => false,
    }
}

/// Whether the roots are a result of the call that the running frame is at: none where it is of
/// void, or where the frame is at no call. Takes no memory.
pub fn fits_result(system: &System, core: &Core, roots: &[Value]) -> bool
    requires frames { All (IsFrameOf system.now) (core_state core.now).frames }
    requires listed { AreListed system.now }
    requires instructions { AreInstrsOf system.now (core_state core.now) }
    ensures { result ≡ all_fit system.now false (store_of core.now) roots.now
        (Spec.expected_first system.now (core_state core.now).frames) }
{
    match result_first(system, core) {
        Some(kind) if !is_void(kind) => is_one(system, core, roots, kind),
        _ => roots.is_empty(),
    }
}
