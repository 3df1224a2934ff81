//! The instruction that a frame is at.
ghost use Rattle.std.specs.Prelude.{◌≡◌, ◌==◌, IfSome, find};
ghost use Rattle.std.specs.List.{All};
ghost use Rattle.std.specs.Option.{option_map};
ghost use Rattle.interp_core.specs.Cores.{core_state};
ghost use Rattle.machine_model.specs.Conditions.{IsFrameOf};
ghost use Rattle.program_model.specs.Lookup as Spec;
ghost use Rattle.machine_steps.specs.Stepping.{AreInstrsOf, AreListed, Finds, IsOfPc};

use interp_core::{Core, running};
use jx_base::{Instr, Method, System};

// The first of these instructions that is at that pc.
fn instr_at(instrs: &[Instr], pc: u32) -> Option<&Instr>
    ensures { option_map (λ i. i.now) result ≡ find (λ i. i.pc == pc) instrs.now }
{
    instrs.iter().find(|instr| instr.pc == pc)
}

// The instruction of that pc, by halves: as in each linked system the pcs rise.
fn searched(instrs: &[Instr], pc: u32) -> Option<&Instr>
    ensures { IfSome (option_map (λ i. i.now) result) (IsOfPc instrs.now pc) }
{
    let Ok(place) = instrs.binary_search_by_key(&pc, |instr| instr.pc) else {
        return None;
    };
    let found = &instrs[place];
    if found.pc == pc { Some(found) } else { None }
}

// The method of that number.
#[tactic(auto, unfolding(program_model::specs::Lookup::method_at))]
fn method_at(system: &System, method: u32) -> Option<&Method>
    ensures { option_map (λ m. m.now) result ≡ Spec.method_at system.now method }
{
    system.program.methods.as_slice().get(method as usize)
}

/// The instruction of the running frame's method at its pc. `None` where there is none.
pub fn next_instr<'s>(system: &'s System, core: &Core) -> Option<&'s Instr>
    requires frames { All (IsFrameOf system.now) (core_state core.now).frames }
    requires listed { AreListed system.now }
    requires instructions { AreInstrsOf system.now (core_state core.now) }
    ensures { Finds system.now (core_state core.now) (option_map (λ i. i.now) result) }
{
    let frame = running(core)?;
    let method = method_at(system, frame.method)?;
    let instrs = method.instrs.as_slice();
    match searched(instrs, frame.pc) {
        Some(found) => Some(found),
        None => instr_at(instrs, frame.pc),
    }
}
