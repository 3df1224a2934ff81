//! Where instructions start, and what has to lead there.
ghost use Rattle.std.specs.Prelude.{◌≡◌, ◌<◌, pos, All, IfOk, find, not, option_map};
ghost use Rattle.std.specs.Prelude.{slice_index_or};
ghost use Rattle.std.specs.List.{list_all};
ghost use Rattle.class_grammar.specs.CodeGrammar.{key_targets};
ghost use Rattle.code_reader.specs.CodeReading.{Marks, is_marked, leads_astray, is_good_range};

use instruction_table::form_of;
use jx_base::{Form, Instr, OutOfMemory, Range};
use std::alloc::Global;

/// A mark for each byte of the code, whether an instruction starts there.
pub fn starts_of(alloc: Global, size: usize, instrs: &[Instr]) -> Result<Vec<bool>, OutOfMemory>
    requires { All (λ i. i.pc < size) instrs.now }
    ensures { IfOk result (λ v. Marks v.items instrs.now) }
{
    let mut starts = vec![in alloc; false; size]?;
    for instr in instrs {
        starts[instr.pc as usize] = true;
    }
    Ok(starts)
}

#[tactic(auto, unfolding(crate::specs::CodeReading::is_marked))]
fn has_start(starts: &[bool], place: u32) -> bool
    ensures { result ≡ is_marked starts.now (pos place) }
{
    match starts.get(place as usize) {
        Some(start) => *start,
        None => false,
    }
}

#[tactic(auto, unfolding(crate::specs::CodeReading::is_marked))]
fn is_start(starts: &[bool], target: i32) -> bool
    ensures { result ≡ is_marked starts.now target }
{
    match u32::try_from(target) {
        Ok(place) => has_start(starts, place),
        Err(_) => false,
    }
}

fn are_starts(starts: &[bool], targets: &[i32]) -> bool
    ensures { result ≡ list_all (is_marked starts.now) targets.now }
{
    targets.iter().all(|target| is_start(starts, *target))
}

// Of keys and targets, whether each target is a start.
fn keys_lead_to_starts(starts: &[bool], pairs: &[i32]) -> bool
    ensures { result ≡ list_all (is_marked starts.now) (key_targets pairs.now) }
{
    let mut rest = pairs;
    while rest.len() >= 2 {
        if !is_start(starts, number_at(rest, 1)) {
            return false;
        }
        rest = &rest[2..];
    }
    true
}

#[tactic(auto, unfolding(crate::specs::CodeReading::leads_astray, class_grammar::specs::CodeGrammar::targets_of, class_grammar::specs::CodeGrammar::targets_in, class_grammar::specs::CodeGrammar::table_targets, class_grammar::specs::CodeGrammar::lookup_targets))]
fn leads_to_starts(starts: &[bool], instr: &Instr) -> bool
    ensures { not result ≡ leads_astray (is_marked starts.now) instr.now }
{
    match form_of(instr.opcode) {
        Form::Branch | Form::FarBranch => are_starts(starts, instr.operands.as_slice()),
        Form::TableSwitch => match instr.operands.as_slice() {
            [default, _, _, targets @ ..] => {
                is_start(starts, *default) && are_starts(starts, targets)
            }
            _ => true,
        },
        Form::LookupSwitch => match instr.operands.as_slice() {
            [default, _, pairs @ ..] => {
                is_start(starts, *default) && keys_lead_to_starts(starts, pairs)
            }
            _ => true,
        },
        _ => true,
    }
}

/// The place of the first instruction that may branch to where none starts.
pub fn first_astray(starts: &[bool], instrs: &[Instr]) -> Option<u32>
    ensures { result ≡ option_map (λ i. i.pc)
        (find (leads_astray (is_marked starts.now)) instrs.now) }
{
    for instr in instrs {
        if !leads_to_starts(starts, instr) {
            return Some(instr.pc);
        }
    }
    None
}

#[tactic(auto, unfolding(crate::specs::CodeReading::is_good_range))]
fn is_good(size: usize, starts: &[bool], range: Range) -> bool
    ensures { result ≡ is_good_range size (is_marked starts.now) range }
{
    has_start(starts, range.start)
        && has_start(starts, range.handler)
        && (has_start(starts, range.end) || range.end as usize == size)
        && range.start < range.end
}

/// The start of the first range of an exception table that isn't one of code of that size.
pub fn first_bad_range(size: usize, starts: &[bool], table: &[Range]) -> Option<u32>
    ensures { result ≡ option_map (λ r. r.start)
        (find (λ r. not (is_good_range size (is_marked starts.now) r)) table.now) }
{
    for range in table {
        if !is_good(size, starts, *range) {
            return Some(range.start);
        }
    }
    None
}

/// The number at a place, and 0 where there is none.
pub fn number_at(numbers: &[i32], i: usize) -> i32
    ensures { result ≡ slice_index_or numbers.now i (pos 0) }
{
    match numbers.get(i) {
        Some(n) => *n,
        None => 0,
    }
}
