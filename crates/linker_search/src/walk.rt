//! Walks over the supers of a class, without nested calls: where classes extend themselves, a long
//! walk takes no stack.
ghost use Rattle.std.specs.Prelude.{◌≡◌, ◌==◌, ◌+◌, ◌++◌, ◌∷◌, ◌<◌, ◌^◌, ℕ, Some};
ghost use Rattle.std.specs.Prelude.{IfOk, OnOk, OnSome};
ghost use Rattle.std.specs.Prelude.{if◌then◌else◌, nat_eq, nat_le, reverse, slice_get, sum_by};
ghost use Rattle.indexmap.specs.IndexMap.{ContainsKey, get, keys};
ghost use Rattle.jx_base.specs.Basics.{added, all_added, passes};
ghost use Rattle.linker_outline.specs.Indexed.{place_or};
ghost use Rattle.linker_search.specs.Visits.{IsOwed, above_at, to_come, turns_of, turns_within};
ghost use Rattle.linker_search.specs.Walked.{AreFollowed, distinct_supers};
ghost use Rattle.program_model.specs.Lookup.{supers_within};

use indexmap::IndexMap;
use jx_base::{OutOfMemory, System};
use std::alloc::Global;

/// The classes that a walk has come to, in their order, each with the steps that it was followed
/// beyond the class itself.
pub type Followed = IndexMap<u32, usize>;

/// A class whose visit isn't at its end. `steps` are those beyond the class itself; `place` is where
/// the visit goes on: among the interfaces, and then to the super behind them.
#[derive(Clone, Copy)]
pub struct Visit {
    class: u32,
    steps: usize,
    place: usize,
}

// Whether a class was followed so many steps beyond itself.
#[tactic(auto, unfolding(jx_base::specs::Basics::passes))]
fn was_followed(followed: &Followed, class: u32, steps: usize) -> bool
    ensures { result ≡ passes (nat_le steps) (get nat_eq followed.now class) }
{
    match followed.get(&class) {
        Some(before) => steps <= *before,
        None => false,
    }
}

// Notes that the walk has come to a class.
fn come_to(followed: &mut Followed, class: u32) -> Result<(), OutOfMemory>
    ensures order { OnOk result (keys followed.new ≡ added nat_eq (keys followed.old) class) }
    ensures steps { OnOk result ((c : ℕ) → get nat_eq followed.new c
        ≡ place_or (get nat_eq followed.old c) (class == c) 0) }
{
    if !followed.contains_key(&class) {
        followed.insert(class, 0)?;
    }
    Ok(())
}

// Notes how many steps beyond itself a class was followed.
fn leave(followed: &mut Followed, class: u32, steps: usize) -> Result<(), OutOfMemory>
    requires { ContainsKey nat_eq followed.old class }
    ensures order { OnOk result (keys followed.new ≡ keys followed.old) }
    ensures steps { OnOk result ((c : ℕ) → get nat_eq followed.new c
        ≡ (if class == c then Some steps else get nat_eq followed.old c)) }
{
    followed.insert(class, steps)?;
    Ok(())
}

// The class to which a visit goes on.
fn next_above(system: &System, visit: Visit) -> Option<u32>
    ensures next { result ≡ slice_get (above_at system.now visit.class) visit.place }
    ensures fits { OnSome result (visit.place + 1 < 2 ^ 64) }
{
    let class = system.program.classes.as_slice().get(visit.class as usize)?;
    let interfaces = class.interfaces.as_slice();
    if visit.place < interfaces.len() {
        return Some(interfaces[visit.place].0);
    }
    if visit.place > interfaces.len() {
        return None;
    }
    match class.parent {
        Some(parent) => Some(parent.0),
        None => None,
    }
}

// Comes to a class and begins its visit, unless nothing new would be found so.
fn enter(
    system: &System,
    followed: &mut Followed,
    visits: &mut Vec<Visit>,
    class: u32,
    steps: usize,
) -> Result<(), OutOfMemory>
    requires followed { AreFollowed system.now followed.old }
    requires owed { IsOwed system.now (keys followed.old ++ supers_within system.now steps class)
        (reverse visits.old.items) }
    ensures order { OnOk result (
        all_added nat_eq (keys followed.new) (to_come system.now (reverse visits.new.items))
        ≡ all_added nat_eq (keys followed.old) (supers_within system.now steps class
        ++ to_come system.now (reverse visits.old.items))) }
    ensures followed { OnOk result (AreFollowed system.now followed.new) }
    ensures owed { OnOk result (IsOwed system.now (keys followed.new)
        (reverse visits.new.items)) }
    ensures shorter { OnOk result (sum_by (turns_of system.now) visits.new.items
        < turns_within system.now steps class + sum_by (turns_of system.now) visits.old.items) }
{
    let Some(steps) = steps.checked_sub(1) else {
        return Ok(());
    };
    if system
        .program
        .classes
        .as_slice()
        .get(class as usize)
        .is_none()
    {
        return Ok(());
    }
    if was_followed(followed, class, steps) {
        return Ok(());
    }
    come_to(followed, class)?;
    visits.push(Visit {
        class,
        steps,
        place: 0,
    })?;
    Ok(())
}

// Goes on with a visit, or ends it.
fn go_on(
    system: &System,
    followed: &mut Followed,
    visits: &mut Vec<Visit>,
    visit: Visit,
) -> Result<(), OutOfMemory>
    requires followed { AreFollowed system.now followed.old }
    requires owed { IsOwed system.now (keys followed.old) (visit ∷ reverse visits.old.items) }
    ensures order { OnOk result (
        all_added nat_eq (keys followed.new) (to_come system.now (reverse visits.new.items))
        ≡ all_added nat_eq (keys followed.old)
        (to_come system.now (visit ∷ reverse visits.old.items))) }
    ensures followed { OnOk result (AreFollowed system.now followed.new) }
    ensures owed { OnOk result (IsOwed system.now (keys followed.new)
        (reverse visits.new.items)) }
    ensures shorter { OnOk result (sum_by (turns_of system.now) visits.new.items
        < turns_of system.now visit + sum_by (turns_of system.now) visits.old.items) }
{
    match next_above(system, visit) {
        Some(class) => {
            let place = visit.place + 1;
            visits.push(Visit { place, ..visit })?;
            enter(system, followed, visits, class, visit.steps)?;
        }
        None => leave(followed, visit.class, visit.steps)?,
    }
    Ok(())
}

/// Walks over a class and all that it extends and implements.
pub fn walk(alloc: Global, system: &System, class: u32) -> Result<Followed, OutOfMemory>
    ensures { IfOk result (λ followed. keys followed ≡ distinct_supers system.now class) }
{
    let mut followed = IndexMap::new(alloc);
    let mut visits = Vec::new(alloc);
    let steps = system.program.classes.as_slice().len();
    enter(system, &mut followed, &mut visits, class, steps)?;
    while let Some(visit) = visits.pop() {
        go_on(system, &mut followed, &mut visits, visit)?;
    }
    Ok(followed)
}
