//! Holes in order of place, and how they are cut and joined.
ghost use Rattle.std.specs.Prelude.{◌≡◌, ◌+◌, ◌*◌, ◌^◌, ◌<◌, ◌≤◌, ◌++◌, Some, IfOk, IfSome, length, slice_get, take, drop, suc, nat_le, nat_lt};
ghost use Rattle.std.specs.Prelude.{vec_len, vec_capacity};
ghost use Rattle.std.specs.List.{All, AllWithin, position};
ghost use Rattle.extent_pool.specs.Joins.{hole_end, HasEnd, AreInOrder, cut_front, hole_from};
ghost use Rattle.extent_pool.specs.Joins.{one_hole, before_holes, joined};

use jx_base::OutOfMemory;
use std::alloc::Global;

/// Free granules in a row: the place of the first, and how many.
#[derive(Clone, Copy)]
pub struct Hole {
    pub at: u32,
    pub count: u32,
}

/// One hole of so many granules, or no hole of none, with room for all holes that there can be: they
/// don't touch, so they are at most half as many as the granules, rounded up.
pub fn one_hole(alloc: Global, granules: u32) -> Result<Vec<Hole>, OutOfMemory>
    ensures items { IfOk result (λ holes. holes.items ≡ one_hole granules) }
    ensures room { IfOk result (λ holes. granules + 2 ≤ 2 * vec_capacity holes) }
{
    let mut holes = Vec::with_capacity(alloc, (granules as usize + 1) / 2 + 1)?;
    if granules > 0 {
        holes.push_reserved(Hole {
            at: 0,
            count: granules,
        });
    }
    Ok(holes)
}

/// The place of the first hole that has n granules.
pub fn first_large(holes: &[Hole], n: u32) -> Option<usize>
    ensures { result ≡ position (λ hole. nat_le n hole.count) holes.now }
{
    holes.iter().position(|hole| n <= hole.count)
}

/// How many holes begin before the granule.
pub fn holes_before(holes: &[Hole], at: u32) -> usize
    requires { AreInOrder holes.now }
    ensures bound { result ≤ length holes.now }
    ensures before { AllWithin (λ hole. hole.at < at) holes.now 0 result }
    ensures behind { AllWithin (λ hole. at ≤ hole.at) holes.now result (length holes.now) }
{
    holes.partition_point(
        |hole: &Hole| -> bool
            ensures { result ≡ nat_lt hole.now.at at }
        { hole.at < at },
    )
}

/// Takes n granules from the front of the hole of that place, and gives the place of the first.
pub fn cut(holes: &mut Vec<Hole>, place: usize, n: u32) -> u32
    requires hole { place < vec_len holes.old }
    requires large { IfSome (slice_get holes.old.items place) (λ hole. n ≤ hole.count) }
    requires ends { All HasEnd holes.old.items }
    ensures at { IfSome (slice_get holes.old.items place) (λ hole. result ≡ hole.at) }
    ensures items { holes.new.items ≡ cut_front n holes.old.items place }
    ensures capacity { vec_capacity holes.new ≡ vec_capacity holes.old }
{
    let hole = holes[place];
    if hole.count == n {
        holes.remove(place);
    } else {
        holes[place] = Hole {
            at: hole.at + n,
            count: hole.count - n,
        };
    }
    hole.at
}

// The hole of that place, where it begins at that granule.
fn hole_from(holes: &[Hole], place: usize, at: u32) -> Option<Hole>
    ensures { result ≡ hole_from (slice_get holes.now place) at }
{
    match holes.get(place) {
        Some(hole) if hole.at == at => Some(*hole),
        _ => None,
    }
}

// Puts a hole at that place, joined to the one behind it where they touch.
fn insert(holes: &mut Vec<Hole>, place: usize, freed: Hole)
    requires place { place ≤ vec_len holes.old }
    requires room { vec_len holes.old < vec_capacity holes.old }
    requires ends { All HasEnd holes.old.items }
    requires end { HasEnd freed }
    ensures items { holes.new.items
        ≡ take place holes.old.items ++ before_holes freed (drop place holes.old.items) }
    ensures capacity { vec_capacity holes.old ≤ vec_capacity holes.new }
{
    match hole_from(holes.as_slice(), place, freed.at + freed.count) {
        Some(right) => {
            holes[place] = Hole {
                at: freed.at,
                count: freed.count + right.count,
            };
        }
        None => {
            // There is room, so it isn't refused.
            if holes.insert(place, freed).is_err() {
                unreachable!();
            }
        }
    }
}

// Makes that hole, of that place, n granules longer, and joins it to the one behind it where they touch.
fn lengthen(holes: &mut Vec<Hole>, place: usize, hole: Hole, n: u32)
    requires place { place < vec_len holes.old }
    requires hole { slice_get holes.old.items place ≡ Some hole }
    requires end { hole_end hole + n < 2 ^ 32 }
    requires ends { All HasEnd holes.old.items }
    ensures items { holes.new.items
        ≡ take place holes.old.items
        ++ before_holes (record { at = hole.at; count = hole.count + n })
        (drop (suc place) holes.old.items) }
    ensures capacity { vec_capacity holes.new ≡ vec_capacity holes.old }
{
    let longer = Hole {
        at: hole.at,
        count: hole.count + n,
    };
    match hole_from(holes.as_slice(), place + 1, longer.at + longer.count) {
        Some(right) => {
            holes.remove(place + 1);
            holes[place] = Hole {
                at: longer.at,
                count: longer.count + right.count,
            };
        }
        None => holes[place] = longer,
    }
}

/// Adds a hole behind so many others, joined to those that it touches.
pub fn release(holes: &mut Vec<Hole>, before: usize, freed: Hole)
    requires before { before ≤ vec_len holes.old }
    requires room { vec_len holes.old < vec_capacity holes.old }
    requires ends { All HasEnd holes.old.items }
    requires end { HasEnd freed }
    ensures items { holes.new.items
        ≡ joined (take before holes.old.items) freed (drop before holes.old.items) }
    ensures capacity { vec_capacity holes.old ≤ vec_capacity holes.new }
{
    if before > 0 {
        let left = holes[before - 1];
        if left.at + left.count == freed.at {
            lengthen(holes, before - 1, left, freed.count);
            return;
        }
    }
    insert(holes, before, freed);
}
