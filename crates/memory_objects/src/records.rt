//! The records of all objects.
ghost use Rattle.std.specs.Prelude.{◌≡◌, ◌<◌, ◌≤◌, ◌+◌, ◌-◌, ◌^◌, ◌==◌, ◌&&◌, ◌||◌, IsSome, IsSomeAnd, false, true, length, map, not};
ghost use Rattle.std.specs.List.{find};
ghost use Rattle.domain_flags.specs.FlagLists.{IsDomain};
ghost use Rattle.jx_base.specs.Basics.{numbered};
ghost use Rattle.memory_objects.specs.ObjectLists.{holds_in, revoked_in, valid_in};
ghost use Rattle.memory_objects.specs.ObjectLists.{with_holder, with_riding};
ghost use Rattle.memory_objects.specs.Rows.{IsTree, parts_of, records_of};
ghost use Rattle.table_steps.specs.Steps.{in_use_by};
ghost use Rattle.table_threads.specs.Changes.{changed_at};

use crate::rows::{HoldRow, PartRow};

/// Lets the domain hold the object, or no more.
pub fn set_holder(records: &mut [HoldRow], object: u32, domain: u32, held: bool)
    requires domain { IsDomain domain }
    requires object { IsSome (numbered (records_of records.old) object) }
    ensures { records_of records.new
        ≡ changed_at (object - 1) (with_holder domain held) (records_of records.old) }
{
    let row = records[object as usize - 1];
    records[object as usize - 1] = row.with_holder(domain, held);
}

/// Counts one call more that carries the object.
pub fn add_rider(records: &mut [HoldRow], object: u32)
    requires { IsSomeAnd (numbered (records_of records.old) object) (λ r. r.riding < 4294967295) }
    ensures { records_of records.new
        ≡ changed_at (object - 1) (with_riding (λ n. n + 1)) (records_of records.old) }
{
    let row = records[object as usize - 1];
    records[object as usize - 1] = row.with_riding(row.riding + 1);
}

/// Counts one call less that carries the object.
pub fn remove_rider(records: &mut [HoldRow], object: u32)
    requires { IsSomeAnd (numbered (records_of records.old) object) (λ r. 1 ≤ r.riding) }
    ensures { records_of records.new
        ≡ changed_at (object - 1) (with_riding (λ n. n - 1)) (records_of records.old) }
{
    let row = records[object as usize - 1];
    records[object as usize - 1] = row.with_riding(row.riding - 1);
}

/// Lets the domain hold no object any more.
pub fn drop_all(records: &mut [HoldRow], domain: u32)
    requires { IsDomain domain }
    ensures { records_of records.new ≡ map (with_holder domain false) (records_of records.old) }
{
    for place in 0..records.len() {
        let row = records[place];
        records[place] = row.with_holder(domain, false);
    }
}

/// Whether the domain holds the object.
pub fn is_held(records: &[HoldRow], object: u32, domain: u32) -> bool
    ensures held { result ≡ holds_in (records_of records.now) domain object }
    ensures domain { result ≡ true → IsDomain domain }
{
    match object.checked_sub(1) {
        Some(place) => match records.get(place as usize) {
            Some(row) => row.is_held_by(domain),
            None => false,
        },
        None => false,
    }
}

/// Whether the object is valid.
pub fn is_valid(records: &[HoldRow], object: u32) -> bool
    ensures { result ≡ valid_in (records_of records.now) object }
{
    match object.checked_sub(1) {
        Some(place) => match records.get(place as usize) {
            Some(row) => row.valid,
            None => false,
        },
        None => false,
    }
}

// Whether the object of that place isn't that one, and its parent is valid where it has one.
fn can_stay(part: PartRow, records: &[HoldRow], place: usize, object: u32) -> bool
    requires { place < 2 ^ 32 }
    ensures { result ≡ (not (place + 1 == object)
        && ((part.parent == 0) || valid_in (records_of records.now) part.parent)) }
{
    place + 1 != object as usize && (part.parent == 0 || is_valid(records, part.parent))
}

/// Ends the object and what is derived from it: a parent comes before its children, and is valid as
/// long as they are.
pub fn end_derived(parts: &[PartRow], records: &mut [HoldRow], object: u32)
    requires object { 1 ≤ object }
    requires count { length records.old ≡ length parts.now }
    requires few { length parts.now ≤ 65536 }
    requires tree { IsTree (parts_of parts.now) (records_of records.old) }
    ensures { records_of records.new
        ≡ revoked_in (parts_of parts.now) object (records_of records.old) }
{
    for place in 0..records.len() {
        let stays = can_stay(parts[place], records, place, object);
        let row = records[place];
        records[place] = row.valid_if(stays);
    }
}

/// Whether a valid object of the extent is held or carried.
pub fn is_in_use(parts: &[PartRow], records: &[HoldRow], extent: u32) -> bool
    requires { length records.now ≡ length parts.now }
    ensures { result ≡ in_use_by (parts_of parts.now) (records_of records.now) extent }
{
    for place in 0..parts.len() {
        let part = parts[place];
        let row = records[place];
        if row.is_use_of(part, extent) {
            return true;
        }
    }
    false
}

/// The first of the extents that isn't in use.
pub fn first_unused(extents: &[u32], parts: &[PartRow], records: &[HoldRow]) -> Option<u32>
    requires { length records.now ≡ length parts.now }
    ensures { result ≡ find (λ e. not (in_use_by (parts_of parts.now) (records_of records.now) e))
        extents.now }
{
    extents
        .iter()
        .copied()
        .find(|extent| !is_in_use(parts, records, *extent))
}
