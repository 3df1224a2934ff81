//! The table of memory objects.
ghost use Rattle.std.specs.Prelude.{◌≡◌, ◌+◌, ◌<◌, ◌≤◌, [], ◌∷◌, false, true, ◌-◌, Some, None, IfOk, IsSome, length, map, not, if◌then◌else◌};
ghost use Rattle.domain_flags.specs.FlagLists.{IsDomain};
ghost use Rattle.jx_base.specs.Basics.{numbered};
ghost use Rattle.jx_base.specs.declared.act.Act.TheVariants.{Revoke, Split, Sub};
ghost use Rattle.jx_model.specs.MemoryObjects.{Part, new_parts};
ghost use Rattle.memory_objects.specs.ObjectLists.{CanJoin, CanRide, IsKept, IsRiding};
ghost use Rattle.memory_objects.specs.ObjectLists.{and_given, derived_in, divided_in, first_unused};
ghost use Rattle.memory_objects.specs.ObjectLists.{held_part, holds_in, lacks_in, next_object};
ghost use Rattle.memory_objects.specs.ObjectLists.{one_more, part_size, place_within, released_in};
ghost use Rattle.memory_objects.specs.ObjectLists.{replied, revoked_in, valid_in, with_holder};
ghost use Rattle.memory_objects.specs.ObjectLists.{with_parts, with_parts_for, with_record};
ghost use Rattle.memory_objects.specs.ObjectLists.{with_riding, with_root, without_extent};
ghost use Rattle.memory_objects.specs.ObjectLists.{without_holder};
ghost use Rattle.memory_objects.specs.Rows.{held_row, part_of};

use crate::ranges::{side_within, span_within};
use crate::records::{
    add_rider, drop_all, end_derived, first_unused, is_held, is_valid, remove_rider, set_holder,
};
use crate::rows::{HoldRow, PartRow};
use jx_base::{DomainId, ObjectId, OutOfMemory, Refusal, Reply};
use std::alloc::Global;
use std::marker::Model;

// The objects that are ever made.
const MOST_OBJECTS: usize = 65_536;

/// The memory objects by their numbers, from 1, and the extents that are in use. Only `open` takes
/// memory.
#[derive(Drop)]
pub struct Objects {
    parts: Vec<PartRow>,
    records: Vec<HoldRow>,
    extents: Vec<u32>,
}

impl Model for Objects {
    ghost use Rattle.memory_objects.specs.ObjectLists.{ObjectsState};
    ghost use Rattle.memory_objects.specs.Inner.{IsObjects, objects_state};

    ghost Value = { ObjectsState };

    ghost view = { objects_state };

    ghost invariant = { IsObjects };
}

impl Objects {
    /// No objects yet.
    pub fn open(alloc: Global) -> Result<Objects, OutOfMemory>
        ensures { IfOk result (λ objects. objects ≡ record {
          parts = [];
          records = [];
          extents = [];
        }) }
    {
        Ok(Objects {
            parts: Vec::with_capacity(alloc, MOST_OBJECTS)?,
            records: Vec::with_capacity(alloc, MOST_OBJECTS)?,
            extents: Vec::with_capacity(alloc, MOST_OBJECTS)?,
        })
    }

    /// Whether so many objects more can be made. There are at most as many extents as objects.
    pub fn has_room(&self, count: u8) -> bool
        ensures room { result ≡ not (lacks_in self.now count) }
        ensures extents { length self.now.extents ≤ length self.now.parts }
    {
        self.parts.len() + count as usize <= MOST_OBJECTS
    }

    // Makes an object that the domain alone holds, and gives its number.
    fn add(&mut self, domain: DomainId, part: PartRow) -> ObjectId
        requires domain { IsDomain domain.0 }
        requires room { length self.old.parts < 65536 }
        requires joins { CanJoin self.old (part_of part) }
        ensures number { result ≡ next_object self.old 1 }
        ensures after { self.new ≡ with_parts self.old domain.0 (part_of part ∷ []) }
    {
        self.parts.push_reserved(part);
        self.records.push_reserved(HoldRow::held_by(domain.0));
        ObjectId(self.parts.len() as u32)
    }

    /// Makes the first object of a new extent, and gives its number. `None` where all objects that
    /// there may be were made.
    pub fn root(&mut self, domain: DomainId, extent: u32, size: u32) -> Option<ObjectId>
        requires { IsDomain domain.0 }
        ensures number { result
            ≡ (if lacks_in self.old 1 then None else Some (next_object self.old 1)) }
        ensures after { self.new
            ≡ (if lacks_in self.old 1 then self.old else with_root self.old domain.0 extent size) }
    {
        if !self.has_room(1) {
            return None;
        }
        let object = self.add(domain, PartRow::whole(extent, size));
        self.extents.push_reserved(extent);
        Some(object)
    }

    /// Whether the domain holds the object.
    pub fn holds(&self, domain: DomainId, object: ObjectId) -> bool
        ensures held { result ≡ holds_in self.now.records domain.0 object.0 }
        ensures domain { result ≡ true → IsDomain domain.0 }
    {
        is_held(self.records.as_slice(), object.0, domain.0)
    }

    // The part of an object that the domain holds and that is valid.
    fn held_part(&self, domain: DomainId, object: ObjectId) -> Result<PartRow, Refusal>
        ensures part { held_row result ≡ held_part self.now domain.0 object.0 }
        ensures domain { IfOk result (λ _. IsDomain domain.0) }
        ensures joins { IfOk result (λ part. CanJoin self.now (part_of part)) }
    {
        if !self.holds(domain, object) {
            return Err(Refusal::NotHeld);
        }
        if !is_valid(self.records.as_slice(), object.0) {
            return Err(Refusal::Revoked);
        }
        Ok(self.parts[object.0 as usize - 1])
    }

    /// The bytes of a valid object that the domain holds.
    pub fn size(&self, domain: DomainId, object: ObjectId) -> Result<u32, Refusal>
        ensures { result ≡ and_given (held_part self.now domain.0 object.0) part_size }
    {
        Ok(self.held_part(domain, object)?.size)
    }

    /// The extent of a valid object that the domain holds, and the byte of it where so many bytes of
    /// the object begin. They must lie within the object.
    pub fn check(
        &self,
        domain: DomainId,
        object: ObjectId,
        at: i32,
        count: i32,
    ) -> Result<(u32, u32), Refusal>
        ensures { result
            ≡ and_given (held_part self.now domain.0 object.0) (place_within at count) }
    {
        let part = self.held_part(domain, object)?;
        match span_within(at, count, part.size) {
            Some(span) => Ok((part.extent, part.from + span.at)),
            None => Err(Refusal::Range),
        }
    }

    // Derives a part of that part of a held object, where it has a byte at least.
    fn derive(
        &mut self,
        domain: DomainId,
        object: ObjectId,
        part: PartRow,
        at: i32,
        count: i32,
    ) -> Reply
        requires domain { IsDomain domain.0 }
        requires part { numbered self.old.parts object.0 ≡ Some (part_of part) }
        requires valid { valid_in self.old.records object.0 ≡ true }
        requires joins { CanJoin self.old (part_of part) }
        ensures reply { result ≡ derived_in self.old at count (part_of part) }
        ensures after { self.new ≡ with_parts self.old domain.0
            (new_parts self.old.parts 0 (Sub object at count) result) }
    {
        let Some(span) = span_within(at, count, part.size) else {
            return Reply::Refused(Refusal::Range);
        };
        if span.count == 0 {
            return Reply::Refused(Refusal::Range);
        }
        if !self.has_room(1) {
            return Reply::Refused(Refusal::TooMany);
        }
        Reply::Object(self.add(domain, part.within(object.0, span.at, span.count)))
    }

    /// Derives an object from so many bytes of another, from there on.
    pub fn sub(&mut self, domain: DomainId, object: ObjectId, at: i32, count: i32) -> Reply
        ensures reply { result
            ≡ replied (held_part self.old domain.0 object.0) (derived_in self.old at count) }
        ensures after { self.new ≡ with_parts self.old domain.0
            (new_parts self.old.parts 0 (Sub object at count) result) }
    {
        match self.held_part(domain, object) {
            Ok(part) => self.derive(domain, object, part, at, count),
            Err(refusal) => Reply::Refused(refusal),
        }
    }

    // Ends an object and what is derived from it.
    fn end_object(&mut self, object: ObjectId)
        requires { IsSome (numbered self.old.parts object.0) }
        ensures after { self.new ≡ record self.old {
          records = revoked_in self.old.parts object.0 self.old.records;
        } }
        ensures joins { (o : Part) → numbered self.old.parts object.0 ≡ Some o →
            CanJoin self.old o → CanJoin self.new o }
    {
        end_derived(self.parts.as_slice(), self.records.as_mut_slice(), object.0);
    }

    // Ends a held object of that part for its two sides, where each has a byte at least.
    fn divide(&mut self, domain: DomainId, object: ObjectId, part: PartRow, at: i32) -> Reply
        requires domain { IsDomain domain.0 }
        requires part { numbered self.old.parts object.0 ≡ Some (part_of part) }
        requires valid { valid_in self.old.records object.0 ≡ true }
        requires joins { CanJoin self.old (part_of part) }
        ensures reply { result ≡ divided_in self.old at (part_of part) }
        ensures after { self.new ≡ with_parts_for self.old domain.0 object.0
            (new_parts self.old.parts 0 (Split object at) result) }
    {
        let Some(at) = side_within(at, part.size) else {
            return Reply::Refused(Refusal::Range);
        };
        if !self.has_room(2) {
            return Reply::Refused(Refusal::TooMany);
        }
        self.end_object(object);
        let left = self.add(domain, part.within(part.parent, 0, at));
        let right = self.add(domain, part.within(part.parent, at, part.size - at));
        Reply::Pair(left, right)
    }

    /// Ends an object and what is derived from it, for two objects of its sides.
    pub fn split(&mut self, domain: DomainId, object: ObjectId, at: i32) -> Reply
        ensures reply { result
            ≡ replied (held_part self.old domain.0 object.0) (divided_in self.old at) }
        ensures after { self.new ≡ with_parts_for self.old domain.0 object.0
            (new_parts self.old.parts 0 (Split object at) result) }
    {
        match self.held_part(domain, object) {
            Ok(part) => self.divide(domain, object, part, at),
            Err(refusal) => Reply::Refused(refusal),
        }
    }

    // Ends a held object of that part for a new one.
    fn renew(&mut self, domain: DomainId, object: ObjectId, part: PartRow) -> Reply
        requires domain { IsDomain domain.0 }
        requires part { numbered self.old.parts object.0 ≡ Some (part_of part) }
        requires valid { valid_in self.old.records object.0 ≡ true }
        requires joins { CanJoin self.old (part_of part) }
        ensures reply { result ≡ one_more self.old }
        ensures after { self.new ≡ with_parts_for self.old domain.0 object.0
            (new_parts self.old.parts 0 (Revoke object) result) }
    {
        if !self.has_room(1) {
            return Reply::Refused(Refusal::TooMany);
        }
        self.end_object(object);
        Reply::Object(self.add(domain, part))
    }

    /// Ends an object and what is derived from it, for one object of the same part.
    pub fn revoke(&mut self, domain: DomainId, object: ObjectId) -> Reply
        ensures reply { result
            ≡ replied (held_part self.old domain.0 object.0) (λ _. one_more self.old) }
        ensures after { self.new ≡ with_parts_for self.old domain.0 object.0
            (new_parts self.old.parts 0 (Revoke object) result) }
    {
        match self.held_part(domain, object) {
            Ok(part) => self.renew(domain, object, part),
            Err(refusal) => Reply::Refused(refusal),
        }
    }

    /// Lets the domain hold the object no more, where it did.
    pub fn release(&mut self, domain: DomainId, object: ObjectId) -> Reply
        ensures reply { result ≡ released_in self.old domain.0 object.0 }
        ensures after { self.new ≡ without_holder self.old domain.0 object.0 }
    {
        if !self.holds(domain, object) {
            return Reply::Refused(Refusal::NotHeld);
        }
        set_holder(self.records.as_mut_slice(), object.0, domain.0, false);
        Reply::Done
    }

    /// Lets the domain hold an object that is held or carried.
    pub fn hold(&mut self, domain: DomainId, object: ObjectId)
        requires domain { IsDomain domain.0 }
        requires kept { IsKept self.old object.0 }
        ensures { self.new ≡ with_record self.old object.0 (with_holder domain.0 true) }
    {
        set_holder(self.records.as_mut_slice(), object.0, domain.0, true);
    }

    /// Counts one call more that carries an object that is held or carried.
    pub fn ride(&mut self, object: ObjectId)
        requires kept { IsKept self.old object.0 }
        requires few { CanRide self.old object.0 }
        ensures { self.new ≡ with_record self.old object.0 (with_riding (λ n. n + 1)) }
    {
        add_rider(self.records.as_mut_slice(), object.0);
    }

    /// Counts one call less that carries the object.
    pub fn land(&mut self, object: ObjectId)
        requires { IsRiding self.old object.0 }
        ensures { self.new ≡ with_record self.old object.0 (with_riding (λ n. n - 1)) }
    {
        remove_rider(self.records.as_mut_slice(), object.0);
    }

    /// Lets the domain hold nothing any more: it ended.
    pub fn end_domain(&mut self, domain: DomainId)
        requires { IsDomain domain.0 }
        ensures { self.new ≡ record self.old {
          records = map (with_holder domain.0 false) self.old.records;
        } }
    {
        drop_all(self.records.as_mut_slice(), domain.0);
    }

    /// An extent that has gone out of use, told once. `None` where there is none.
    pub fn unused(&mut self) -> Option<u32>
        ensures extent { result ≡ first_unused self.old }
        ensures after { self.new ≡ record self.old {
          extents = without_extent result self.old.extents;
        } }
    {
        let extent = first_unused(
            self.extents.as_slice(),
            self.parts.as_slice(),
            self.records.as_slice(),
        )?;
        self.extents.retain(|other| extent != *other);
        Some(extent)
    }
}
