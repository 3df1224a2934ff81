//! Memory as one table.
ghost use Rattle.std.specs.Prelude.{◌≡◌, ◌+◌, ◌-◌, ◌<◌, ◌≤◌, ◌^◌, pos, false, true, None, Some, IfOk, IfSome, length, map, if◌then◌else◌};
ghost use Rattle.domain_flags.specs.FlagLists.{IsDomain};
ghost use Rattle.extent_pool.specs.Taken.{AreTaken, with_run};
ghost use Rattle.jx_base.specs.Basics.{low_byte, not_below_zero};
ghost use Rattle.jx_base.specs.declared.act.Act.TheVariants.{Revoke, Split, Sub};
ghost use Rattle.jx_base.specs.declared.act.Refusal.TheVariants.{NoRoom};
ghost use Rattle.jx_base.specs.declared.act.Reply.TheVariants.{Made, Number};
ghost use Rattle.jx_model.specs.Granules as Spec;
ghost use Rattle.jx_model.specs.MemoryObjects.{new_parts};
ghost use Rattle.jx_model.specs.Replies.{done_within, given_or};
ghost use Rattle.memory_objects.specs.ObjectLists.{CanRide, IsKept, IsRiding, derived_in};
ghost use Rattle.memory_objects.specs.ObjectLists.{divided_in, holds_in, lacks_in, next_object};
ghost use Rattle.memory_objects.specs.ObjectLists.{one_more, released_in, replied, with_holder};
ghost use Rattle.memory_objects.specs.ObjectLists.{with_parts, with_parts_for, with_record};
ghost use Rattle.memory_objects.specs.ObjectLists.{with_riding};
ghost use Rattle.memory_space.specs.ExtentLists.{IsClear};
ghost use Rattle.memory_space.specs.SpaceLists.{allocated_in, copied_in, copied_to};
ghost use Rattle.memory_space.specs.SpaceLists.{first_space, has_bytes, held_in, objects_in};
ghost use Rattle.memory_space.specs.SpaceLists.{place_in, read_in, room_in, swept, with_alloc};
ghost use Rattle.memory_space.specs.SpaceLists.{with_objects, with_release, written_at};
ghost use Rattle.region_bytes.specs.Extents.{IsWidth};
ghost use Rattle.table_objects.specs.ObjectChanges.{count_of};

use crate::extents::Extents;
use crate::numbers::{allocation, natural};
use crate::rows::extent_granules;
use extent_pool::Pool;
use jx_base::{DomainId, ObjectId, OutOfMemory, Refusal, Reply, System};
use memory_objects::Objects;
use std::alloc::Global;
use std::marker::Model;

/// The memory objects, the extents that they are parts of, and the machine's granules. Only `open`
/// takes memory.
#[derive(Drop)]
pub struct Space {
    objects: Objects,
    extents: Extents,
    pool: Pool,
}

impl Model for Space {
    ghost use Rattle.memory_space.specs.SpaceLists.{SpaceState};
    ghost use Rattle.memory_space.specs.Backing.{IsSpace, space_state};

    ghost Value = { SpaceState };

    ghost view = { space_state };

    ghost invariant = { IsSpace };
}

impl Space {
    /// Nothing made, and all granules free.
    #[tactic(auto, unfolding(program_model::specs::Limits::granule_limit))]
    pub fn open(alloc: Global, system: &System) -> Result<Space, OutOfMemory>
        ensures { IfOk result (λ space. space ≡ first_space system.now) }
    {
        let granules = system.plan.granules;
        Ok(Space {
            objects: Objects::open(alloc)?,
            extents: Extents::open(alloc, granules)?,
            pool: Pool::open(alloc, granules)?,
        })
    }

    /// Takes granules in a row at the least place, for a heap, and gives the place of the first.
    /// `None` where no so many free ones stand together.
    pub fn take(&mut self, granules: u32) -> Option<u32>
        requires { 0 < granules }
        ensures place { result ≡ room_in self.old granules }
        ensures taken { IfSome result (λ at. self.new ≡ record self.old {
          taken = with_run self.old.taken at granules true;
        }) }
        ensures given { IfSome result (λ at. AreTaken self.new.taken at granules) }
        ensures unchanged { result ≡ None → self.new ≡ self.old }
    {
        self.pool.take(granules)
    }

    /// Gives granules of a heap back, from that place on.
    pub fn give(&mut self, at: u32, granules: u32)
        requires taken { AreTaken self.old.taken at granules }
        requires clear { IsClear self.old.extents (at, granules) }
        ensures { self.new ≡ record self.old {
          taken = with_run self.old.taken at granules false;
        } }
    {
        self.pool.give(at, granules);
    }

    /// The objects by themselves.
    pub fn objects(&self) -> &Objects
        ensures parts { result.now.parts ≡ self.now.parts }
        ensures records { result.now.records ≡ self.now.objects }
    {
        &self.objects
    }

    /// Whether the domain holds the object.
    pub fn holds(&self, domain: DomainId, object: ObjectId) -> bool
        ensures held { result ≡ holds_in self.now.objects domain.0 object.0 }
        ensures domain { result ≡ true → IsDomain domain.0 }
    {
        self.objects.holds(domain, object)
    }

    /// The reply to a question for the bytes of an object.
    pub fn size(&self, domain: DomainId, object: ObjectId) -> Reply
        ensures { result
            ≡ replied (held_in self.now domain.0 object.0) (λ o. Number (pos o.size)) }
    {
        match self.objects.size(domain, object) {
            Ok(size) => Reply::Number(size as i32),
            Err(refusal) => Reply::Refused(refusal),
        }
    }

    /// The reply to a read of a number of so many bytes of an object.
    pub fn get(&self, domain: DomainId, object: ObjectId, at: i32, width: u8) -> Reply
        requires { IsWidth width }
        ensures { result
            ≡ replied (held_in self.now domain.0 object.0) (read_in self.now.extents at width) }
    {
        match self.objects.check(domain, object, at, i32::from(width)) {
            Ok((extent, from)) => Reply::Number(self.extents.get(extent, from, width)),
            Err(refusal) => Reply::Refused(refusal),
        }
    }

    /// Puts the low bytes of the value into an object, the lowest first.
    pub fn set(
        &mut self,
        domain: DomainId,
        object: ObjectId,
        at: i32,
        width: u8,
        value: i32,
    ) -> Reply
        requires { IsWidth width }
        ensures reply { result
            ≡ replied (held_in self.old domain.0 object.0) (done_within at (pos width)) }
        ensures after { self.new ≡ written_at self.old
            (place_in self.old domain.0 object.0 at (pos width)) width (low_byte value) }
    {
        match self.objects.check(domain, object, at, i32::from(width)) {
            Ok((extent, from)) => {
                self.extents.set(extent, from, width, value);
                Reply::Done
            }
            Err(refusal) => Reply::Refused(refusal),
        }
    }

    /// Puts the byte at so many places of an object.
    pub fn fill(
        &mut self,
        domain: DomainId,
        object: ObjectId,
        at: i32,
        count: i32,
        byte: u8,
    ) -> Reply
        ensures reply { result
            ≡ replied (held_in self.old domain.0 object.0) (done_within at count) }
        ensures after { self.new ≡ written_at self.old
            (place_in self.old domain.0 object.0 at count) (not_below_zero count) (λ _. byte) }
    {
        match self.objects.check(domain, object, at, count) {
            Ok((extent, from)) => {
                self.extents.fill(extent, from, natural(count), byte);
                Reply::Done
            }
            Err(refusal) => Reply::Refused(refusal),
        }
    }

    /// Copies bytes of an object to another or the same, as if through a second place.
    pub fn copy(
        &mut self,
        domain: DomainId,
        object: ObjectId,
        at: i32,
        target: ObjectId,
        target_at: i32,
        count: i32,
    ) -> Reply
        ensures reply { result
            ≡ copied_in self.old domain.0 object.0 at target.0 target_at count }
        ensures after { self.new ≡ copied_to self.old
            (place_in self.old domain.0 object.0 at count)
            (place_in self.old domain.0 target.0 target_at count) (not_below_zero count) }
    {
        if !self.objects.holds(domain, object) || !self.objects.holds(domain, target) {
            return Reply::Refused(Refusal::NotHeld);
        }
        if let Err(refusal) = self.objects.size(domain, object) {
            return Reply::Refused(refusal);
        }
        if let Err(refusal) = self.objects.size(domain, target) {
            return Reply::Refused(refusal);
        }
        match self.objects.check(domain, object, at, count) {
            Ok((extent, from)) => match self.objects.check(domain, target, target_at, count) {
                Ok((other, to)) => {
                    self.extents.copy(extent, from, other, to, natural(count));
                    Reply::Done
                }
                Err(refusal) => Reply::Refused(refusal),
            },
            Err(refusal) => Reply::Refused(refusal),
        }
    }

    // Makes an extent of so many zeros and the object that it is.
    fn make(&mut self, domain: DomainId, size: u32) -> Reply
        requires domain { IsDomain domain.0 }
        requires some { 1 ≤ size }
        requires small { size < 2 ^ 31 }
        requires room { lacks_in (objects_in self.old) 1 ≡ false }
        ensures reply { result ≡ given_or (room_in self.old (Spec.extent_granules size)) NoRoom
            (λ at. Made (next_object (objects_in self.old) 1) at) }
        ensures after { self.new ≡ with_alloc self.old domain.0 size result }
    {
        let Some(at) = self.pool.take(extent_granules(size)) else {
            return Reply::Refused(Refusal::NoRoom);
        };
        let extent = self.extents.add(at, size);
        match self.objects.root(domain, extent, size) {
            Some(object) => Reply::Made(object, at),
            // There was room.
            None => unreachable!(),
        }
    }

    /// Makes an object of so many zeros, with an extent of its own at the least place.
    pub fn alloc(&mut self, domain: DomainId, size: i32) -> Reply
        requires { IsDomain domain.0 }
        ensures reply { result ≡ allocated_in self.old size }
        ensures after { self.new
            ≡ with_alloc self.old domain.0 (not_below_zero size) result }
    {
        let Some(size) = allocation(size) else {
            return Reply::Refused(Refusal::Range);
        };
        if !self.objects.has_room(1) {
            return Reply::Refused(Refusal::TooMany);
        }
        self.make(domain, size)
    }

    /// Derives an object from so many bytes of another, from there on.
    pub fn sub(&mut self, domain: DomainId, object: ObjectId, at: i32, count: i32) -> Reply
        ensures reply { result ≡ replied (held_in self.old domain.0 object.0)
            (derived_in (objects_in self.old) at count) }
        ensures after { self.new ≡ with_objects self.old
            (with_parts (objects_in self.old) domain.0
            (new_parts self.old.parts 0 (Sub object at count) result)) }
    {
        self.objects.sub(domain, object, at, count)
    }

    /// Ends an object and what is derived from it, for two objects of its sides.
    pub fn split(&mut self, domain: DomainId, object: ObjectId, at: i32) -> Reply
        ensures reply { result ≡ replied (held_in self.old domain.0 object.0)
            (divided_in (objects_in self.old) at) }
        ensures after { self.new ≡ with_objects self.old
            (with_parts_for (objects_in self.old) domain.0 object.0
            (new_parts self.old.parts 0 (Split object at) result)) }
    {
        self.objects.split(domain, object, at)
    }

    /// Ends an object and what is derived from it, for one object of the same part.
    pub fn revoke(&mut self, domain: DomainId, object: ObjectId) -> Reply
        ensures reply { result ≡ replied (held_in self.old domain.0 object.0)
            (λ _. one_more (objects_in self.old)) }
        ensures after { self.new ≡ with_objects self.old
            (with_parts_for (objects_in self.old) domain.0 object.0
            (new_parts self.old.parts 0 (Revoke object) result)) }
    {
        self.objects.revoke(domain, object)
    }

    /// Lets the domain hold an object that is held or carried.
    pub fn hold(&mut self, domain: DomainId, object: ObjectId)
        requires domain { IsDomain domain.0 }
        requires kept { IsKept (objects_in self.old) object.0 }
        ensures { self.new ≡ with_objects self.old
            (with_record (objects_in self.old) object.0 (with_holder domain.0 true)) }
    {
        self.objects.hold(domain, object);
    }

    /// Counts one call more that carries an object that is held or carried.
    pub fn ride(&mut self, object: ObjectId)
        requires kept { IsKept (objects_in self.old) object.0 }
        requires few { CanRide (objects_in self.old) object.0 }
        ensures { self.new ≡ with_objects self.old
            (with_record (objects_in self.old) object.0 (with_riding (λ n. n + 1))) }
    {
        self.objects.ride(object);
    }

    /// Counts one call less that carries the object.
    pub fn land(&mut self, object: ObjectId)
        requires { IsRiding (objects_in self.old) object.0 }
        ensures { self.new ≡ with_objects self.old
            (with_record (objects_in self.old) object.0 (with_riding (λ n. n - 1))) }
    {
        self.objects.land(object);
    }

    /// Lets the domain hold nothing any more: it ended.
    pub fn end_domain(&mut self, domain: DomainId)
        requires { IsDomain domain.0 }
        ensures { self.new ≡ record self.old {
          objects = map (with_holder domain.0 false) self.old.objects;
        } }
    {
        self.objects.end_domain(domain);
    }

    // Gives the bytes and the granules of an extent back that is in use no more. Whether there was
    // one.
    fn give_unused(&mut self) -> bool
        ensures rest { result ≡ true → swept self.new ≡ swept self.old }
        ensures fewer { result ≡ true
            → count_of has_bytes self.new.extents < count_of has_bytes self.old.extents }
        ensures none { result ≡ false → self.new ≡ swept self.old }
    {
        match self.objects.unused() {
            Some(extent) => {
                let (at, granules) = self.extents.forget(extent);
                self.pool.give(at, granules);
                true
            }
            None => false,
        }
    }

    /// Gives the bytes and the granules back of all extents that are in use no more.
    pub fn sweep(&mut self)
        ensures { self.new ≡ swept self.old }
    {
        let mut more = true;
        while more {
            more = self.give_unused();
        }
    }

    /// Lets the domain hold the object no more, where it did, and sweeps.
    pub fn release(&mut self, domain: DomainId, object: ObjectId) -> Reply
        ensures reply { result ≡ released_in (objects_in self.old) domain.0 object.0 }
        ensures after { self.new ≡ with_release self.old domain.0 object.0 }
    {
        if !self.objects.holds(domain, object) {
            return Reply::Refused(Refusal::NotHeld);
        }
        let reply = self.objects.release(domain, object);
        self.sweep();
        reply
    }
}
