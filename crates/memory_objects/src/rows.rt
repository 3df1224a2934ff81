//! What is kept of a memory object.
ghost use Rattle.std.specs.Prelude.{◌≡◌, ◌+◌, ◌<◌, ◌^◌, ◌==◌, ◌&&◌, true, slice_get};
ghost use Rattle.std.specs.List.{list_any};
ghost use Rattle.domain_flags.specs.FlagLists.{IsDomain};
ghost use Rattle.jx_base.specs.Basics.{passes};
ghost use Rattle.jx_model.specs.MemoryObjects.{part_within};
ghost use Rattle.memory_objects.specs.ObjectLists.{new_record, whole_of, with_holder};
ghost use Rattle.memory_objects.specs.Rows.{part_of, record_of};
ghost use Rattle.table_reads.specs.TableReads.{flag_at};
ghost use Rattle.table_steps.specs.Steps.{is_record_used};

use domain_flags::DomainFlags;

/// The part of an extent that an object is, in bytes, and the object that it was derived from, or
/// 0.
#[derive(Clone, Copy)]
pub struct PartRow {
    pub parent: u32,
    pub extent: u32,
    pub from: u32,
    pub size: u32,
}

/// Whether an object is valid, for each domain whether it holds it, and how many calls carry it.
#[derive(Clone, Copy)]
pub struct HoldRow {
    pub valid: bool,
    pub holders: DomainFlags,
    pub riding: u32,
}

impl PartRow {
    /// The whole of a new extent.
    pub fn whole(extent: u32, size: u32) -> PartRow
        ensures { part_of result ≡ whole_of extent size }
    {
        PartRow {
            parent: 0,
            extent,
            from: 0,
            size,
        }
    }

    /// So many bytes of it from there, below that parent.
    pub fn within(self, parent: u32, at: u32, size: u32) -> PartRow
        requires { self.from + at < 2 ^ 32 }
        ensures { part_of result ≡ part_within parent (part_of self) at size }
    {
        PartRow {
            parent,
            extent: self.extent,
            from: self.from + at,
            size,
        }
    }
}

impl HoldRow {
    /// A valid object that the domain alone holds.
    pub fn held_by(domain: u32) -> HoldRow
        requires { IsDomain domain }
        ensures { record_of result ≡ new_record domain }
    {
        HoldRow {
            valid: true,
            holders: DomainFlags::only(domain),
            riding: 0,
        }
    }

    /// Whether the domain holds it.
    pub fn is_held_by(&self, domain: u32) -> bool
        ensures held { result ≡ flag_at self.now.holders.flags domain }
        ensures domain { result ≡ true → IsDomain domain }
    {
        self.holders.is_set(domain)
    }

    /// The object once the domain holds it or holds it no more.
    pub fn with_holder(self, domain: u32, held: bool) -> HoldRow
        requires { IsDomain domain }
        ensures { record_of result ≡ with_holder domain held (record_of self) }
    {
        HoldRow {
            holders: self.holders.with(domain, held),
            ..self
        }
    }

    /// The object, valid no more unless it can stay so.
    pub fn valid_if(self, stays: bool) -> HoldRow
        ensures { record_of result ≡ record (record_of self) { valid = self.valid && stays } }
    {
        HoldRow {
            valid: self.valid && stays,
            ..self
        }
    }

    /// The object, carried by so many calls.
    pub fn with_riding(self, riding: u32) -> HoldRow
        ensures { record_of result ≡ record (record_of self) { riding = riding } }
    {
        HoldRow { riding, ..self }
    }

    /// Whether it is valid, and a domain holds it or a call carries it.
    pub fn is_used(&self) -> bool
        ensures { result ≡ is_record_used (record_of self.now) }
    {
        self.valid && (self.holders.has_any() || self.riding > 0)
    }

    /// Whether it is so as a part of that extent.
    pub fn is_use_of(&self, part: PartRow, extent: u32) -> bool
        ensures { result ≡ ((part.extent == extent) && is_record_used (record_of self.now)) }
    {
        part.extent == extent && self.is_used()
    }
}
