//! The names that services are bound to.
ghost use Rattle.std.specs.Prelude.{◌≡◌, ◌+◌, ◌++◌, ◌∷◌, ◌≤◌, [], IfOk, length, slice_range, vec_capacity, vec_len};
ghost use Rattle.std.specs.Option.{option_map};
ghost use Rattle.jx_model.specs.Tables.{named_service};
ghost use Rattle.portal_table.specs.NameLists.{digest_of, name_words};
ghost use Rattle.portal_table.specs.NamesInside.{IsWithin};

use indexmap::IndexMap;
use jx_base::{OutOfMemory, ServiceId};
use std::alloc::Global;
use std::marker::Model;

// The words that a name costs besides its units.
const NAME_WORDS: u32 = 8;

/// A name that was bound: where its units stand in the run of all, its service, and the place of
/// the next older name of the same digest.
#[derive(Clone, Copy)]
pub struct Bind {
    pub start: u32,
    pub end: u32,
    pub service: ServiceId,
    pub older: Option<u32>,
}

/// All names that were bound, in one run of units. Only `open` takes memory.
#[derive(Drop)]
pub struct Names {
    units: Vec<u16>,
    binds: Vec<Bind>,
    newest: IndexMap<u64, u32>,
    words: u32,
}

impl Model for Names {
    ghost use Rattle.portal_table.specs.NameLists.{NamesState};
    ghost use Rattle.portal_table.specs.NamesInside.{IsNames, names_state};

    ghost Value = { NamesState };

    ghost view = { names_state };

    ghost invariant = { IsNames };
}

// A number by which names are told apart; names of the same units have the same one.
fn digest(units: &[u16]) -> u64
    ensures { result ≡ digest_of units.now }
{
    let mut digest: u64 = 0;
    for unit in units {
        digest = digest.wrapping_mul(31).wrapping_add(u64::from(*unit));
    }
    digest
}

// The units of a name.
fn units_of(units: &[u16], bind: Bind) -> &[u16]
    requires { IsWithin (length units.now) bind }
    ensures { result.now ≡ slice_range units.now bind.start bind.end }
{
    &units[bind.start as usize..bind.end as usize]
}

// Puts the units behind the others. Takes no memory.
fn push_units(units: &mut Vec<u16>, name: &[u16])
    requires { vec_len units.old + length name.now ≤ vec_capacity units.old }
    ensures items { units.new.items ≡ units.old.items ++ name.now }
    ensures capacity { vec_capacity units.new ≡ vec_capacity units.old }
{
    for unit in name {
        units.push_reserved(*unit);
    }
}

impl Names {
    /// No names yet, with room for names of so many words.
    pub fn open(alloc: Global, words: u32) -> Result<Names, OutOfMemory>
        ensures { IfOk result (λ names. names ≡ record { binds = []; words = words }) }
    {
        let count = (words / NAME_WORDS) as usize;
        Ok(Names {
            units: Vec::with_capacity(alloc, words as usize)?,
            binds: Vec::with_capacity(alloc, count)?,
            newest: IndexMap::with_capacity(alloc, count)?,
            words,
        })
    }

    /// The service of the newest bind of the name.
    pub fn find(&self, name: &[u16]) -> Option<ServiceId>
        ensures { option_map (λ s. s.0) result ≡ named_service self.now.binds name.now }
    {
        let mut place = self.newest.get(&digest(name)).copied();
        while let Some(at) = place {
            let bind = self.binds[at as usize];
            if units_of(&self.units, bind) == name {
                return Some(bind.service);
            }
            place = bind.older;
        }
        None
    }

    /// Binds the name to the service, before all older ones.
    pub fn push(&mut self, name: &[u16], service: ServiceId)
        requires { name_words ((name.now, service.0) ∷ self.old.binds) ≤ self.old.words }
        ensures { self.new ≡ record self.old { binds = (name.now, service.0) ∷ self.old.binds } }
    {
        let place = self.binds.len() as u32;
        let start = self.units.len() as u32;
        push_units(&mut self.units, name);
        let older = self.newest.insert(digest(name), place).unwrap();
        self.binds.push_reserved(Bind {
            start,
            end: self.units.len() as u32,
            service,
            older,
        });
    }
}
