//! Where in the journal the parcels of calls stand.
ghost use Rattle.std.specs.Prelude.{◌≡◌, ◌+◌, ◌-◌, ◌++◌, ◌∷◌, ◌<◌, [], IfOk, IsSome, Some, length};
ghost use Rattle.jx_base.specs.Basics.{numbered};
ghost use Rattle.nucleus_tables.specs.PlaceLists.{new_places, with_answer};
ghost use Rattle.table_threads.specs.Changes.{changed_at};

use jx_base::{CallId, OutOfMemory};
use std::alloc::Global;
use std::marker::Model;

/// The places in the journal, from 0, of the entry that queued a call, and of the one that answered
/// it with a parcel, while its caller has yet to get that.
#[derive(Clone, Copy)]
pub struct CallPlaces {
    pub queued: u32,
    pub answered: Option<u32>,
}

/// The places of each call, from call 1. Only `open` takes memory.
#[derive(Drop)]
pub struct Places {
    places: Vec<CallPlaces>,
    limit: u32,
}

impl Model for Places {
    ghost use Rattle.nucleus_tables.specs.PlaceLists.{ArePlaces, PlacesState, places_state};

    ghost Value = { PlacesState };

    ghost view = { places_state };

    ghost invariant = { ArePlaces };
}

impl Places {
    /// Of no calls yet, with room for so many.
    pub fn open(alloc: Global, limit: u32) -> Result<Places, OutOfMemory>
        ensures { IfOk result (λ places. places ≡ record { places = []; limit = limit }) }
    {
        Ok(Places {
            places: Vec::with_capacity(alloc, limit as usize)?,
            limit,
        })
    }

    /// One call more, which is queued there.
    pub fn queue(&mut self, place: u32)
        requires { length self.old.places < self.old.limit }
        ensures { self.new ≡ record self.old {
          places = self.old.places ++ new_places place ∷ [];
        } }
    {
        self.places.push_reserved(CallPlaces {
            queued: place,
            answered: None,
        });
    }

    /// The call is answered there, or its answer is awaited no more.
    pub fn answer(&mut self, call: CallId, place: Option<u32>)
        requires { IsSome (numbered self.old.places call.0) }
        ensures { self.new ≡ record self.old {
          places = changed_at (call.0 - 1) (with_answer place) self.old.places;
        } }
    {
        self.places[call.0 as usize - 1].answered = place;
    }

    /// The places of a call.
    pub fn of(&self, call: CallId) -> CallPlaces
        requires { IsSome (numbered self.now.places call.0) }
        ensures { Some result ≡ numbered self.now.places call.0 }
    {
        self.places[call.0 as usize - 1]
    }
}
