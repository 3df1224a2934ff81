//! The lock, and its passes.
ghost use Rattle.std.specs.Prelude.{◌≡◌, ℕ, true, false, [], ◌∷◌, length, Some, IsOk, IfOk};
ghost use mathlib.Core.List.{IsPrefix};
ghost use Rattle.jx_base.specs.Births.{IsNumbered};
ghost use Rattle.jx_base.specs.Histories.{own_entries};
ghost use Rattle.turn_lock.specs.Entries.{last_born, Extends, IsMade};
ghost use Rattle.turn_lock.specs.Views.{at_stage, left_view, right_view, passed_view, joined_view};
ghost use Rattle.turn_lock.specs.Steps.{IsServed, ShowsJoin};
ghost use Rattle.turn_lock.specs.declared.view.Stage.TheVariants.{Idle, Served, Holding};

use crate::rule::{Draw, Fetch, JoinPass, Learn, Look, PassOn, Put, SplitPass, TurnRule};
use crate::view::View;
use atomic_table::{Badge, Seat, Table};
use jx_base::{Chronicle, DomainId, OutOfMemory, System};
use std::alloc::{AllocError, Global};
use std::marker::Model;
use std::mem;
use std::sync::Wait;

// The word that counts the tickets drawn.
const DRAWN: usize = 0;

// The word that counts the tickets served.
const SERVED: usize = 1;

/// A lock round a value that lists what was done. Passes take turns in the order of their tickets.
#[derive(Drop)]
pub struct Turn<T: Chronicle> {
    table: Table<Option<T>, View, System, TurnRule<T>, Global>,
}

impl<T: Chronicle> Model for Turn<T> {
    ghost use Rattle.std.specs.Prelude.{◌≡◌};
    ghost use Rattle.turn_lock.specs.Standing.{Lock};

    ghost Value = { Lock };

    ghost view = { λ turn. record {
      id = turn.table.shared.table_id;
      system = turn.table.shared.key;
    } };

    ghost invariant = { λ turn.
        (turn.table.shared.table_id.words ≡ 2) × (turn.table.shared.table_id.slots ≡ 1) };
}

/// What its holder has seen of the list, and the entries that it made. One that is dropped while it
/// holds the turn blocks its lock for ever.
#[derive(Drop)]
pub struct Pass {
    badge: Badge<View>,
    domain: DomainId,
    made: u32,
    seen: u32,
}

impl Model for Pass {
    ghost use Rattle.std.specs.Prelude.{◌≡◌, ◌∷◌, []};
    ghost use Rattle.turn_lock.specs.declared.view.View.{View};
    ghost use Rattle.turn_lock.specs.Standing.{Standing, standing, IsKept};

    ghost Value = { Standing };

    ghost view = { λ pass. standing pass.badge.table_id pass.badge.views };

    ghost invariant = { λ pass. (view : View) × (pass.badge.views ≡ view ∷ [])
        × IsKept view pass.domain.0 pass.made pass.seen };
}

// A pass with the slots that it has taken.
type Place<T> = Seat<Option<T>, View>;

impl Pass {
    ghost use Rattle.turn_lock.specs.Standing.{SeesOwn};

    /// The domain whose entries it makes.
    pub fn domain(&self) -> DomainId
        ensures { result.0 ≡ self.now.domain }
    {
        self.domain
    }

    /// How many entries it has made.
    pub fn made(&self) -> u32
        ensures count { result ≡ length self.now.made }
        ensures own { SeesOwn self.now }
    {
        self.made
    }
}

impl<T: Chronicle> Turn<T> {
    ghost use Rattle.turn_lock.specs.Standing.{SeesOwn, first_standing, parted_from, part_of};
    ghost use Rattle.turn_lock.specs.Standing.{IsTaken, IsGiven, IsJoined};

    /// A new lock, and Domain Zero's pass. The value goes where there is no memory.
    #[tactic(auto, unfolding(jx_base::specs::Histories::own_entries))]
    pub fn open(alloc: Global, system: &System, value: T) -> Result<(Turn<T>, Pass), OutOfMemory>
    where
        T: Drop,
        requires system { T.system value ≡ system.now }
        requires empty { T.entries value ≡ [] }
        ensures system { IfOk result (λ opened. opened.0.system ≡ system.now) }
        ensures first { IfOk result (λ opened. opened.1 ≡ first_standing opened.0) }
    {
        let mut slots = Vec::with_capacity(alloc, 1)?;
        slots.push(Some(value))?;
        let Ok((table, seat)) = Table::new(alloc, &[0, 0], slots, system) else {
            return Err(AllocError);
        };
        let pass = Pass {
            badge: seat.into_badge(),
            domain: DomainId(0),
            made: 0,
            seen: 0,
        };
        Ok((Turn { table }, pass))
    }

    /// Waits for a turn, and takes the value out.
    pub fn take<R: Wait>(&self, rt: &R, pass: &mut Pass) -> T
        requires lock { pass.old.lock ≡ self.now }
        requires free { pass.old.holds ≡ false }
        ensures taken { IsTaken pass.old pass.new }
        ensures made { IsMade pass.new.seen pass.new.domain }
        ensures system { T.system result ≡ self.now.system }
        ensures entries { T.entries result ≡ pass.new.seen }
    {
        let badge = mem::replace(&mut pass.badge, Badge::blank());
        let seat = self.serve(rt, badge.into_seat());
        let (value, seat) = self.take_out(seat);
        pass.badge = seat.into_badge();
        pass.seen = value.count();
        value
    }

    /// Puts the value back, as it was or with one entry more, and ends the turn.
    #[tactic(auto, unfolding(jx_base::specs::Histories::is_own, jx_base::specs::Histories::own_entries))]
    pub fn give(&self, pass: &mut Pass, value: T)
        requires lock { pass.old.lock ≡ self.now }
        requires holds { pass.old.holds ≡ true }
        requires system { T.system value ≡ self.now.system }
        requires entries { Extends pass.old.seen (T.entries value) pass.old.domain }
        ensures { IsGiven pass.old pass.new (T.entries value) }
    {
        let count = value.count();
        if count != pass.seen {
            pass.made += 1;
            pass.seen = count;
        }
        let badge = mem::replace(&mut pass.badge, Badge::blank());
        let seat = self.pass_on(badge.into_seat(), value);
        pass.badge = seat.into_badge();
    }

    /// A pass for the domain that the last entry of this one made. It takes no memory.
    pub fn split(&self, pass: &mut Pass, domain: DomainId) -> Result<Pass, OutOfMemory>
        requires lock { pass.old.lock ≡ self.now }
        requires free { pass.old.holds ≡ false }
        requires born { last_born pass.old.made ≡ Some domain.0 }
        requires whole { pass.old.parted ≡ false }
        ensures ok { IsOk result }
        ensures left { pass.new ≡ parted_from pass.old }
        ensures right { IfOk result (λ part. part ≡ part_of pass.old domain.0) }
        ensures left_own { SeesOwn pass.new }
        ensures right_own { IfOk result SeesOwn }
    {
        let seen = pass.seen;
        let badge = mem::replace(&mut pass.badge, Badge::blank());
        let mut seat: Place<T> = badge.into_seat();
        let part = self.split_seat(&mut seat, domain);
        pass.badge = seat.into_badge();
        Ok(Pass {
            badge: part.into_badge(),
            domain,
            made: 0,
            seen,
        })
    }

    /// Lets the pass see what the other has seen. The other's domain has no pass any more.
    pub fn join(&self, pass: &mut Pass, other: Pass)
        requires lock { pass.old.lock ≡ self.now }
        requires other_lock { other.lock ≡ self.now }
        requires free { pass.old.holds ≡ false }
        requires other_free { other.holds ≡ false }
        ensures { IsJoined pass.old other pass.new }
    {
        let Pass {
            badge: other_badge,
            domain: _,
            made: _,
            seen,
        } = other;
        let badge = mem::replace(&mut pass.badge, Badge::blank());
        let seat = self.join_seats(badge.into_seat(), other_badge.into_seat());
        pass.badge = seat.into_badge();
        if pass.seen <= seen {
            pass.seen = seen;
        }
    }

    /// Takes the value as `take` does, and ends the lock.
    pub fn close<R: Wait>(self, rt: &R, mut pass: Pass) -> T
    where
        T: Drop,
        requires lock { pass.lock ≡ self }
        requires free { pass.holds ≡ false }
        ensures system { T.system result ≡ self.system }
        ensures later { IsPrefix pass.seen (T.entries result) }
        ensures own { own_entries (T.entries result) pass.domain ≡ pass.made }
    {
        self.take(rt, &mut pass)
    }

    // Splits the view of the new domain's pass off. Its seat then learns what the rule knows of it.
    fn split_seat(&self, seat: &mut Place<T>, domain: DomainId) -> Place<T>
        requires fits { seat.old.table_id ≡ self.now.id }
        requires idle { seat.old.me.0.stage ≡ Idle }
        requires live { seat.old.me.0.page.spent ≡ false }
        requires whole { seat.old.me.0.page.parted ≡ false }
        requires born { last_born seat.old.me.0.page.made ≡ Some domain.0 }
        ensures left_id { (seat.new.table_id ≡ seat.old.table_id) × (seat.new.id ≡ seat.old.id) }
        ensures left { seat.new.me ≡ (left_view seat.old.me.0, seat.old.me.1) }
        ensures right_id { result.table_id ≡ seat.old.table_id }
        ensures right { result.me ≡ (right_view seat.old.me.0, []) }
        ensures none_yet { own_entries seat.old.me.0.page.seen domain.0 ≡ [] }
    {
        let mut part = self.table.shared.split_seat::<SplitPass>(seat);
        self.table.shared.load::<Learn>(&mut part, DRAWN);
        part
    }

    // Joins two views. The seat then learns what the rule knows of both.
    fn join_seats(&self, mut seat: Place<T>, other: Place<T>) -> Place<T>
        requires fits { (seat.table_id ≡ self.now.id) × (other.table_id ≡ self.now.id) }
        requires idle { (seat.me.0.stage ≡ Idle) × (other.me.0.stage ≡ Idle) }
        requires live { (seat.me.0.page.spent ≡ false) × (other.me.0.page.spent ≡ false) }
        requires bare { other.me.1 ≡ [] }
        ensures same { (result.table_id ≡ seat.table_id) × (result.id ≡ seat.id) }
        ensures joined { result.me ≡ (joined_view seat.me.0 other.me.0, seat.me.1) }
        ensures shown { ShowsJoin (joined_view seat.me.0 other.me.0).page }
        ensures own { let page = (joined_view seat.me.0 other.me.0).page in
            own_entries page.seen page.domain ≡ page.made }
    {
        let shared = &self.table.shared;
        shared.join_seat::<JoinPass>(&mut seat, other);
        shared.load::<Learn>(&mut seat, DRAWN);
        seat
    }

    // Draws a ticket, and waits for its turn. A turn that is passed on wakes those that are parked.
    fn serve<R: Wait>(&self, rt: &R, mut seat: Place<T>) -> Place<T>
        requires fits { seat.table_id ≡ self.now.id }
        requires bare { seat.me.1 ≡ [] }
        requires idle { seat.me.0.stage ≡ Idle }
        requires live { seat.me.0.page.spent ≡ false }
        ensures same { (result.table_id ≡ seat.table_id) × (result.id ≡ seat.id) }
        ensures served { (ticket : ℕ) × (x : T)
            × IsServed T.system T.entries seat.me result.me ticket x }
    {
        let shared = &self.table.shared;
        let ticket = shared.fetch_add::<Draw>(&mut seat, DRAWN, 1);
        for _ in rt.forever() {
            let found = shared.load::<Look<T>>(&mut seat, SERVED);
            if found == ticket {
                return seat;
            }
            // It sleeps only while the low half of the word is still this.
            shared.park(rt, SERVED, (found & 0xffff_ffff) as u32);
        }
        unreachable!()
    }

    // Takes the value out of the slot, and gives the slot back.
    fn take_out(&self, mut seat: Place<T>) -> (T, Place<T>)
        requires fits { seat.table_id ≡ self.now.id }
        requires served { (ticket : ℕ) × (x : T) × (seat.me.1 ≡ (0, Some x) ∷ [])
            × (seat.me.0.stage ≡ Served ticket) }
        ensures same { (result.1.table_id ≡ seat.table_id) × (result.1.id ≡ seat.id) }
        ensures value { seat.me.1 ≡ (0, Some result.0) ∷ [] }
        ensures holding { (ticket : ℕ) × (seat.me.0.stage ≡ Served ticket)
            × (result.1.me ≡ (at_stage seat.me.0 (Holding ticket), [])) }
    {
        let shared = &self.table.shared;
        let Some(value) = shared.exchange(&mut seat, 0, None) else {
            unreachable!()
        };
        shared.load::<Put>(&mut seat, SERVED);
        (value, seat)
    }

    // Takes the slot again, puts the value into it, passes the turn on, and wakes who is parked.
    fn pass_on(&self, mut seat: Place<T>, value: T) -> Place<T>
        requires fits { seat.table_id ≡ self.now.id }
        requires holding { (ticket : ℕ) × (seat.me.1 ≡ []) × (seat.me.0.stage ≡ Holding ticket) }
        requires system { T.system value ≡ seat.me.0.page.system }
        requires entries { Extends seat.me.0.page.seen (T.entries value) seat.me.0.page.domain }
        requires numbered { IsNumbered (T.entries value) }
        ensures same { (result.table_id ≡ seat.table_id) × (result.id ≡ seat.id) }
        ensures passed { result.me ≡ (passed_view seat.me.0 (T.entries value), []) }
    {
        let shared = &self.table.shared;
        shared.load::<Fetch>(&mut seat, SERVED);
        let nothing = shared.exchange(&mut seat, 0, Some(value));
        let None = nothing else { unreachable!() };
        let served = shared.fetch_add::<PassOn<T>>(&mut seat, SERVED, 1);
        // Who draws a ticket after this sees the new served word.
        if shared.peek(DRAWN) != served.wrapping_add(1) {
            shared.wake_all(SERVED);
        }
        seat
    }
}
