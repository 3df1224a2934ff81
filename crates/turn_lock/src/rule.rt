//! The rule of the lock, and what each step on its table tells.
ghost use Rattle.turn_lock.specs.Rule.{IsRuled};
ghost use Rattle.turn_lock.specs.Views.{first_view, left_view, right_view, joined_view, spent_view};
ghost use Rattle.turn_lock.specs.Steps.{Draws, Looks, Puts, Fetches, PassesOn, Learns};

use crate::view::View;
use atomic_table::{Join, Play, Split, TableRule};
use jx_base::{Chronicle, System};
use std::marker::PhantomData;

/// The rule of a lock round a `T`.
pub struct TurnRule<T> {
    value: PhantomData<T>,
}

impl<T: Chronicle> TableRule<Option<T>, View, System> for TurnRule<T> {
    ghost holds = { IsRuled T.system T.entries };

    ghost first = { first_view };
}

/// A ticket is drawn.
pub struct Draw;

impl<T> Play<Option<T>, View> for Draw {
    ghost then = { Draws };
}

/// The served word is read. Where it is the ticket, the slot is taken.
pub struct Look<T> {
    value: PhantomData<T>,
}

impl<T: Chronicle> Play<Option<T>, View> for Look<T> {
    ghost then = { Looks T.system T.entries };
}

/// The slot goes back, without the value.
pub struct Put;

impl<T> Play<Option<T>, View> for Put {
    ghost then = { Puts };
}

/// The empty slot is taken again.
pub struct Fetch;

impl<T> Play<Option<T>, View> for Fetch {
    ghost then = { Fetches };
}

/// The slot goes back with the value, and the next ticket is served.
pub struct PassOn<T> {
    value: PhantomData<T>,
}

impl<T: Chronicle> Play<Option<T>, View> for PassOn<T> {
    ghost then = { PassesOn T.entries };
}

/// A word is read, and the pass learns what the rule knows of its page.
pub struct Learn;

impl<T> Play<Option<T>, View> for Learn {
    ghost then = { Learns };
}

/// A pass is split from another.
pub struct SplitPass;

impl Split<View> for SplitPass {
    ghost left = { left_view };

    ghost right = { right_view };
}

/// A pass is joined into another.
pub struct JoinPass;

impl Join<View> for JoinPass {
    ghost both = { joined_view };

    ghost spent = { spent_view };
}
