//! The laws of admitted histories. Each function answers nothing and promises the law.

ghost use Rattle.jx_base.specs.Histories.{past_of};
ghost use Rattle.jx_laws.specs.Bounds.{MemoryIsInBounds};
ghost use Rattle.jx_laws.specs.Ended.{EndsJustWhatDerives};
ghost use Rattle.jx_laws.specs.Handed.{ParcelsWereHeld, PortalsAreKept};
ghost use Rattle.jx_laws.specs.Laws.{
  CopiesHold,
  FreedHolds,
  OneAnswerHolds,
  ReceivedHolds,
  RevocationHolds,
  UnansweredHolds,
};
ghost use Rattle.jx_laws.specs.Order.{CallsGoInOrder, ServedByOneThread};
ghost use Rattle.jx_model.specs.Legal.{IsAdmitted};

use jx_base::{History, System};

/// Revocation: after a done revoke or split of an object, each use of it or of what was derived
/// from it is refused. Nothing else ends an object.
pub fn law_1(system: &System, history: &History)
    requires { IsAdmitted system.now history.now }
    ensures refused { RevocationHolds (past_of history.now) }
    ensures nothing_else { EndsJustWhatDerives (past_of history.now) }
{}

/// One answer: each call is taken, answered and resumed at most once, in this order, each time by
/// the thread whose turn it is.
pub fn law_2(system: &System, history: &History)
    requires { IsAdmitted system.now history.now }
    ensures once { OneAnswerHolds (past_of history.now) }
    ensures in_order { CallsGoInOrder (past_of history.now) }
{}

/// Unanswered calls: a call without an answer is queued, or one thread of a live domain serves it;
/// its server lives, and the audit has a line for it.
pub fn law_3(system: &System, history: &History)
    requires { IsAdmitted system.now history.now }
    ensures listed { UnansweredHolds (past_of history.now) }
    ensures served { ServedByOneThread (past_of history.now) }
{}

/// Freed only when unheld: an extent goes out of use only where no valid object on it is held or
/// carried, and then for ever. What is in use lies apart and within the machine's memory.
pub fn law_4(system: &System, history: &History)
    requires { IsAdmitted system.now history.now }
    ensures freed { FreedHolds system.now (past_of history.now) }
    ensures in_bounds { MemoryIsInBounds system.now (past_of history.now) }
{}

/// Portals are received: each queued call is through a portal that its caller held, and what a
/// parcel carries was held by who sent it. A live domain holds exactly the portals that its entries
/// gave it.
pub fn law_5(system: &System, history: &History)
    requires { IsAdmitted system.now history.now }
    ensures called { ReceivedHolds (past_of history.now) }
    ensures handed { ParcelsWereHeld (past_of history.now) }
    ensures kept { PortalsAreKept (past_of history.now) }
{}

/// Copies: a take gives what its call asked, a resume the answer.
pub fn law_6(system: &System, history: &History)
    requires { IsAdmitted system.now history.now }
    ensures { CopiesHold (past_of history.now) }
{}
