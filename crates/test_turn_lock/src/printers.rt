//! Two domains are made, and each prints in a thread of its own.
ghost use Rattle.std.specs.Prelude.{◌≡◌, ◌+◌, false, length, Some, IfOk};
ghost use Rattle.jx_base.specs.Histories.{own_entries};
ghost use Rattle.turn_lock.specs.Entries.{last_born};
ghost use Rattle.test_turn_lock.specs.Systems.{empty_system_value};

use crate::plain_list::{PlainList, empty_system};
use jx_base::{DomainId, OutOfMemory};
use std::alloc::Global;
use std::sync::Wait;
use std::thread;
use std::thread::Threads;
use turn_lock::{Pass, Turn};

// How many prints each domain makes.
const PRINTS: u16 = 100;

/// The pass's domain makes a domain.
pub fn create<R: Wait>(
    rt: &R,
    turn: &Turn<PlainList>,
    pass: &mut Pass,
) -> Result<DomainId, OutOfMemory>
    requires lock { pass.old.lock ≡ turn.now }
    requires free { pass.old.holds ≡ false }
    ensures lock { pass.new.lock ≡ pass.old.lock }
    ensures free { pass.new.holds ≡ false }
    ensures domain { pass.new.domain ≡ pass.old.domain }
    ensures made { IfOk result (λ _. length pass.new.made ≡ length pass.old.made + 1) }
    ensures born { IfOk result (λ domain. last_born pass.new.made ≡ Some domain.0) }
    ensures whole { IfOk result (λ _. pass.new.parted ≡ false) }
{
    let mut list = turn.take(rt, pass);
    let born = list.create(pass.domain());
    turn.give(pass, list);
    born
}

// The pass's domain prints one unit.
fn print<R: Wait>(
    rt: &R,
    alloc: Global,
    turn: &Turn<PlainList>,
    pass: &mut Pass,
    unit: u16,
) -> Result<(), OutOfMemory>
    requires lock { pass.old.lock ≡ turn.now }
    requires free { pass.old.holds ≡ false }
    ensures lock { pass.new.lock ≡ pass.old.lock }
    ensures free { pass.new.holds ≡ false }
{
    let mut list = turn.take(rt, pass);
    let printed = list.print(alloc, pass.domain(), unit);
    turn.give(pass, list);
    printed
}

// The pass's domain prints the units from 0 on.
fn print_all<R: Wait>(rt: &R, alloc: Global, turn: &Turn<PlainList>, mut pass: Pass) -> Pass
    requires lock { pass.lock ≡ turn.now }
    requires free { pass.holds ≡ false }
    ensures lock { result.lock ≡ turn.now }
    ensures free { result.holds ≡ false }
{
    for unit in 0..PRINTS {
        let _printed = print(rt, alloc, turn, &mut pass, unit);
    }
    pass
}

/// Two domains are made by Domain Zero, and print from two threads. The list has 202 entries where
/// no memory was refused.
pub fn two_printers<R: Threads + Wait + Sync>(
    rt: &R,
    alloc: Global,
) -> Result<PlainList, OutOfMemory>
    ensures system { IfOk result (λ list. list.system ≡ empty_system_value) }
    ensures creates { IfOk result (λ list. length (own_entries list.entries 0) ≡ 2) }
{
    let system = empty_system(alloc);
    let list = PlainList::new(alloc, empty_system(alloc));
    let (turn, mut zero) = Turn::open(alloc, &system, list)?;
    let first = create(rt, &turn, &mut zero)?;
    let one = turn.split(&mut zero, first)?;
    let second = create(rt, &turn, &mut zero)?;
    let two = turn.split(&mut zero, second)?;
    let lock = &turn;
    let (one, two) = thread::join(
        rt,
        move || -> Pass
            requires { (one.lock ≡ lock.now) × (one.holds ≡ false) }
            ensures { (result.lock ≡ lock.entry.now) × (result.holds ≡ false) }
        { print_all(rt, alloc, lock, one) },
        move || -> Pass
            requires { (two.lock ≡ lock.now) × (two.holds ≡ false) }
            ensures { (result.lock ≡ lock.entry.now) × (result.holds ≡ false) }
        { print_all(rt, alloc, lock, two) },
    );
    turn.join(&mut zero, one);
    turn.join(&mut zero, two);
    Ok(turn.close(rt, zero))
}
