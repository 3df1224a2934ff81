//! Pools.

use crate::pool::Memory;
use crate::pools::Step::{Give, Holes, Spare, Take};
use jx_base::OutOfMemory;
use std::alloc::Global;
use std::test::Fail;

// A call with what is due, or the granules that are spare or free by then.
#[derive(Clone, Copy)]
enum Step {
    Take(u32, Option<u32>),
    Give(u32, u32),
    Spare(u32),
    Holes(&'static [(u32, u32)]),
}

// A pool of so many granules, and what is done in it.
type Case = (u32, &'static [Step]);

static POOLS: [Case; 5] = [
    (
        16,
        &[
            Holes(&[(0, 16)]),
            Take(4, Some(0)),
            Take(4, Some(4)),
            Take(4, Some(8)),
            Give(4, 4),
            Take(5, None),
            Holes(&[(4, 4), (12, 4)]),
            Take(3, Some(4)),
            Give(0, 4),
            Spare(9),
            Holes(&[(0, 4), (7, 1), (12, 4)]),
            Take(4, Some(0)),
            Give(4, 3),
            Spare(8),
            Take(1, Some(4)),
        ],
    ),
    // Freed to the right of a hole, to the left of one, between two, and between none.
    (
        10,
        &[
            Take(10, Some(0)),
            Holes(&[]),
            Spare(0),
            Take(1, None),
            Give(1, 1),
            Give(2, 1),
            Holes(&[(1, 2)]),
            Give(7, 2),
            Give(6, 1),
            Holes(&[(1, 2), (6, 3)]),
            Give(4, 1),
            Holes(&[(1, 2), (4, 1), (6, 3)]),
            Give(3, 1),
            Holes(&[(1, 4), (6, 3)]),
            Give(5, 1),
            Holes(&[(1, 8)]),
            Give(0, 1),
            Give(9, 1),
            Holes(&[(0, 10)]),
            Spare(10),
        ],
    ),
    // Parts of what was taken at once go back one by one, and the first hole that fits is cut.
    (
        8,
        &[
            Take(8, Some(0)),
            Give(0, 1),
            Give(2, 2),
            Give(5, 3),
            Spare(6),
            Take(3, Some(5)),
            Take(2, Some(2)),
            Take(1, Some(0)),
            Spare(0),
        ],
    ),
    (
        1,
        &[
            Take(2, None),
            Take(1, Some(0)),
            Give(0, 1),
            Give(0, 0),
            Holes(&[(0, 1)]),
        ],
    ),
    (0, &[Holes(&[]), Take(1, None), Spare(0)]),
];

fn is_done(memory: &mut Memory, step: &Step) -> bool {
    match step {
        Take(n, place) => memory.take(*n) == *place,
        Give(at, n) => memory.give(*at, *n),
        Spare(n) => memory.spare() == *n,
        Holes(holes) => memory.has_holes(holes),
    }
}

fn are_done(alloc: Global, case: &Case) -> Result<bool, OutOfMemory> {
    let mut memory = Memory::open(alloc, case.0)?;
    for step in case.1 {
        if !is_done(&mut memory, step) {
            return Ok(false);
        }
    }
    Ok(true)
}

#[test]
fn granules_are_taken_at_the_least_place(rt: HostRuntime) -> Result<(), Fail> {
    for case in &POOLS {
        assert!(rt; are_done(rt.alloc(), case)?);
    }
    Ok(())
}

// Gives every second granule, so many from that place on.
fn gives_each_second(memory: &mut Memory, first: u32, count: u32) -> bool {
    let mut at = first;
    for _ in 0..count {
        if !memory.give(at, 1) {
            return false;
        }
        at = at.wrapping_add(2);
    }
    true
}

// Every second granule is free, so that there are as many holes as there can be.
#[test]
fn half_of_the_granules_may_be_holes(rt: HostRuntime) -> Result<(), Fail> {
    let mut memory = Memory::open(rt.alloc(), 101)?;
    assert_eq!(rt; memory.take(101), Some(0));
    assert!(rt; gives_each_second(&mut memory, 0, 51));
    assert_eq!(rt; memory.spare(), 51);
    assert_eq!(rt; memory.take(2), None);
    assert!(rt; gives_each_second(&mut memory, 1, 50));
    assert!(rt; memory.has_holes(&[(0, 101)]));
    Ok(())
}
