//! How many slots a stack fills (JVMS 2.6.2).
ghost use Rattle.std.specs.Prelude.{◌≡◌, ◌+◌, ◌≤◌, ◌<◌, [], ◌++◌, take, length};
ghost use Rattle.machine_model.specs.NumericRows.{depth_of};

use crate::values::slots_of;
use jx_base::{OperandStack, Value};

// How many values are taken off at once. A stack is read from its top alone, so they are kept in a
// call while those below are counted; a run for each call keeps few calls on one another.
const RUN: usize = 16;

// Takes values off into the run until it is full or the stack is empty. How many there are.
fn take_run(stack: &mut OperandStack, run: &mut [Value]) -> usize
    ensures within { result ≤ length run.old }
    ensures size { length run.new ≡ length run.old }
    ensures values { take result run.new ++ stack.new.values ≡ stack.old.values }
    ensures room { stack.new.room ≡ stack.old.room }
    ensures all { result < length run.old → stack.new.values ≡ [] }
{
    let mut count = 0;
    while count < run.len() {
        let Some(value) = stack.pop() else {
            return count;
        };
        run[count] = value;
        count += 1;
    }
    count
}

// Puts the values of a run back, the first one on the top.
fn put_run(stack: &mut OperandStack, run: &[Value])
    requires { length run.now + length stack.old.values ≤ stack.old.room }
    ensures values { stack.new.values ≡ run.now ++ stack.old.values }
    ensures room { stack.new.room ≡ stack.old.room }
{
    let mut count = run.len();
    while count > 0 {
        count -= 1;
        stack.push(run[count]);
    }
}

// How many slots are left of so many by the values of a run.
#[tactic(auto, unfolding(machine_model::specs::NumericRows::depth_of))]
fn left_by_run(run: &[Value], most: u32) -> u32
    requires { depth_of run.now ≤ most }
    ensures { depth_of run.now + result ≡ most }
{
    let mut left = most;
    for value in run {
        left -= slots_of(*value);
    }
    left
}

/// How many slots are left of so many by the values of a stack, which is as it was.
pub fn slots_left(stack: &mut OperandStack, most: u32) -> u32
    requires depth { depth_of stack.old.values ≤ most }
    requires room { most ≤ stack.old.room }
    ensures left { depth_of stack.old.values + result ≡ most }
    ensures same { stack.new ≡ stack.old }
{
    let mut run = [Value::Null; RUN];
    let count = take_run(stack, &mut run);
    let mut left = left_by_run(&run[..count], most);
    if count == RUN {
        left = slots_left(stack, left);
    }
    put_run(stack, &run[..count]);
    left
}
