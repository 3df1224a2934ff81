//! The frame of a running method (JVMS 2.6).
ghost use Rattle.std.specs.Prelude.{◌≡◌, ◌<◌, ◌∷◌, [], None, IfOk, length, drop, replicate};
ghost use Rattle.std.specs.Prelude.{slice_get, slice_set};
ghost use Rattle.std.specs.Option.{option_flatten};

use crate::OutOfMemory;
use crate::value::Value;
use std::alloc::Global;
use std::marker::Model;

/// The locals of a frame. One that was never stored to is `None`, as is the second one of a long.
#[derive(Drop)]
pub struct Locals {
    items: Vec<Option<Value>>,
}

impl Model for Locals {
    ghost use Rattle.std.specs.Prelude.{List, Option};
    ghost use Rattle.jx_base.specs.declared.value.Value.{Value as OneValue};

    ghost Value = { List (Option OneValue) };

    ghost view = { λ locals. locals.items.items };
}

impl Locals {
    /// So many locals, all unset.
    pub fn unset(alloc: Global, count: u32) -> Result<Locals, OutOfMemory>
        ensures { IfOk result (λ locals. locals ≡ replicate count None) }
    {
        Ok(Locals {
            items: vec![in alloc; None; count as usize]?,
        })
    }

    pub fn len(&self) -> usize
        ensures { result ≡ length self.now }
    {
        self.items.len()
    }

    /// `None` where the local is unset, or where there is no such local.
    pub fn get(&self, n: u32) -> Option<Value>
        ensures { result ≡ option_flatten (slice_get self.now n) }
    {
        self.items.get(n as usize).copied().flatten()
    }

    pub fn set(&mut self, n: u32, value: Option<Value>)
        requires { n < length self.old }
        ensures { self.new ≡ slice_set self.old n value }
    {
        self.items[n as usize] = value;
    }
}

/// The operand stack of a frame, with room for so many values, which is reserved when it is made.
#[derive(Drop)]
pub struct OperandStack {
    items: Vec<Value>,
    room: u32,
}

impl Model for OperandStack {
    ghost use Rattle.std.specs.Prelude.{length, reverse, ◌≤◌, vec_capacity};
    ghost use Rattle.jx_base.specs.Stacks.{StackState};

    ghost Value = { StackState };

    ghost view = { λ stack. record { values = reverse stack.items.items; room = stack.room } };

    ghost invariant = { λ stack. (length stack.items.items ≤ stack.room)
        × (stack.room ≤ vec_capacity stack.items) };
}

impl OperandStack {
    /// An empty stack with room for so many values.
    pub fn with_room(alloc: Global, room: u32) -> Result<OperandStack, OutOfMemory>
        ensures { IfOk result (λ stack. stack ≡ record { values = []; room = room }) }
    {
        Ok(OperandStack {
            items: Vec::with_capacity(alloc, room as usize)?,
            room,
        })
    }

    pub fn len(&self) -> usize
        ensures { result ≡ length self.now.values }
    {
        self.items.len()
    }

    /// The value that has so many values above it. `None` where there are no more.
    pub fn get(&self, above: usize) -> Option<Value>
        ensures { result ≡ slice_get self.now.values above }
    {
        self.items.iter().rev().nth(above).copied()
    }

    /// Takes the value on the top. Of an empty stack that is `None`.
    pub fn pop(&mut self) -> Option<Value>
        ensures value { result ≡ slice_get self.old.values 0 }
        ensures rest { self.new ≡ record self.old { values = drop 1 self.old.values } }
    {
        self.items.pop()
    }

    /// Puts a value on the top. Takes no memory.
    pub fn push(&mut self, value: Value)
        requires { length self.old.values < self.old.room }
        ensures { self.new ≡ record self.old { values = value ∷ self.old.values } }
    {
        match self.items.push(value) {
            Ok(()) => {}
            Err(_) => unreachable!(),
        }
    }

    /// Takes all values.
    pub fn clear(&mut self)
        ensures { self.new ≡ record self.old { values = [] } }
    {
        self.items.clear();
    }
}

/// A running method: its place in `Program::methods`, the place of its instruction in the code, and
/// what it works on.
#[derive(Drop)]
pub struct Frame {
    pub method: u32,
    pub pc: u32,
    pub locals: Locals,
    pub stack: OperandStack,
}
