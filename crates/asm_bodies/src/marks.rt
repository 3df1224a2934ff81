//! The labels of a body.
ghost use Rattle.std.specs.Prelude.{◌≡◌, ◌≤◌, ℕ, List, [], ◌∷◌, ◌++◌, length, IfOk, OnOk};
ghost use Rattle.asm_bodies.specs.Bodies.{body_of, line_marks, marks_of, mark_of, ends};

use crate::lengths::{line_length, sum};
use asm_lines::Line;
use indexmap::IndexMap;
use jx_base::{OutOfMemory, Text};
use std::alloc::Global;
use std::marker::Model;

// Whether the first word of the line is `end`.
#[tactic(auto, unfolding(crate::specs::Bodies::ends))]
fn ends(line: &Line) -> bool
    ensures { result ≡ ends line.now }
{
    match line {
        Line::End => true,
        Line::Faulty { ends, .. } => *ends,
        _ => false,
    }
}

/// The lines up to the next one whose first word is `end`, or up to the last one.
pub fn body_of(lines: &[Line]) -> &[Line]
    ensures body { result.now ≡ body_of lines.now }
    ensures within { length result.now ≤ length lines.now }
{
    for (i, line) in lines.iter().enumerate() {
        if ends(line) {
            return &lines[..i];
        }
    }
    lines
}

/// The labels of a body and their pcs.
#[derive(Drop)]
pub struct Marks {
    pcs: IndexMap<Text, usize>,
}

impl Model for Marks {
    ghost use Rattle.std.specs.Prelude.{List, map};
    ghost use Rattle.asm_bodies.specs.Bodies.{Mark};

    ghost Value = { List Mark };

    ghost view = { λ marks. map
        (λ entry. record { name = entry.0; pc = entry.1 }) marks.pcs.entries };
}

impl Marks {
    fn new(alloc: Global) -> Marks
        ensures { result ≡ [] }
    {
        Marks {
            pcs: IndexMap::new(alloc),
        }
    }

    /// The pc of a label.
    pub fn pc_of(&self, name: &Text) -> Option<usize>
        ensures { result ≡ mark_of self.now name.now }
    {
        self.pcs.get(name).copied()
    }

    // Adds a label, unless one of that name is there.
    fn add(&mut self, alloc: Global, name: &Text, pc: usize) -> Result<(), OutOfMemory>
        ensures { OnOk result ((other : List ℕ)
            → mark_of self.new other
            ≡ mark_of (self.old ++ record { name = name.now; pc = pc } ∷ []) other) }
    {
        if self.pcs.contains_key(name) {
            return Ok(());
        }
        let name = name.copy(alloc)?;
        self.pcs.insert(name, pc)?;
        Ok(())
    }

    // Adds the label that the line at `pc` says, if it says one.
    fn add_line(&mut self, alloc: Global, line: &Line, pc: usize) -> Result<(), OutOfMemory>
        ensures { OnOk result ((other : List ℕ)
            → mark_of self.new other ≡ mark_of (self.old ++ line_marks pc line.now) other) }
    {
        match line {
            Line::Label(name) => self.add(alloc, name, pc),
            _ => Ok(()),
        }
    }
}

/// The labels of a body. Of two labels with one name the first counts.
pub fn marks_of(alloc: Global, body: &[Line]) -> Result<Marks, OutOfMemory>
    ensures { IfOk result (λ marks. (name : List ℕ)
        → mark_of marks name ≡ mark_of (marks_of body.now) name) }
{
    let mut marks = Marks::new(alloc);
    let mut pc = 0;
    for line in body {
        marks.add_line(alloc, line, pc)?;
        pc = sum(pc, line_length(pc, line)?)?;
    }
    Ok(marks)
}
