//! What is kept of a body while its lines are checked.
ghost use Rattle.std.specs.Prelude.{◌≡◌, ◌∷◌, ◌++◌, ◌||◌, [], ℕ, List, true, IfOk};
ghost use Rattle.std.specs.HashSet.{contains};
ghost use Rattle.std.specs.Str.{bytes_eq};
ghost use Rattle.asm_lines.specs.declared.line.Line.{Line as SomeLine};
ghost use Rattle.asm_bodies.specs.Bodies.{goes_on, has_label, is_label};
ghost use Rattle.asm_checks.specs.Following.{IsBodyOf};

use crate::counts::counted;
use crate::follows::is_catch;
use asm_bodies::{body_of, line_length, sum};
use asm_lines::Line;
use jx_base::{OutOfMemory, Text};
use std::alloc::Global;
use std::collections::HashSet;

/// The body so far: its pc, its catches, its labels, and the labels that it has up to its end.
#[derive(Drop)]
pub struct Body {
    pub pc: usize,
    pub catches: usize,
    pub seen: HashSet<Text>,
    pub whole: HashSet<Text>,
}

// The labels with that of the line, if it is one.
#[tactic(auto, unfolding(asm_bodies::specs::Bodies::is_label))]
fn with_label(
    alloc: Global,
    labels: HashSet<Text>,
    line: &Line,
) -> Result<HashSet<Text>, OutOfMemory>
    ensures { IfOk result (λ new. (name : List ℕ)
        → contains bytes_eq new name ≡ (contains bytes_eq labels name || is_label name line.now)) }
{
    let mut labels = labels;
    if let Line::Label(name) = line {
        labels.insert(name.copy(alloc)?)?;
    }
    Ok(labels)
}

// The labels of a body.
fn labels_of(alloc: Global, body: &[Line]) -> Result<HashSet<Text>, OutOfMemory>
    ensures { IfOk result (λ labels. (name : List ℕ)
        → contains bytes_eq labels name ≡ has_label name body.now) }
{
    let mut labels = HashSet::new(alloc);
    for line in body {
        labels = with_label(alloc, labels, line)?;
    }
    Ok(labels)
}

impl Body {
    /// A body with nothing in it yet, before those lines.
    pub fn open(alloc: Global, after: &[Line]) -> Result<Body, OutOfMemory>
        ensures { IfOk result (λ body. IsBodyOf body [] after.now) }
    {
        let whole = labels_of(alloc, body_of(after))?;
        Ok(Body {
            pc: 0,
            catches: 0,
            seen: HashSet::new(alloc),
            whole,
        })
    }

    /// The body with one more line.
    pub fn with_line(self, alloc: Global, line: &Line) -> Result<Body, OutOfMemory>
        ensures { IfOk result (λ body. (lines after : List SomeLine)
            → IsBodyOf self lines (line.now ∷ after) → goes_on line.now ≡ true
            → IsBodyOf body (lines ++ line.now ∷ []) after) }
    {
        let Body {
            pc,
            catches,
            seen,
            whole,
        } = self;
        let pc = sum(pc, line_length(pc, line)?)?;
        let catches = counted(catches, is_catch(line))?;
        let seen = with_label(alloc, seen, line)?;
        Ok(Body {
            pc,
            catches,
            seen,
            whole,
        })
    }
}
