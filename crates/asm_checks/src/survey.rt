//! The first line that has a fault where it stands.
ghost use Rattle.std.specs.Prelude.{◌≡◌, List, [], ◌∷◌, IfOk, None};
ghost use Rattle.asm_bodies.specs.Bodies.{open_body, pc_behind};
ghost use Rattle.asm_bodies.specs.Lines.{count_of, is_catch};
ghost use Rattle.asm_checks.specs.Faults.{kind_at, is_in_place, is_lost, is_over, is_twice};
ghost use Rattle.asm_checks.specs.Faults.{own_fault, body_behind, counts_after};
ghost use Rattle.asm_checks.specs.Following.{Follows, FollowsBody, IsChecked};
ghost use Rattle.asm_lines.specs.declared.line.Line.{Line as SomeLine};
ghost use Rattle.asm_bodies.specs.Needs.{pool_of};

use crate::body::Body;
use crate::counts::{Counts, counted, is_too_much};
use crate::follows::{
    goes_on, is_complete, is_field, is_implements, is_member, is_method, is_skipped, last_behind,
    may_come_next, own_fault,
};
use crate::needs::add_needed;
use crate::operands::{has_index_over, uses_only};
use asm_constants::Pool;
use asm_lines::{AsmKind, Line};
use jx_base::OutOfMemory;
use std::alloc::Global;
use std::collections::HashSet;

/// What lines are: without a fault where they stand, with the constants that they need, or with a
/// first fault, at the line behind so many.
#[derive(Drop)]
pub enum Checked {
    Sound(Pool),
    Faulty(usize, AsmKind),
}

// The body that is open behind the line, before those others.
fn body_behind(
    body: Option<Body>,
    alloc: Global,
    line: &Line,
    after: &[Line],
) -> Result<Option<Body>, OutOfMemory>
    ensures { IfOk result (λ next. (past : List SomeLine)
        → FollowsBody body (open_body past) (line.now ∷ after.now)
        → FollowsBody next (open_body (line.now ∷ past)) after.now) }
{
    if is_method(line) {
        return Ok(Some(Body::open(alloc, after)?));
    }
    match body {
        Some(body) => {
            if goes_on(line) {
                Ok(Some(body.with_line(alloc, line)?))
            } else {
                Ok(None)
            }
        }
        None => Ok(None),
    }
}

/// What is kept of the lines so far, beside the constants.
#[derive(Drop)]
pub struct Survey<'a> {
    pub last: Option<&'a Line>,
    pub body: Option<Body>,
    pub interfaces: usize,
    pub fields: usize,
    pub members: usize,
}

impl<'a> Survey<'a> {
    fn new() -> Survey<'a>
        ensures { (after : List SomeLine) → Follows result [] after }
    {
        Survey {
            last: None,
            body: None,
            interfaces: 0,
            fields: 0,
            members: 0,
        }
    }

    // Whether the line uses a label that isn't there.
    fn is_lost(&self, alloc: Global, line: &Line) -> bool
        ensures { (past after : List SomeLine) → Follows self.now past (line.now ∷ after)
            → result ≡ is_lost past line.now after }
    {
        match &self.body {
            Some(body) => !uses_only(&body.whole, line),
            None => !uses_only(&HashSet::new(alloc), line),
        }
    }

    // Whether the line is a label that the open body has.
    fn is_twice(&self, line: &Line) -> bool
        ensures { (past after : List SomeLine) → Follows self.now past after
            → result ≡ is_twice past line.now }
    {
        match line {
            Line::Label(name) => match &self.body {
                Some(body) => body.seen.contains(name),
                None => false,
            },
            _ => false,
        }
    }

    fn is_in_place(&self, line: &Line) -> bool
        ensures { (past after : List SomeLine) → Follows self.now past after
            → result ≡ is_in_place past line.now }
    {
        is_skipped(line) || may_come_next(self.last, line)
    }

    fn pc(&self) -> usize
        ensures { (past after : List SomeLine) → Follows self.now past after
            → result ≡ pc_behind 0 (body_behind past) }
    {
        match &self.body {
            Some(body) => body.pc,
            None => 0,
        }
    }

    fn catches(&self) -> usize
        ensures { (past after : List SomeLine) → Follows self.now past after
            → result ≡ count_of is_catch (body_behind past) }
    {
        match &self.body {
            Some(body) => body.catches,
            None => 0,
        }
    }

    fn counts(&self) -> Counts
        ensures { (past after : List SomeLine) → Follows self.now past after
            → result ≡ counts_after past }
    {
        Counts {
            pc: self.pc(),
            catches: self.catches(),
            interfaces: self.interfaces,
            fields: self.fields,
            members: self.members,
        }
    }

    // Whether the line goes past a limit.
    fn is_over(&self, pool: &Pool, line: &Line) -> Result<bool, OutOfMemory>
        ensures { IfOk result (λ over. (past after : List SomeLine) → Follows self.now past after
            → pool.now ≡ pool_of (line.now ∷ past) → over ≡ is_over past line.now) }
    {
        Ok(!pool.fits() | is_too_much(self.counts(), line)?)
    }

    // The fault of the line, which has none of its own, by the order of the kinds.
    fn fault_of_place(
        &self,
        alloc: Global,
        pool: &Pool,
        line: &Line,
    ) -> Result<Option<AsmKind>, OutOfMemory>
        requires { own_fault line.now ≡ None }
        ensures { IfOk result (λ kind. (past after : List SomeLine)
            → Follows self.now past (line.now ∷ after) → pool.now ≡ pool_of (line.now ∷ past)
            → kind ≡ kind_at past line.now after) }
    {
        if has_index_over(pool, line) {
            Ok(Some(AsmKind::Operand))
        } else if self.is_lost(alloc, line) {
            Ok(Some(AsmKind::Label))
        } else if self.is_twice(line) {
            Ok(Some(AsmKind::Twice))
        } else if !self.is_in_place(line) {
            Ok(Some(AsmKind::Place))
        } else if self.is_over(pool, line)? {
            Ok(Some(AsmKind::Limit))
        } else {
            Ok(None)
        }
    }

    // The fault of the line, with the constants up to it.
    fn fault_at(
        &self,
        alloc: Global,
        pool: &Pool,
        line: &Line,
    ) -> Result<Option<AsmKind>, OutOfMemory>
        ensures { IfOk result (λ kind. (past after : List SomeLine)
            → Follows self.now past (line.now ∷ after) → pool.now ≡ pool_of (line.now ∷ past)
            → kind ≡ kind_at past line.now after) }
    {
        match own_fault(line) {
            Some(kind) => Ok(Some(kind)),
            None => self.fault_of_place(alloc, pool, line),
        }
    }

    // Goes on behind the line, which stands before those others.
    fn with_line(
        self,
        alloc: Global,
        line: &'a Line,
        after: &[Line],
    ) -> Result<Survey<'a>, OutOfMemory>
        ensures { IfOk result (λ next. (past : List SomeLine)
            → Follows self.entry past (line.now ∷ after.now)
            → Follows next (line.now ∷ past) after.now) }
    {
        let Survey {
            last,
            body,
            interfaces,
            fields,
            members,
        } = self;
        let body = body_behind(body, alloc, line, after)?;
        let interfaces = counted(interfaces, is_implements(line))?;
        let fields = counted(fields, is_field(line))?;
        let members = counted(members, is_member(line))?;
        Ok(Survey {
            last: last_behind(last, line),
            body,
            interfaces,
            fields,
            members,
        })
    }
}

/// Checks lines up to the first that has a fault where it stands.
pub fn check(alloc: Global, lines: &[Line]) -> Result<Checked, OutOfMemory>
    ensures { IfOk result (IsChecked lines.now) }
{
    let mut pool = Pool::new(alloc);
    let mut survey = Survey::new();
    for (i, line) in lines.iter().enumerate() {
        add_needed(&mut pool, alloc, line)?;
        match survey.fault_at(alloc, &pool, line)? {
            Some(kind) => return Ok(Checked::Faulty(i, kind)),
            None => survey = survey.with_line(alloc, line, &lines[i + 1..])?,
        }
    }
    if is_complete(survey.last) {
        Ok(Checked::Sound(pool))
    } else {
        Ok(Checked::Faulty(lines.len(), AsmKind::Place))
    }
}
