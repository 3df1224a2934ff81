//! Lines by their kind, and which may stand behind which.
ghost use Rattle.std.specs.Prelude.{◌≡◌, ◌||◌, ◌∷◌, List, option_map};
ghost use Rattle.asm_lines.specs.declared.line.Line.{Line as SomeLine};
ghost use Rattle.asm_bodies.specs.Bodies.{goes_on};
ghost use Rattle.asm_bodies.specs.Lines.{is_class, is_implements, is_field, is_method, is_step};
ghost use Rattle.asm_bodies.specs.Lines.{is_catch, is_member};
ghost use Rattle.asm_checks.specs.Faults.{may_follow, may_come_next, is_complete, is_inside};
ghost use Rattle.asm_checks.specs.Faults.{is_skipped, last_said, own_fault};

use asm_lines::{AsmKind, Line};

#[tactic(auto, unfolding(asm_bodies::specs::Lines::is_class))]
fn is_class(line: &Line) -> bool
    ensures { result ≡ is_class line.now }
{
    matches!(line, Line::Class { .. })
}

#[tactic(auto, unfolding(asm_bodies::specs::Lines::is_implements))]
pub fn is_implements(line: &Line) -> bool
    ensures { result ≡ is_implements line.now }
{
    matches!(line, Line::Implements(_))
}

#[tactic(auto, unfolding(asm_bodies::specs::Lines::is_field))]
pub fn is_field(line: &Line) -> bool
    ensures { result ≡ is_field line.now }
{
    matches!(line, Line::Field(_))
}

#[tactic(auto, unfolding(asm_bodies::specs::Lines::is_method))]
pub fn is_method(line: &Line) -> bool
    ensures { result ≡ is_method line.now }
{
    matches!(line, Line::Method(..))
}

/// Whether a body goes on behind the line.
#[tactic(auto, unfolding(asm_bodies::specs::Bodies::goes_on))]
pub fn goes_on(line: &Line) -> bool
    ensures { result ≡ goes_on line.now }
{
    matches!(
        line,
        Line::Skipped | Line::Label(_) | Line::Instruction(_) | Line::Catch(_)
    )
}

#[tactic(auto, unfolding(asm_bodies::specs::Lines::is_member, asm_bodies::specs::Lines::is_abstract, asm_bodies::specs::Lines::is_method))]
pub fn is_member(line: &Line) -> bool
    ensures { result ≡ is_member line.now }
{
    matches!(line, Line::Abstract(_) | Line::Method(..))
}

#[tactic(auto, unfolding(asm_bodies::specs::Lines::is_catch))]
pub fn is_catch(line: &Line) -> bool
    ensures { result ≡ is_catch line.now }
{
    matches!(line, Line::Catch(_))
}

#[tactic(auto, unfolding(crate::specs::Faults::is_skipped))]
pub fn is_skipped(line: &Line) -> bool
    ensures { result ≡ is_skipped line.now }
{
    matches!(line, Line::Skipped)
}

/// The fault of a line of its own.
#[tactic(auto, unfolding(crate::specs::Faults::own_fault))]
pub fn own_fault(line: &Line) -> Option<AsmKind>
    ensures { result ≡ own_fault line.now }
{
    match line {
        Line::Faulty { kind, .. } => Some(*kind),
        _ => None,
    }
}

// Whether the line begins a body or is code.
#[tactic(auto, unfolding(asm_bodies::specs::Lines::is_method, asm_bodies::specs::Lines::is_step))]
fn leads_to_code(line: &Line) -> bool
    ensures { result ≡ (is_method line.now || is_step line.now) }
{
    matches!(
        line,
        Line::Method(..) | Line::Label(_) | Line::Instruction(_)
    )
}

// Whether the line stands inside a body.
#[tactic(auto, unfolding(crate::specs::Faults::is_inside))]
fn is_inside(line: &Line) -> bool
    ensures { result ≡ is_inside line.now }
{
    leads_to_code(line) || is_catch(line)
}

// Whether a line may stand behind that one.
#[tactic(auto, unfolding(crate::specs::Faults::may_follow))]
fn may_follow(before: &Line, line: &Line) -> bool
    ensures { result ≡ may_follow before.now line.now }
{
    match line {
        Line::Implements(_) => is_class(before) || is_implements(before),
        Line::Field(_) => is_class(before) || is_implements(before) || is_field(before),
        Line::Abstract(_) | Line::Method(..) => !is_inside(before),
        Line::Label(_) | Line::Instruction(_) => leads_to_code(before),
        Line::Catch(_) | Line::End => is_inside(before),
        Line::Skipped | Line::Class { .. } | Line::Faulty { .. } => false,
    }
}

/// Whether a line may come next behind the last one that isn't skipped.
#[tactic(auto, unfolding(crate::specs::Faults::may_come_next))]
pub fn may_come_next(last: Option<&Line>, line: &Line) -> bool
    ensures { result ≡ may_come_next (option_map (λ l. l.now) last.entry) line.now }
{
    match last {
        Some(before) => may_follow(before, line),
        None => is_class(line),
    }
}

/// Whether nothing needs to come behind the last line that isn't skipped.
#[tactic(auto, unfolding(crate::specs::Faults::is_complete))]
pub fn is_complete(last: Option<&Line>) -> bool
    ensures { result ≡ is_complete (option_map (λ l. l.now) last.entry) }
{
    match last {
        Some(line) => !is_inside(line),
        None => false,
    }
}

/// The last line that isn't skipped, with one more line.
#[tactic(auto, unfolding(crate::specs::Faults::last_said))]
pub fn last_behind<'a>(last: Option<&'a Line>, line: &'a Line) -> Option<&'a Line>
    ensures { (past : List SomeLine) → option_map (λ l. l.now) last.entry ≡ last_said past
        → option_map (λ l. l.now) result ≡ last_said (line.now ∷ past) }
{
    if is_skipped(line) { last } else { Some(line) }
}
