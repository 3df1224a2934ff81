//! How many lines are of a kind.
ghost use Rattle.std.specs.Prelude.{◌≡◌};
ghost use Rattle.asm_bodies.specs.Lines.{count_of, is_catch, is_field, is_implements, is_member};

use asm_lines::Line;

#[tactic(auto, unfolding(asm_bodies::specs::Lines::is_catch))]
fn is_catch(line: &Line) -> bool
    ensures { result ≡ is_catch line.now }
{
    matches!(line, Line::Catch(_))
}

#[tactic(auto, unfolding(asm_bodies::specs::Lines::is_field))]
fn is_field(line: &Line) -> bool
    ensures { result ≡ is_field line.now }
{
    matches!(line, Line::Field(_))
}

#[tactic(auto, unfolding(asm_bodies::specs::Lines::is_implements))]
fn is_implements(line: &Line) -> bool
    ensures { result ≡ is_implements line.now }
{
    matches!(line, Line::Implements(_))
}

#[tactic(auto, unfolding(asm_bodies::specs::Lines::is_member, asm_bodies::specs::Lines::is_abstract, asm_bodies::specs::Lines::is_method))]
fn is_member(line: &Line) -> bool
    ensures { result ≡ is_member line.now }
{
    matches!(line, Line::Abstract(_) | Line::Method(..))
}

/// How many entries the exception table of a body has.
pub fn catch_count(body: &[Line]) -> usize
    ensures { result ≡ count_of is_catch body.now }
{
    body.iter().filter(|line| is_catch(line)).count()
}

/// How many interfaces the class has.
pub fn interface_count(lines: &[Line]) -> usize
    ensures { result ≡ count_of is_implements lines.now }
{
    lines.iter().filter(|line| is_implements(line)).count()
}

/// How many fields the class has.
pub fn field_count(lines: &[Line]) -> usize
    ensures { result ≡ count_of is_field lines.now }
{
    lines.iter().filter(|line| is_field(line)).count()
}

/// How many methods the class has, with the abstract ones.
pub fn method_count(lines: &[Line]) -> usize
    ensures { result ≡ count_of is_member lines.now }
{
    lines.iter().filter(|line| is_member(line)).count()
}
