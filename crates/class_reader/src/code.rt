//! The Code of a method (JVMS 4.7.3). Within it `size` is the place of the attribute's end, and
//! each fault of its own lengths is `cut`.
ghost use Rattle.std.specs.Prelude.{◌≡◌, ◌≤◌, ◌+◌, ◌<◌, ◌^◌, [], ◌∷◌, length, IfOk};
ghost use Rattle.jx_base.specs.Answers.{Gives};
ghost use Rattle.class_grammar.specs.Parts.{repeated};
ghost use Rattle.class_grammar.specs.Members.{catches_class, range_part, code_part, code_body};

use crate::error::{ReadFault, bad, class_fault};
use crate::names::skip_attributes;
use class_grammar::{bytes_at, names_class, place, u16_at, u32_at};
use jx_base::{ClassFault, ClassKind, Code, Constant, Listed, Range};
use std::alloc::Global;

#[tactic(auto, unfolding(class_grammar::specs::Members::catches_class))]
fn is_caught(constants: &[Constant], index: u16) -> bool
    ensures { result ≡ catches_class constants.now index }
{
    index == 0 || names_class(constants, index)
}

#[tactic(auto, unfolding(class_grammar::specs::Members::range_part))]
fn range_at<'b>(
    size: u32,
    cut: ClassFault,
    constants: &[Constant],
    bytes: &'b [u8],
) -> Result<(Range, &'b [u8]), ReadFault>
    requires { length bytes.now ≤ size }
    ensures read { Gives (λ x. (x.0 ∷ [], x.1.now)) result
        ((range_part size cut constants.now).reads bytes.now) }
    ensures shorter { IfOk result (λ x. length x.1.now ≤ length bytes.now) }
{
    let (start, rest) = u16_at(cut, bytes)?;
    let (end, rest) = u16_at(cut, rest)?;
    let (handler, rest) = u16_at(cut, rest)?;
    let at = place(size, rest);
    let (catch_type, rest) = u16_at(cut, rest)?;
    if !is_caught(constants, catch_type) {
        return Err(bad(at, ClassKind::Index));
    }
    let range = Range {
        start: u32::from(start),
        end: u32::from(end),
        handler: u32::from(handler),
        catch_type: u32::from(catch_type),
    };
    Ok((range, rest))
}

#[tactic(auto, using(crate::proofs::Fronts::fronts))]
fn ranges_at<'b>(
    alloc: Global,
    size: u32,
    cut: ClassFault,
    constants: &[Constant],
    count: u16,
    bytes: &'b [u8],
) -> Result<(Listed<Range>, &'b [u8]), ReadFault>
    requires { length bytes.now ≤ size }
    ensures read { Gives (λ x. (x.0, x.1.now)) result
        ((repeated count (range_part size cut constants.now)).reads bytes.now) }
    ensures shorter { IfOk result (λ x. length x.1.now ≤ length bytes.now) }
{
    let mut ranges = Vec::with_capacity(alloc, count as usize)?;
    let mut rest = bytes;
    for _ in 0..count {
        let (range, after) = range_at(size, cut, constants, rest)?;
        ranges.push(range)?;
        rest = after;
    }
    Ok((Listed::from_vec(ranges), rest))
}

#[tactic(auto, unfolding(class_grammar::specs::Members::code_part, class_grammar::specs::Members::table_part))]
fn code_at<'b>(
    alloc: Global,
    size: u32,
    cut: ClassFault,
    constants: &[Constant],
    bytes: &'b [u8],
) -> Result<(Code, &'b [u8]), ReadFault>
    requires { length bytes.now ≤ size }
    ensures read { Gives (λ x. (x.0, x.1.now)) result
        ((code_part size cut constants.now).reads bytes.now) }
{
    let (max_stack, rest) = u16_at(cut, bytes)?;
    let (max_locals, rest) = u16_at(cut, rest)?;
    let (n, rest) = u32_at(cut, rest)?;
    if n < 1 || n > 65535 {
        return Err(ReadFault::Bad(cut));
    }
    let at = place(size, rest);
    let (code, rest) = bytes_at(cut, n as usize, rest)?;
    let (count, rest) = u16_at(cut, rest)?;
    let (table, rest) = ranges_at(alloc, size, cut, constants, count, rest)?;
    let rest = skip_attributes(size, cut, constants, rest)?;
    let code = Code {
        max_stack: u32::from(max_stack),
        max_locals: u32::from(max_locals),
        at,
        code: Listed::from_vec(Vec::from_slice(alloc, code)?),
        table,
    };
    Ok((code, rest))
}

/// A Code that takes up `n` bytes; `at` is the place of its attribute.
#[tactic(auto, unfolding(class_grammar::specs::Members::code_body))]
pub fn code_body_at<'b>(
    alloc: Global,
    size: u32,
    at: u32,
    constants: &[Constant],
    n: u32,
    bytes: &'b [u8],
) -> Result<(Code, &'b [u8]), ReadFault>
    requires fits { length bytes.now ≤ size }
    requires room { n ≤ length bytes.now }
    ensures read { Gives (λ x. (x.0, x.1.now)) result
        ((code_body size at constants.now n).reads bytes.now) }
    ensures shorter { IfOk result (λ x. length x.1.now ≤ length bytes.now) }
{
    let end = place(size, bytes) + n;
    let cut = class_fault(at, ClassKind::Code);
    let (inside, rest) = bytes.split_at(n as usize);
    let (code, more) = code_at(alloc, end, cut, constants, inside)?;
    if !more.is_empty() {
        return Err(ReadFault::Bad(cut));
    }
    Ok((code, rest))
}
