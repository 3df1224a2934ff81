//! Constants that are named by index (JVMS 4.4), and attributes that are passed over (JVMS 4.7).
ghost use Rattle.std.specs.Prelude.{◌≡◌, ◌≤◌, [], length, IfOk, codes};
ghost use Rattle.std.specs.Str.{bytes_eq};
ghost use Rattle.jx_base.specs.Answers.{Gives};
ghost use Rattle.class_grammar.specs.Parts.{repeated};
ghost use Rattle.class_grammar.specs.Members.{is_code_name, name_part, class_index};
ghost use Rattle.class_grammar.specs.Members.{skipped_attribute, skipped_attributes};

use crate::error::{ReadFault, bad, cut_off};
use class_grammar::{bytes_at, names_class, place, text_at, u16_at, u32_at};
use jx_base::{ClassFault, ClassKind, Constant};

/// An index of a text, and the text.
#[tactic(auto, unfolding(class_grammar::specs::Members::name_part))]
pub fn name_at<'c, 'b>(
    size: u32,
    cut: ClassFault,
    constants: &'c [Constant],
    bytes: &'b [u8],
) -> Result<(&'c [u16], &'b [u8]), ReadFault>
    requires { length bytes.now ≤ size }
    ensures read { Gives (λ x. (x.0.now, x.1.now)) result
        ((name_part size cut constants.now).reads bytes.now) }
    ensures shorter { IfOk result (λ x. length x.1.now ≤ length bytes.now) }
{
    let at = place(size, bytes);
    let (index, rest) = u16_at(cut, bytes)?;
    match text_at(constants, index) {
        Some(text) => Ok((text, rest)),
        None => Err(bad(at, ClassKind::Index)),
    }
}

/// An index of a class.
#[tactic(auto, unfolding(class_grammar::specs::Members::class_index))]
pub fn class_index_at<'b>(
    size: u32,
    constants: &[Constant],
    bytes: &'b [u8],
) -> Result<(u16, &'b [u8]), ReadFault>
    requires { length bytes.now ≤ size }
    ensures read { Gives (λ x. (x.0, x.1.now)) result
        ((class_index size constants.now).reads bytes.now) }
    ensures shorter { IfOk result (λ x. length x.1.now ≤ length bytes.now) }
{
    let at = place(size, bytes);
    let (index, rest) = u16_at(cut_off(size), bytes)?;
    if !names_class(constants, index) {
        return Err(bad(at, ClassKind::Index));
    }
    Ok((index, rest))
}

#[tactic(auto, unfolding(class_grammar::specs::Members::skipped_attribute))]
fn skip_attribute<'b>(
    size: u32,
    cut: ClassFault,
    constants: &[Constant],
    bytes: &'b [u8],
) -> Result<&'b [u8], ReadFault>
    requires { length bytes.now ≤ size }
    ensures read { Gives (λ x. ([], x.now)) result
        ((skipped_attribute size cut constants.now).reads bytes.now) }
    ensures shorter { IfOk result (λ x. length x.now ≤ length bytes.now) }
{
    let (_, rest) = name_at(size, cut, constants, bytes)?;
    let (n, rest) = u32_at(cut, rest)?;
    let (_, rest) = bytes_at(cut, n as usize, rest)?;
    Ok(rest)
}

/// Passes over attributes, with their number in front.
#[tactic(auto, unfolding(class_grammar::specs::Members::skipped_attributes))]
pub fn skip_attributes<'b>(
    size: u32,
    cut: ClassFault,
    constants: &[Constant],
    bytes: &'b [u8],
) -> Result<&'b [u8], ReadFault>
    requires { length bytes.now ≤ size }
    ensures read { Gives (λ x. ([], x.now)) result
        ((skipped_attributes size cut constants.now).reads bytes.now) }
    ensures shorter { IfOk result (λ x. length x.now ≤ length bytes.now) }
{
    let (count, rest) = u16_at(cut, bytes)?;
    skip_so_many(size, cut, constants, count, rest)
}

#[tactic(auto, using(crate::proofs::Fronts::fronts))]
fn skip_so_many<'b>(
    size: u32,
    cut: ClassFault,
    constants: &[Constant],
    count: u16,
    bytes: &'b [u8],
) -> Result<&'b [u8], ReadFault>
    requires { length bytes.now ≤ size }
    ensures read { Gives (λ x. ([], x.now)) result
        ((repeated count (skipped_attribute size cut constants.now)).reads bytes.now) }
    ensures shorter { IfOk result (λ x. length x.now ≤ length bytes.now) }
{
    let mut rest = bytes;
    for _ in 0..count {
        rest = skip_attribute(size, cut, constants, rest)?;
    }
    Ok(rest)
}

/// Whether a name is `Code`.
#[tactic(auto, unfolding(class_grammar::specs::Members::is_code_name))]
pub fn is_code(name: &[u16]) -> bool
    ensures { result ≡ is_code_name name.now }
{
    name == CODE.as_slice()
}

/// Whether a name is that of a class's initialiser.
pub fn is_initialiser(name: &[u16]) -> bool
    ensures { result ≡ bytes_eq name.now (codes "<clinit>") }
{
    name == INITIALISER.as_slice()
}

static CODE: [u16; 4] = [0x43, 0x6f, 0x64, 0x65];

static INITIALISER: [u16; 8] = [0x3c, 0x63, 0x6c, 0x69, 0x6e, 0x69, 0x74, 0x3e];
