//! Fields and methods (JVMS 4.5, 4.6).
ghost use Rattle.std.specs.Prelude.{◌≡◌, ◌≤◌, ◌<◌, ◌^◌, ◌&&◌, ◌||◌, [], ◌∷◌, None, not, length};
ghost use Rattle.std.specs.Prelude.{IfOk, codes};
ghost use Rattle.std.specs.Str.{bytes_eq};
ghost use Rattle.class_reader.specs.Attributes.{method_attribute};
ghost use Rattle.jx_base.specs.Answers.{Gives};
ghost use Rattle.class_grammar.specs.Flags.{is_abstract, is_native, is_synchronized};
ghost use Rattle.class_grammar.specs.Members.{field_part, method_attributes, method_part};
ghost use Rattle.class_grammar.specs.Parts.{repeated};

use crate::code::code_body_at;
use crate::error::{ReadFault, bad, cut_off};
use crate::names::{is_code, is_initialiser, name_at, skip_attributes};
use class_grammar::{bytes_at, is_abstract, is_native, is_synchronized, place, u16_at, u32_at};
use class_texts::{is_floating_field, is_floating_method};
use jx_base::{ClassKind, Code, Constant, Listed, Member, Text};
use std::alloc::Global;

// Whether the profile has such a method, apart from its types.
fn is_supported(interface: bool, flags: u16, name: &[u16]) -> bool
    ensures { result ≡ (not (is_native flags) && not (is_synchronized flags) &&
        (not interface || is_abstract flags || bytes_eq name.now (codes "<clinit>"))) }
{
    !is_native(flags)
        && !is_synchronized(flags)
        && (!interface || is_abstract(flags) || is_initialiser(name))
}

// A field, with its attributes passed over.
#[tactic(auto, unfolding(class_grammar::specs::Members::field_part))]
fn field_at<'b>(
    alloc: Global,
    size: u32,
    constants: &[Constant],
    bytes: &'b [u8],
) -> Result<(Member, &'b [u8]), ReadFault>
    requires { length bytes.now ≤ size }
    ensures read { Gives (λ x. (x.0 ∷ [], x.1.now)) result
        ((field_part size constants.now).reads bytes.now) }
    ensures shorter { IfOk result (λ x. length x.1.now ≤ length bytes.now) }
{
    let at = place(size, bytes);
    let (flags, rest) = u16_at(cut_off(size), bytes)?;
    let (name, rest) = name_at(size, cut_off(size), constants, rest)?;
    let descriptor_at = place(size, rest);
    let (descriptor, rest) = name_at(size, cut_off(size), constants, rest)?;
    let Some(floating) = is_floating_field(descriptor) else {
        return Err(bad(descriptor_at, ClassKind::Descriptor));
    };
    if floating {
        return Err(bad(at, ClassKind::Unsupported));
    }
    let rest = skip_attributes(size, cut_off(size), constants, rest)?;
    let field = Member {
        flags,
        name: Text::from_slice(alloc, name)?,
        descriptor: Text::from_slice(alloc, descriptor)?,
        code: None,
    };
    Ok((field, rest))
}

// An attribute of a method, and the code that was found so far.
#[tactic(auto, unfolding(crate::specs::Attributes::method_attribute))]
fn attribute_at<'b>(
    alloc: Global,
    size: u32,
    constants: &[Constant],
    may_have: bool,
    code: Option<Code>,
    bytes: &'b [u8],
) -> Result<(Option<Code>, &'b [u8]), ReadFault>
    requires { length bytes.now ≤ size }
    ensures read { Gives (λ x. (x.0, x.1.now)) result
        ((method_attribute size constants.now may_have code).reads bytes.now) }
    ensures shorter { IfOk result (λ x. length x.1.now ≤ length bytes.now) }
{
    let at = place(size, bytes);
    let (name, rest) = name_at(size, cut_off(size), constants, bytes)?;
    let (n, rest) = u32_at(cut_off(size), rest)?;
    if rest.len() < n as usize {
        return Err(ReadFault::Bad(cut_off(size)));
    }
    if !is_code(name) {
        let (_, rest) = bytes_at(cut_off(size), n as usize, rest)?;
        return Ok((code, rest));
    }
    if !may_have || code.is_some() {
        return Err(bad(at, ClassKind::Code));
    }
    let (found, rest) = code_body_at(alloc, size, at, constants, n, rest)?;
    Ok((Some(found), rest))
}

// A method's attributes, so many of them, and the code among them.
fn attributes_at<'b>(
    alloc: Global,
    size: u32,
    constants: &[Constant],
    may_have: bool,
    count: u16,
    bytes: &'b [u8],
) -> Result<(Option<Code>, &'b [u8]), ReadFault>
    requires { length bytes.now ≤ size }
    ensures read { Gives (λ x. (x.0, x.1.now)) result
        ((method_attributes size constants.now may_have count None).reads bytes.now) }
    ensures shorter { IfOk result (λ x. length x.1.now ≤ length bytes.now) }
{
    let mut code = None;
    let mut rest = bytes;
    for _ in 0..count {
        let (found, after) = attribute_at(alloc, size, constants, may_have, code, rest)?;
        code = found;
        rest = after;
    }
    Ok((code, rest))
}

// A method, with its code.
#[tactic(auto, unfolding(class_grammar::specs::Members::method_part, class_grammar::specs::Members::is_supported_method))]
fn method_at<'b>(
    alloc: Global,
    size: u32,
    constants: &[Constant],
    interface: bool,
    bytes: &'b [u8],
) -> Result<(Member, &'b [u8]), ReadFault>
    requires { length bytes.now ≤ size }
    ensures read { Gives (λ x. (x.0 ∷ [], x.1.now)) result
        ((method_part size constants.now interface).reads bytes.now) }
    ensures shorter { IfOk result (λ x. length x.1.now ≤ length bytes.now) }
{
    let at = place(size, bytes);
    let (flags, rest) = u16_at(cut_off(size), bytes)?;
    let (name, rest) = name_at(size, cut_off(size), constants, rest)?;
    let descriptor_at = place(size, rest);
    let (descriptor, rest) = name_at(size, cut_off(size), constants, rest)?;
    let Some(floating) = is_floating_method(descriptor) else {
        return Err(bad(descriptor_at, ClassKind::Descriptor));
    };
    if floating || !is_supported(interface, flags, name) {
        return Err(bad(at, ClassKind::Unsupported));
    }
    let (count, rest) = u16_at(cut_off(size), rest)?;
    let (code, rest) = attributes_at(alloc, size, constants, !is_abstract(flags), count, rest)?;
    if !is_abstract(flags) && code.is_none() {
        return Err(bad(at, ClassKind::Code));
    }
    let method = Member {
        flags,
        name: Text::from_slice(alloc, name)?,
        descriptor: Text::from_slice(alloc, descriptor)?,
        code,
    };
    Ok((method, rest))
}

/// So many fields.
#[tactic(auto, using(crate::proofs::Fronts::fronts))]
pub fn fields_at<'b>(
    alloc: Global,
    size: u32,
    constants: &[Constant],
    count: u16,
    bytes: &'b [u8],
) -> Result<(Listed<Member>, &'b [u8]), ReadFault>
    requires { length bytes.now ≤ size }
    ensures read { Gives (λ x. (x.0, x.1.now)) result
        ((repeated count (field_part size constants.now)).reads bytes.now) }
    ensures shorter { IfOk result (λ x. length x.1.now ≤ length bytes.now) }
{
    let mut fields = Vec::new(alloc);
    let mut rest = bytes;
    for _ in 0..count {
        let (field, after) = field_at(alloc, size, constants, rest)?;
        fields.push(field)?;
        rest = after;
    }
    Ok((Listed::from_vec(fields), rest))
}

/// So many methods.
#[tactic(auto, using(crate::proofs::Fronts::fronts))]
pub fn methods_at<'b>(
    alloc: Global,
    size: u32,
    constants: &[Constant],
    interface: bool,
    count: u16,
    bytes: &'b [u8],
) -> Result<(Listed<Member>, &'b [u8]), ReadFault>
    requires { length bytes.now ≤ size }
    ensures read { Gives (λ x. (x.0, x.1.now)) result
        ((repeated count (method_part size constants.now interface)).reads bytes.now) }
    ensures shorter { IfOk result (λ x. length x.1.now ≤ length bytes.now) }
{
    let mut methods = Vec::new(alloc);
    let mut rest = bytes;
    for _ in 0..count {
        let (method, after) = method_at(alloc, size, constants, interface, rest)?;
        methods.push(method)?;
        rest = after;
    }
    Ok((Listed::from_vec(methods), rest))
}
