//! Modified UTF-8 (JVMS 4.4.7): each unit of UTF-16 by itself, in the shortest form, but the unit 0
//! in two bytes.
ghost use Rattle.std.specs.Prelude.{◌≡◌, ◌<◌, ◌^◌, ◌+◌, ◌++◌, length, if◌then◌else◌, IfOk, IfSome};
ghost use Rattle.std.specs.Prelude.{OnOk, Some, None, option_map};
ghost use Rattle.class_texts.specs.Texts.{IsTextOf, two, three, unit_of_three_at, unit_of_two_at};
ghost use Rattle.class_texts.specs.Texts.{unit_at};
ghost use Rattle.class_grammar.specs.ModifiedUtf8.{IsModifiedUtf8, begins_one, unit_bytes};
ghost use Rattle.class_grammar.specs.ModifiedUtf8.{modified_utf8, text_of_bytes};

use jx_base::{Listed, OutOfMemory, Text};
use std::alloc::Global;

#[tactic(auto, unfolding(class_grammar::specs::ModifiedUtf8::begins_one))]
fn begins_one(byte: u8) -> bool
    ensures { result ≡ begins_one byte }
{
    byte >= 1 && byte < 0x80
}

// The unit of two bytes, if they are its shortest form.
#[tactic(auto, unfolding(class_grammar::specs::ModifiedUtf8::is_two, class_grammar::specs::ModifiedUtf8::begins_two, class_grammar::specs::ModifiedUtf8::is_continuation, class_grammar::specs::ModifiedUtf8::unit_of_two, crate::specs::Texts::two))]
fn two(b: u8, c: u8) -> Option<u16>
    ensures { result ≡ two b c }
{
    if b < 0xc0 || b >= 0xe0 || c < 0x80 || c >= 0xc0 {
        return None;
    }
    let unit = (u16::from(b) - 0xc0) * 64 + (u16::from(c) - 0x80);
    if unit >= 0x80 || unit == 0 {
        Some(unit)
    } else {
        None
    }
}

// The unit of three bytes, if they are its shortest form.
#[tactic(auto, unfolding(class_grammar::specs::ModifiedUtf8::is_three, class_grammar::specs::ModifiedUtf8::begins_three, class_grammar::specs::ModifiedUtf8::is_continuation, class_grammar::specs::ModifiedUtf8::unit_of_three, crate::specs::Texts::three))]
fn three(b: u8, c: u8, d: u8) -> Option<u16>
    ensures { result ≡ three b c d }
{
    if b < 0xe0 || b >= 0xf0 || c < 0x80 || c >= 0xc0 || d < 0x80 || d >= 0xc0 {
        return None;
    }
    let unit = (u16::from(b) - 0xe0) * 4096 + (u16::from(c) - 0x80) * 64 + (u16::from(d) - 0x80);
    if unit >= 0x800 { Some(unit) } else { None }
}

#[tactic(auto, unfolding(crate::specs::Texts::unit_of_three_at))]
fn unit_of_three(b: u8, c: u8, bytes: &[u8]) -> Option<(u16, &[u8])>
    ensures read { option_map (λ x. (x.0, x.1.now)) result ≡ unit_of_three_at b c bytes.now }
    ensures shorter { IfSome result (λ x. length x.1.now < length bytes.now) }
{
    match bytes {
        [] => None,
        [d, rest @ ..] => match three(b, c, *d) {
            Some(unit) => Some((unit, rest)),
            None => None,
        },
    }
}

#[tactic(auto, unfolding(crate::specs::Texts::unit_of_two_at))]
fn unit_of_two(b: u8, bytes: &[u8]) -> Option<(u16, &[u8])>
    ensures read { option_map (λ x. (x.0, x.1.now)) result ≡ unit_of_two_at b bytes.now }
    ensures shorter { IfSome result (λ x. length x.1.now < length bytes.now) }
{
    match bytes {
        [] => None,
        [c, rest @ ..] => match two(b, *c) {
            Some(unit) => Some((unit, rest)),
            None => unit_of_three(b, *c, rest),
        },
    }
}

// The unit at the front, and the bytes behind it.
#[tactic(auto, unfolding(crate::specs::Texts::unit_at))]
fn unit_at(bytes: &[u8]) -> Option<(u16, &[u8])>
    ensures read { option_map (λ x. (x.0, x.1.now)) result ≡ unit_at bytes.now }
    ensures shorter { IfSome result (λ x. length x.1.now < length bytes.now) }
{
    match bytes {
        [] => None,
        [b, rest @ ..] => {
            if begins_one(*b) {
                Some((u16::from(*b), rest))
            } else {
                unit_of_two(*b, rest)
            }
        }
    }
}

fn text_in(alloc: Global, bytes: &[u8]) -> Result<Option<Text>, OutOfMemory>
    ensures { IfOk result (λ text. text ≡ text_of_bytes bytes.now) }
{
    let mut units = Vec::with_capacity(alloc, bytes.len())?;
    let mut rest = bytes;
    while !rest.is_empty() {
        match unit_at(rest) {
            Some((unit, after)) => {
                units.push(unit)?;
                rest = after;
            }
            None => return Ok(None),
        }
    }
    Ok(Some(Listed::from_vec(units)))
}

/// The text that the bytes spell, if they spell one.
pub fn utf8_read(alloc: Global, bytes: &[u8]) -> Result<Option<Text>, OutOfMemory>
    ensures spells { IfOk result (IsTextOf bytes.now) }
    ensures read { IfOk result (λ text. text ≡ text_of_bytes bytes.now) }
{
    text_in(alloc, bytes)
}

#[tactic(auto, unfolding(class_grammar::specs::ModifiedUtf8::unit_bytes))]
fn push_unit(bytes: &mut Vec<u8>, unit: u16) -> Result<(), OutOfMemory>
    ensures { OnOk result (bytes.new.items ≡ bytes.old.items ++ unit_bytes unit) }
{
    if unit >= 1 && unit < 0x80 {
        bytes.extend_from_slice(&[unit as u8])
    } else if unit < 0x800 {
        bytes.extend_from_slice(&[(0xc0 + unit / 64) as u8, (0x80 + unit % 64) as u8])
    } else {
        bytes.extend_from_slice(&[
            (0xe0 + unit / 4096) as u8,
            (0x80 + unit / 64 % 64) as u8,
            (0x80 + unit % 64) as u8,
        ])
    }
}

/// The bytes that spell the text.
pub fn utf8_write(alloc: Global, text: &[u16]) -> Result<Vec<u8>, OutOfMemory>
    ensures { IfOk result (λ bytes. IsModifiedUtf8 bytes.items text.now) }
{
    let mut bytes = Vec::with_capacity(alloc, text.len())?;
    for unit in text {
        push_unit(&mut bytes, *unit)?;
    }
    Ok(bytes)
}

#[tactic(auto, unfolding(class_grammar::specs::ModifiedUtf8::unit_bytes))]
fn unit_length(unit: u16) -> u32
    ensures { result ≡ length (unit_bytes unit) }
{
    if unit >= 1 && unit < 0x80 {
        1
    } else if unit < 0x800 {
        2
    } else {
        3
    }
}

/// How many bytes spell the text.
pub fn utf8_length(text: &[u16]) -> u32
    requires { length (modified_utf8 text.now) < 2 ^ 32 }
    ensures { result ≡ length (modified_utf8 text.now) }
{
    let mut total = 0;
    for unit in text {
        total += unit_length(*unit);
    }
    total
}
