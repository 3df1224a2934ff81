//! Texts in quotes.
ghost use Rattle.std.specs.Prelude.{◌≡◌, ◌<◌, length, option_map, IfOk, IfSome};
ghost use Rattle.jx_base.specs.Texts.{is_plain};
ghost use Rattle.asm_words.specs.Quotes.{is_upper, escaped_unit, up_to_quote, unquoted};
ghost use Rattle.asm_words.specs.Readings.{is_closing, escape_at, unit_at};

use crate::numbers::four_digits;
use jx_base::{OutOfMemory, Text};
use std::alloc::Global;

const QUOTE: u16 = 0x22;

const BACKSLASH: u16 = 0x5c;

const LETTER_U: u16 = 0x75;

fn is_plain(unit: u16) -> bool
    ensures { result ≡ is_plain unit }
{
    unit >= 0x20 && unit <= 0x7e && unit != QUOTE && unit != BACKSLASH
}

#[tactic(auto, unfolding(crate::specs::Quotes::is_upper))]
fn is_upper(unit: u16) -> bool
    ensures { result ≡ is_upper unit }
{
    unit >= 0x41 && unit <= 0x5a
}

// The unit of an escape's digits, if it is written so.
#[tactic(auto, unfolding(crate::specs::Quotes::escaped_unit))]
fn escaped_unit(a: u16, b: u16, c: u16, d: u16) -> Option<u16>
    ensures { result ≡ escaped_unit a b c d }
{
    if is_upper(a) || is_upper(b) || is_upper(c) || is_upper(d) {
        return None;
    }
    match four_digits(a, b, c, d) {
        Some(unit) if !is_plain(unit) => Some(unit),
        _ => None,
    }
}

// The unit of the escape behind its backslash, and what stands behind it.
#[tactic(auto, unfolding(crate::specs::Readings::escape_at, crate::specs::Readings::with_rest))]
fn escape_at(units: &[u16]) -> Option<(u16, &[u16])>
    ensures read { option_map (λ x. (x.0, x.1.now)) result ≡ escape_at units.now }
    ensures shorter { IfSome result (λ x. length x.1.now < length units.now) }
{
    match units {
        [LETTER_U, a, b, c, d, rest @ ..] => match escaped_unit(*a, *b, *c, *d) {
            Some(unit) => Some((unit, rest)),
            None => None,
        },
        _ => None,
    }
}

// The unit at the front, and what stands behind it.
#[tactic(auto, unfolding(crate::specs::Readings::unit_at))]
fn unit_at(units: &[u16]) -> Option<(u16, &[u16])>
    ensures read { option_map (λ x. (x.0, x.1.now)) result ≡ unit_at units.now }
    ensures shorter { IfSome result (λ x. length x.1.now < length units.now) }
{
    match units {
        [BACKSLASH, rest @ ..] => escape_at(rest),
        [unit, rest @ ..] if is_plain(*unit) => Some((*unit, rest)),
        _ => None,
    }
}

#[tactic(auto, unfolding(crate::specs::Readings::is_closing))]
fn is_closing(units: &[u16]) -> bool
    ensures { result ≡ is_closing units.now }
{
    match units {
        [unit] => *unit == QUOTE,
        _ => false,
    }
}

// The units up to the quote that stands at the end.
fn up_to_quote(alloc: Global, quoted: &[u16]) -> Result<Option<Text>, OutOfMemory>
    ensures { IfOk result (λ text. text ≡ up_to_quote quoted.now) }
{
    let mut units = Vec::with_capacity(alloc, quoted.len())?;
    let mut rest = quoted;
    while !is_closing(rest) {
        match unit_at(rest) {
            Some((unit, after)) => {
                units.push(unit)?;
                rest = after;
            }
            None => return Ok(None),
        }
    }
    Ok(Some(Text::from_vec(units)))
}

/// The text that the word quotes, if it quotes one as it is written in quotes; both in units of
/// UTF-16.
#[tactic(auto, unfolding(crate::specs::Quotes::unquoted))]
pub fn unquoted(alloc: Global, word: &[u16]) -> Result<Option<Text>, OutOfMemory>
    ensures { IfOk result (λ text. text ≡ unquoted word.now) }
{
    match word {
        [QUOTE, quoted @ ..] => up_to_quote(alloc, quoted),
        _ => Ok(None),
    }
}
