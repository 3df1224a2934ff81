//! Words that are names, numbers and constants.
ghost use Rattle.std.specs.Prelude.{◌≡◌, Some, None, pos, ◌-ℤ◌, if◌then◌else◌};
ghost use Rattle.asm_words.specs.Numbers.{number_of, within};
ghost use Rattle.asm_lines.specs.Operands.{is_name, int_of, constant_of};
ghost use Rattle.asm_lines.specs.Readings.{Tells, texts};

use crate::error::{LineError, Malformed};
use asm_constants::Content;
use asm_words::{is_text, number, unquoted};
use jx_base::Text;
use std::alloc::Global;

const QUOTE: u16 = 0x22;

/// Whether the word may be a name: it isn't empty and begins with no quote.
#[tactic(auto, unfolding(crate::specs::Operands::is_name))]
pub fn is_name(word: &[u16]) -> bool
    ensures { result ≡ is_name word.now }
{
    match word {
        [] => false,
        [first, ..] => *first != QUOTE,
    }
}

/// The name that the word is.
pub fn name(alloc: Global, word: &[u16]) -> Result<Text, LineError>
    ensures { Tells (λ name. name) result (if is_name word.now then Some word.now else None) }
{
    if is_name(word) {
        Ok(Text::from_slice(alloc, word)?)
    } else {
        Err(LineError::Bad(Malformed))
    }
}

/// The int that the word says.
#[tactic(auto, unfolding(crate::specs::Operands::int_of))]
pub fn int(word: &[u16]) -> Result<i32, LineError>
    ensures { Tells (λ z. z) result (int_of word.now) }
{
    match number(word, i64::from(i32::MIN), i64::from(i32::MAX)) {
        Some(n) => Ok(n as i32),
        None => Err(LineError::Bad(Malformed)),
    }
}

/// The number of 16 bits with a sign that the word says.
pub fn short(word: &[u16]) -> Result<i16, LineError>
    ensures { Tells (λ z. z) result (within (pos 0 -ℤ pos 32768) (pos 32767) (number_of word.now)) }
{
    match number(word, i64::from(i16::MIN), i64::from(i16::MAX)) {
        Some(n) => Ok(n as i16),
        None => Err(LineError::Bad(Malformed)),
    }
}

/// The number of 8 bits with a sign that the word says.
pub fn small(word: &[u16]) -> Result<i8, LineError>
    ensures { Tells (λ z. z) result (within (pos 0 -ℤ pos 128) (pos 127) (number_of word.now)) }
{
    match number(word, i64::from(i8::MIN), i64::from(i8::MAX)) {
        Some(n) => Ok(n as i8),
        None => Err(LineError::Bad(Malformed)),
    }
}

/// The number of 16 bits that the word says.
pub fn unsigned(word: &[u16]) -> Result<u16, LineError>
    ensures { Tells (λ n. pos n) result (within (pos 0) (pos 65535) (number_of word.now)) }
{
    match number(word, 0, i64::from(u16::MAX)) {
        Some(n) => Ok(n as u16),
        None => Err(LineError::Bad(Malformed)),
    }
}

/// The number of 8 bits that the word says, where it is at least so much.
pub fn byte_from(word: &[u16], least: u8) -> Result<u8, LineError>
    ensures { Tells (λ n. pos n) result (within (pos least) (pos 255) (number_of word.now)) }
{
    match number(word, i64::from(least), i64::from(u8::MAX)) {
        Some(n) => Ok(n as u8),
        None => Err(LineError::Bad(Malformed)),
    }
}

/// The constant that ldc pushes.
#[tactic(auto, unfolding(crate::specs::Operands::constant_of))]
pub fn constant(alloc: Global, words: &[&[u16]]) -> Result<Content, LineError>
    ensures { Tells (λ content. content) result (constant_of (texts words.now)) }
{
    match words {
        [kind, word] => {
            if is_text(kind, "int") {
                Ok(Content::Integer(int(word)?))
            } else if is_text(kind, "string") {
                match unquoted(alloc, word)? {
                    Some(text) => Ok(Content::Str(text)),
                    None => Err(LineError::Bad(Malformed)),
                }
            } else {
                Err(LineError::Bad(Malformed))
            }
        }
        _ => Err(LineError::Bad(Malformed)),
    }
}
