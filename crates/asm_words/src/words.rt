//! The lines of a text, and the words of a line.
ghost use Rattle.std.specs.Prelude.{◌≡◌, ◌<◌, ◌+◌, ◌==◌, map, position, take, drop, length, List};
ghost use Rattle.std.specs.Prelude.{[], ◌∷◌, IfOk, IfSome, MatchOption};
ghost use Rattle.std.specs.Str.{bytes_eq};
ghost use Rattle.asm_words.specs.Words.{lines_of, words_of, position_behind};

use jx_base::OutOfMemory;
use std::alloc::Global;

const FEED: u8 = 0x0a;

const SPACE: u16 = 0x20;

const QUOTE: u16 = 0x22;

/// Where in a word a unit stands: at its front, within quotes, or elsewhere.
#[derive(Clone, Copy)]
pub enum Position {
    Front,
    Quoted,
    Plain,
}

// Where the first line feed stands.
fn line_end(text: &[u8]) -> Option<usize>
    ensures within { IfSome result (λ end. end < length text.now) }
    ensures first { result ≡ position (λ byte. byte == 10) text.now }
{
    text.iter().position(|byte| *byte == FEED)
}

/// The lines of a text: a line feed ends one, and so does the end of the text behind anything else.
pub fn lines_of(alloc: Global, text: &[u8]) -> Result<Vec<&[u8]>, OutOfMemory>
    ensures { IfOk result (λ lines. map (λ line. line.now) lines.items ≡ lines_of text.now) }
{
    let mut lines = Vec::new(alloc);
    let mut rest = text;
    while let Some(end) = line_end(rest) {
        lines.push(&rest[..end])?;
        rest = &rest[end + 1..];
    }
    if !rest.is_empty() {
        lines.push(rest)?;
    }
    Ok(lines)
}

#[tactic(auto, unfolding(crate::specs::Words::position_behind))]
fn position_behind(position: Position, unit: u16) -> Option<Position>
    ensures { result ≡ position_behind position unit }
{
    match (position, unit) {
        (Position::Front | Position::Plain, SPACE) => None,
        (Position::Front, QUOTE) => Some(Position::Quoted),
        (Position::Quoted, QUOTE) => Some(Position::Plain),
        (Position::Quoted, _) => Some(Position::Quoted),
        _ => Some(Position::Plain),
    }
}

// Where the space stands that ends the first word of the line, none if the line is one word.
fn word_end(line: &[u16]) -> Option<usize>
    ensures within { IfSome result (λ end. end < length line.now) }
    ensures splits { MatchOption result (words_of line.now ≡ line.now ∷ [])
        (λ end. words_of line.now ≡ take end line.now ∷ words_of (drop (end + 1) line.now)) }
{
    let mut position = Position::Front;
    for (i, unit) in line.iter().enumerate() {
        match position_behind(position, *unit) {
            Some(next) => position = next,
            None => return Some(i),
        }
    }
    None
}

/// The words of a line, in units of UTF-16: it is split at each space that doesn't stand between a
/// quote at a word's front and the next quote.
pub fn words_of(alloc: Global, line: &[u16]) -> Result<Vec<&[u16]>, OutOfMemory>
    ensures { IfOk result (λ words. map (λ word. word.now) words.items ≡ words_of line.now) }
{
    let mut words = Vec::new(alloc);
    let mut rest = line;
    while let Some(end) = word_end(rest) {
        words.push(&rest[..end])?;
        rest = &rest[end + 1..];
    }
    words.push(rest)?;
    Ok(words)
}

/// Whether the word, in units of UTF-16, is that text in ASCII.
pub fn is_text(word: &[u16], ascii: &str) -> bool
    ensures { result ≡ bytes_eq word.now ascii.now }
{
    let bytes = ascii.as_bytes();
    if word.len() != bytes.len() {
        return false;
    }
    for (i, byte) in bytes.iter().enumerate() {
        if word[i] != u16::from(*byte) {
            return false;
        }
    }
    true
}
