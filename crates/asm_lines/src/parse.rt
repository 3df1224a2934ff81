//! What the lines of a text mean.
ghost use Rattle.std.specs.Prelude.{◌≡◌, Option, option_map, IfOk};
ghost use Rattle.asm_lines.specs.Lines.{meanings, meaning, line_of_words, worded_line, body_line};
ghost use Rattle.asm_lines.specs.Lines.{label_of, label_line, end_line, fitting};
ghost use Rattle.asm_lines.specs.Readings.{Tells, texts};
ghost use Rattle.asm_lines.specs.declared.line.Line.{Line};

use crate::error::{LineError, Malformed};
use crate::instructions::{instruction, opcode_named, wide_instruction};
use crate::line::{AsmKind, Line};
use crate::members::{
    abstract_line, catch_line, class_line, field_line, implements_line, method_line,
};
use asm_words::{is_text, lines_of, units_of, words_of};
use jx_base::{OutOfMemory, Text};
use std::alloc::{AllocError, Global};

const COLON: u16 = 0x3a;

const HASH: u16 = 0x23;

/// What the lines of a text mean, in order.
#[tactic(auto, unfolding(crate::specs::Lines::meanings))]
pub fn meanings(alloc: Global, text: &[u8]) -> Result<Vec<Line>, OutOfMemory>
    ensures { IfOk result (λ lines. lines.items ≡ meanings text.now) }
{
    let lines = lines_of(alloc, text)?;
    let mut meant = Vec::new(alloc);
    for line in &lines {
        meant.push(meaning(alloc, line)?)?;
    }
    Ok(meant)
}

#[tactic(auto, unfolding(crate::specs::Lines::meaning))]
fn meaning(alloc: Global, line: &[u8]) -> Result<Line, OutOfMemory>
    ensures { IfOk result (λ l. l ≡ meaning line.now) }
{
    match units_of(alloc, line)? {
        Some(units) => {
            let words = words_of(alloc, units.as_slice())?;
            line_of_words(alloc, words.as_slice())
        }
        None => Ok(Line::Faulty {
            kind: AsmKind::Word,
            ends: false,
        }),
    }
}

// What a line of those words means; an empty line and a comment are skipped.
#[tactic(auto, unfolding(crate::specs::Lines::line_of_words))]
fn line_of_words(alloc: Global, words: &[&[u16]]) -> Result<Line, OutOfMemory>
    ensures { IfOk result (λ l. l ≡ line_of_words (texts words.now)) }
{
    match words {
        [] | [[]] => Ok(Line::Skipped),
        [[], ..] => Ok(Line::Faulty {
            kind: AsmKind::Word,
            ends: false,
        }),
        [[HASH, ..], ..] => Ok(Line::Skipped),
        [word, words @ ..] => worded_line(alloc, word, words),
    }
}

// A line whose first word is known, where the others fit it.
#[tactic(auto, unfolding(crate::specs::Lines::fitting))]
fn fitting(ends: bool, line: Result<Line, LineError>) -> Result<Line, OutOfMemory>
    ensures { IfOk result (λ l. (said : Option Line) → Tells (λ told. told) line said
        → l ≡ fitting ends said) }
{
    match line {
        Ok(line) => Ok(line),
        Err(LineError::Bad(Malformed)) => Ok(Line::Faulty {
            kind: AsmKind::Operand,
            ends,
        }),
        Err(LineError::OutOfMemory) => Err(AllocError),
    }
}

// A line that begins with that word.
#[tactic(auto, unfolding(crate::specs::Lines::worded_line))]
fn worded_line(alloc: Global, word: &[u16], words: &[&[u16]]) -> Result<Line, OutOfMemory>
    ensures { IfOk result (λ l. l ≡ worded_line word.now (texts words.now)) }
{
    if is_text(word, "class") {
        fitting(false, class_line(alloc, words))
    } else if is_text(word, "implements") {
        fitting(false, implements_line(alloc, words))
    } else if is_text(word, "field") {
        fitting(false, field_line(alloc, words))
    } else if is_text(word, "abstract") {
        fitting(false, abstract_line(alloc, words))
    } else if is_text(word, "method") {
        fitting(false, method_line(alloc, words))
    } else if is_text(word, "catch") {
        fitting(false, catch_line(alloc, words))
    } else if is_text(word, "end") {
        fitting(true, end_line(words))
    } else if is_text(word, "wide") {
        fitting(false, wide_instruction(alloc, words))
    } else {
        body_line(alloc, word, words)
    }
}

#[tactic(auto, unfolding(crate::specs::Lines::end_line))]
fn end_line(words: &[&[u16]]) -> Result<Line, LineError>
    ensures { Tells (λ line. line) result (end_line (texts words.now)) }
{
    if words.is_empty() {
        Ok(Line::End)
    } else {
        Err(LineError::Bad(Malformed))
    }
}

// The word but for the colon at its end, where something stands in front of one.
#[tactic(auto, using(crate::proofs::Labels::label_is))]
fn label_of(word: &[u16]) -> Option<&[u16]>
    ensures { option_map (λ label. label.now) result ≡ label_of word.now }
{
    match word {
        [_, .., last] => {
            if *last == COLON {
                Some(&word[..word.len() - 1])
            } else {
                None
            }
        }
        _ => None,
    }
}

// A label stands alone.
#[tactic(auto, unfolding(crate::specs::Lines::label_line))]
fn label_line(alloc: Global, name: &[u16], words: &[&[u16]]) -> Result<Line, LineError>
    ensures { Tells (λ line. line) result (label_line name.now (texts words.now)) }
{
    if words.is_empty() {
        Ok(Line::Label(Text::from_slice(alloc, name)?))
    } else {
        Err(LineError::Bad(Malformed))
    }
}

// A line that begins with a label or a mnemonic.
#[tactic(auto, unfolding(crate::specs::Lines::body_line))]
fn body_line(alloc: Global, word: &[u16], words: &[&[u16]]) -> Result<Line, OutOfMemory>
    ensures { IfOk result (λ l. l ≡ body_line word.now (texts words.now)) }
{
    if let Some(name) = label_of(word) {
        return fitting(false, label_line(alloc, name, words));
    }
    match opcode_named(word) {
        Some(opcode) => fitting(false, instruction(alloc, opcode, words)),
        None => Ok(Line::Faulty {
            kind: AsmKind::Word,
            ends: false,
        }),
    }
}
