//! Pieces of text.
ghost use Rattle.std.specs.Prelude.{◌≡◌, ◌<◌, true};
ghost use Rattle.jx_base.specs.Puts.{Puts};
ghost use Rattle.jx_base.specs.Texts.{hex_digit, is_printable, unit_text, units_text, quoted, spaced};
ghost use Rattle.std.specs.List.{flat_map, list_all};
ghost use Rattle.page_text.specs.Pieces.{piece_text, piece_texts, shown, shown_unit};
ghost use Rattle.page_text.specs.Pieces.{spaced_piece, line_of};
ghost use Rattle.page_text.specs.Writes.{Writes};

use crate::page::Page;
use itoa::Buffer;
use jx_base::{Failed, Sink};

/// A piece of text: bytes as they are, a number in decimal, a text of UTF-16 units in quotes, or one
/// that is shown as it is where all of it is printable.
#[derive(Clone, Copy)]
pub enum Piece<'a> {
    Plain(&'a str),
    Number(u64),
    Signed(i32),
    Quoted(&'a [u16]),
    Shown(&'a [u16]),
}

fn hex(digit: u16) -> u8
    requires { digit < 16 }
    ensures { result ≡ hex_digit digit }
{
    if digit < 10 {
        48 + digit as u8
    } else {
        87 + digit as u8
    }
}

#[tactic(auto, unfolding(jx_base::specs::Texts::unit_text))]
fn write_unit<K: Sink>(unit: u16, page: &mut Page, sink: &mut K) -> Result<(), Failed>
    ensures { Writes (unit_text unit) (page.old, K.state sink.old)
        (page.new, K.state sink.new) result }
{
    if unit >= 32 && unit <= 126 && unit != 34 && unit != 92 {
        page.write(&[unit as u8], sink)
    } else {
        page.write(
            &[
                b'\\',
                b'u',
                hex(unit / 4096),
                hex(unit / 256 % 16),
                hex(unit / 16 % 16),
                hex(unit % 16),
            ],
            sink,
        )
    }
}

/// Writes the units as they stand within quotes.
pub fn write_units<K: Sink>(units: &[u16], page: &mut Page, sink: &mut K) -> Result<(), Failed>
    ensures { Writes (units_text units.now)
        (page.old, K.state sink.old) (page.new, K.state sink.new) result }
{
    for unit in units {
        write_unit(*unit, page, sink)?;
    }
    Ok(())
}

fn write_quoted<K: Sink>(units: &[u16], page: &mut Page, sink: &mut K) -> Result<(), Failed>
    ensures { Writes (quoted units.now) (page.old, K.state sink.old)
        (page.new, K.state sink.new) result }
{
    page.write_byte(b'"', sink)?;
    write_units(units, page, sink)?;
    page.write_byte(b'"', sink)
}

fn is_printable(unit: u16) -> bool
    ensures { result ≡ is_printable unit }
{
    unit >= 32 && unit <= 126
}

fn are_printable(units: &[u16]) -> bool
    ensures { result ≡ list_all is_printable units.now }
{
    units.iter().all(|unit| is_printable(*unit))
}

// Writes a unit as it is, or else as it stands within quotes.
#[tactic(auto, unfolding(crate::specs::Pieces::shown_unit))]
fn write_shown_unit<K: Sink>(
    plain: bool,
    unit: u16,
    page: &mut Page,
    sink: &mut K,
) -> Result<(), Failed>
    requires { plain ≡ true → unit < 256 }
    ensures { Writes (shown_unit plain unit) (page.old, K.state sink.old)
        (page.new, K.state sink.new) result }
{
    if plain {
        page.write_byte(unit as u8, sink)
    } else {
        write_unit(unit, page, sink)
    }
}

fn write_shown<K: Sink>(units: &[u16], page: &mut Page, sink: &mut K) -> Result<(), Failed>
    ensures { Writes (shown units.now) (page.old, K.state sink.old)
        (page.new, K.state sink.new) result }
{
    let plain = are_printable(units);
    for unit in units {
        write_shown_unit(plain, *unit, page, sink)?;
    }
    Ok(())
}

#[tactic(auto, unfolding(crate::specs::Pieces::piece_text))]
fn write_piece<K: Sink>(piece: &Piece<'_>, page: &mut Page, sink: &mut K) -> Result<(), Failed>
    ensures { Writes (piece_text piece.now)
        (page.old, K.state sink.old) (page.new, K.state sink.new) result }
{
    match piece {
        Piece::Plain(text) => page.write(text.as_bytes(), sink),
        Piece::Number(n) => {
            let mut buffer = Buffer::new();
            page.write(buffer.format(*n).as_bytes(), sink)
        }
        Piece::Signed(n) => {
            let mut buffer = Buffer::new();
            page.write(buffer.format(*n).as_bytes(), sink)
        }
        Piece::Quoted(units) => write_quoted(units, page, sink),
        Piece::Shown(units) => write_shown(units, page, sink),
    }
}

// Writes the piece behind a space.
fn write_spaced<K: Sink>(piece: &Piece<'_>, page: &mut Page, sink: &mut K) -> Result<(), Failed>
    ensures { Writes (spaced_piece piece.now)
        (page.old, K.state sink.old) (page.new, K.state sink.new) result }
{
    page.write_byte(b' ', sink)?;
    write_piece(piece, page, sink)
}

pub fn write_behind<K: Sink>(
    pieces: &[Piece<'_>],
    page: &mut Page,
    sink: &mut K,
) -> Result<(), Failed>
    ensures { Writes (flat_map spaced_piece pieces.now)
        (page.old, K.state sink.old) (page.new, K.state sink.new) result }
{
    for piece in pieces {
        write_spaced(piece, page, sink)?;
    }
    Ok(())
}

pub fn write_words<K: Sink>(
    words: &[Piece<'_>],
    page: &mut Page,
    sink: &mut K,
) -> Result<(), Failed>
    ensures { Writes (spaced (piece_texts words.now))
        (page.old, K.state sink.old) (page.new, K.state sink.new) result }
{
    match words.split_first() {
        None => Ok(()),
        Some((first, rest)) => {
            write_piece(first, page, sink)?;
            write_behind(rest, page, sink)
        }
    }
}

/// Writes a line of words, with one space between.
pub fn write_line<K: Sink>(words: &[Piece<'_>], page: &mut Page, sink: &mut K) -> Result<(), Failed>
    ensures { Writes (line_of words.now) (page.old, K.state sink.old)
        (page.new, K.state sink.new) result }
{
    write_words(words, page, sink)?;
    page.write_byte(b'\n', sink)
}

/// Puts one line of words, with one space between.
pub fn put_line<K: Sink>(words: &[Piece<'_>], sink: &mut K) -> Result<(), Failed>
    ensures { Puts (line_of words.now) (K.state sink.old) (K.state sink.new) result }
{
    let mut page = Page::new();
    write_line(words, &mut page, sink)?;
    page.flush(sink)
}
