//! Words that acts and replies have in common, each behind a space.
ghost use Rattle.std.specs.Prelude.{[], ◌∷◌, ◌++◌, decimal};
ghost use Rattle.std.specs.Fmt.{signed_decimal};
ghost use Rattle.std.specs.List.{flat_map};
ghost use Rattle.audit_model.specs.Audit.{parcel_text};
ghost use Rattle.audit_lines.specs.LineParts.{asked_text, behind};
ghost use Rattle.jx_base.specs.Texts.{after_space, quoted};
ghost use Rattle.page_text.specs.Pieces.{spaced_piece};
ghost use Rattle.page_text.specs.Writes.{Writes};

use crate::parcels::write_parcel;
use jx_base::{CallId, Failed, MethodId, Parcel, ServiceId, Sink, System};
use page_text::{Page, Piece, write_behind};

/// Writes a word alone.
#[tactic(auto, unfolding(page_text::specs::Pieces::piece_text))]
pub fn write_alone<K: Sink>(word: &str, page: &mut Page, sink: &mut K) -> Result<(), Failed>
    ensures { Writes (behind (word.now ∷ []))
        (page.old, K.state sink.old) (page.new, K.state sink.new) result }
{
    write_behind(&[Piece::Plain(word)], page, sink)
}

/// Writes a word and a number.
#[tactic(auto, unfolding(page_text::specs::Pieces::piece_text))]
pub fn write_number<K: Sink>(
    word: &str,
    number: u32,
    page: &mut Page,
    sink: &mut K,
) -> Result<(), Failed>
    ensures { Writes (behind (word.now ∷ decimal number ∷ []))
        (page.old, K.state sink.old) (page.new, K.state sink.new) result }
{
    write_behind(
        &[Piece::Plain(word), Piece::Number(u64::from(number))],
        page,
        sink,
    )
}

/// Writes a word and a number that may be below zero.
#[tactic(auto, unfolding(page_text::specs::Pieces::piece_text))]
pub fn write_signed<K: Sink>(
    word: &str,
    number: i32,
    page: &mut Page,
    sink: &mut K,
) -> Result<(), Failed>
    ensures { Writes (behind (word.now ∷ signed_decimal number ∷ []))
        (page.old, K.state sink.old) (page.new, K.state sink.new) result }
{
    write_behind(&[Piece::Plain(word), Piece::Signed(number)], page, sink)
}

/// Writes a word and a text in quotes.
#[tactic(auto, unfolding(page_text::specs::Pieces::piece_text))]
pub fn write_text<K: Sink>(
    word: &str,
    text: &[u16],
    page: &mut Page,
    sink: &mut K,
) -> Result<(), Failed>
    ensures { Writes (behind (word.now ∷ quoted text.now ∷ []))
        (page.old, K.state sink.old) (page.new, K.state sink.new) result }
{
    write_behind(&[Piece::Plain(word), Piece::Quoted(text)], page, sink)
}

// Writes the pieces and the parcel.
fn write_with_parcel<K: Sink>(
    system: &System,
    pieces: &[Piece<'_>],
    parcel: &Parcel,
    page: &mut Page,
    sink: &mut K,
) -> Result<(), Failed>
    ensures { Writes (flat_map spaced_piece pieces.now
        ++ after_space (parcel_text system.now parcel.now))
        (page.old, K.state sink.old) (page.new, K.state sink.new) result }
{
    write_behind(pieces, page, sink)?;
    page.write_byte(b' ', sink)?;
    write_parcel(system, parcel, page, sink)
}

/// Writes a word and a parcel.
pub fn write_carried<K: Sink>(
    system: &System,
    word: &str,
    parcel: &Parcel,
    page: &mut Page,
    sink: &mut K,
) -> Result<(), Failed>
    ensures { Writes (behind (word.now ∷ parcel_text system.now parcel.now ∷ []))
        (page.old, K.state sink.old) (page.new, K.state sink.new) result }
{
    write_with_parcel(system, &[Piece::Plain(word)], parcel, page, sink)
}

/// Writes a word, a call and a parcel.
pub fn write_answer<K: Sink>(
    system: &System,
    word: &str,
    call: CallId,
    parcel: &Parcel,
    page: &mut Page,
    sink: &mut K,
) -> Result<(), Failed>
    ensures { Writes (behind (word.now ∷ decimal call.0 ∷ parcel_text system.now parcel.now ∷ []))
        (page.old, K.state sink.old) (page.new, K.state sink.new) result }
{
    let number = Piece::Number(u64::from(call.0));
    write_with_parcel(system, &[Piece::Plain(word), number], parcel, page, sink)
}

/// Writes a word, a service, a method and a parcel.
pub fn write_asked<'x, K: Sink>(
    system: &'x System,
    word: &'x str,
    service: ServiceId,
    method: MethodId,
    parcel: &Parcel,
    page: &mut Page,
    sink: &mut K,
) -> Result<(), Failed>
    ensures { Writes (asked_text system.now word.now service.0 method.0 parcel.now)
        (page.old, K.state sink.old) (page.new, K.state sink.new) result }
{
    let first = Piece::Plain(word);
    let number = Piece::Number(u64::from(service.0));
    match system.program.selectors.as_slice().get(method.0 as usize) {
        Some(found) => {
            let name = Piece::Quoted(found.name.as_slice());
            let descriptor = Piece::Quoted(found.descriptor.as_slice());
            write_with_parcel(
                system,
                &[first, number, name, descriptor],
                parcel,
                page,
                sink,
            )
        }
        None => {
            let none = Piece::Quoted(&[]);
            write_with_parcel(system, &[first, number, none, none], parcel, page, sink)
        }
    }
}
