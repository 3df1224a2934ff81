//! The words of replies.
ghost use Rattle.std.specs.Prelude.{◌≡◌, [], ◌∷◌, codes, decimal};
ghost use Rattle.audit_model.specs.Audit.{refusal_word};
ghost use Rattle.audit_lines.specs.LineParts.{behind, spaced_reply};
ghost use Rattle.page_text.specs.Writes.{Writes};

use crate::words::{write_alone, write_asked, write_carried, write_number, write_signed};
use jx_base::{Failed, ObjectId, Refusal, Reply, Sink, System};
use page_text::{Page, Piece, write_behind};

#[tactic(auto, unfolding(audit_model::specs::Audit::refusal_word))]
fn refusal_word(refusal: Refusal) -> &'static str
    ensures { result.now ≡ refusal_word refusal }
{
    match refusal {
        Refusal::NotHeld => "notheld",
        Refusal::Taken => "taken",
        Refusal::Gone => "gone",
        Refusal::NoMethod => "nomethod",
        Refusal::Unfit => "unfit",
        Refusal::Discarded => "discarded",
        Refusal::Range => "range",
        Refusal::Revoked => "revoked",
        Refusal::TooMany => "toomany",
        Refusal::NoRoom => "noroom",
        Refusal::Unknown => "unknown",
        Refusal::NotYours => "notyours",
        Refusal::NotLive => "notlive",
    }
}

// Writes a word, the number of what was made, and its place.
#[tactic(auto, unfolding(page_text::specs::Pieces::piece_text))]
fn write_placed<K: Sink>(
    word: &str,
    number: u32,
    place: u32,
    page: &mut Page,
    sink: &mut K,
) -> Result<(), Failed>
    ensures { Writes (behind (word.now ∷ decimal number ∷ codes "at" ∷ decimal place ∷ []))
        (page.old, K.state sink.old) (page.new, K.state sink.new) result }
{
    write_behind(
        &[
            Piece::Plain(word),
            Piece::Number(u64::from(number)),
            Piece::Plain("at"),
            Piece::Number(u64::from(place)),
        ],
        page,
        sink,
    )
}

#[tactic(auto, unfolding(page_text::specs::Pieces::piece_text))]
fn write_pair<K: Sink>(
    first: ObjectId,
    second: ObjectId,
    page: &mut Page,
    sink: &mut K,
) -> Result<(), Failed>
    ensures { Writes (behind (codes "pair" ∷ decimal first.0 ∷ decimal second.0 ∷ []))
        (page.old, K.state sink.old) (page.new, K.state sink.new) result }
{
    write_behind(
        &[
            Piece::Plain("pair"),
            Piece::Number(u64::from(first.0)),
            Piece::Number(u64::from(second.0)),
        ],
        page,
        sink,
    )
}

/// Writes the words of the reply, each behind a space.
pub fn write_reply<K: Sink>(
    system: &System,
    reply: &Reply,
    page: &mut Page,
    sink: &mut K,
) -> Result<(), Failed>
    ensures { Writes (spaced_reply system.now reply.now)
        (page.old, K.state sink.old) (page.new, K.state sink.new) result }
{
    match reply {
        Reply::Done => write_alone("done", page, sink),
        Reply::Service(service, _) => write_number("service", service.0, page, sink),
        Reply::NoName => write_alone("none", page, sink),
        Reply::Queued(call) => write_number("queued", call.0, page, sink),
        Reply::Job {
            service,
            method,
            parcel,
        } => { write_asked(system, "job", *service, *method, parcel, page, sink) }
        Reply::Value(parcel) => write_carried(system, "value", parcel, page, sink),
        Reply::Thrown(parcel) => write_carried(system, "thrown", parcel, page, sink),
        Reply::CopyFailed => write_alone("copyfailed", page, sink),
        Reply::Ended => write_alone("ended", page, sink),
        Reply::Number(value) => write_signed("number", *value, page, sink),
        Reply::Made(object, place) => write_placed("made", object.0, *place, page, sink),
        Reply::Object(object) => write_number("object", object.0, page, sink),
        Reply::Pair(first, second) => write_pair(*first, *second, page, sink),
        Reply::Domain(domain, place) => write_placed("domain", domain.0, *place, page, sink),
        Reply::Refused(refusal) => write_alone(refusal_word(*refusal), page, sink),
    }
}
