//! The words of acts on memory objects, each behind a space.
ghost use Rattle.std.specs.Prelude.{[], ◌∷◌, codes, decimal};
ghost use Rattle.std.specs.Fmt.{signed_decimal};
ghost use Rattle.audit_lines.specs.LineParts.{behind};
ghost use Rattle.page_text.specs.Writes.{Writes};

use jx_base::{Failed, ObjectId, Sink};
use page_text::{Page, Piece, write_behind};

/// Writes a read of a memory object: where, and how wide.
#[tactic(auto, unfolding(page_text::specs::Pieces::piece_text))]
pub fn write_get<K: Sink>(
    object: ObjectId,
    at: i32,
    width: u8,
    page: &mut Page,
    sink: &mut K,
) -> Result<(), Failed>
    ensures { Writes (behind (codes "get" ∷ decimal object.0 ∷ signed_decimal at
        ∷ decimal width ∷ []))
        (page.old, K.state sink.old) (page.new, K.state sink.new) result }
{
    write_behind(
        &[
            Piece::Plain("get"),
            Piece::Number(u64::from(object.0)),
            Piece::Signed(at),
            Piece::Number(u64::from(width)),
        ],
        page,
        sink,
    )
}

/// Writes a write to a memory object: where, how wide, and the value.
#[tactic(auto, unfolding(page_text::specs::Pieces::piece_text))]
pub fn write_set<K: Sink>(
    object: ObjectId,
    at: i32,
    width: u8,
    value: i32,
    page: &mut Page,
    sink: &mut K,
) -> Result<(), Failed>
    ensures { Writes (behind (codes "set" ∷ decimal object.0 ∷ signed_decimal at
        ∷ decimal width ∷ signed_decimal value ∷ []))
        (page.old, K.state sink.old) (page.new, K.state sink.new) result }
{
    write_behind(
        &[
            Piece::Plain("set"),
            Piece::Number(u64::from(object.0)),
            Piece::Signed(at),
            Piece::Number(u64::from(width)),
            Piece::Signed(value),
        ],
        page,
        sink,
    )
}

/// Writes a fill of a range of a memory object, and with which byte.
#[tactic(auto, unfolding(page_text::specs::Pieces::piece_text))]
pub fn write_fill<K: Sink>(
    object: ObjectId,
    at: i32,
    count: i32,
    byte: u8,
    page: &mut Page,
    sink: &mut K,
) -> Result<(), Failed>
    ensures { Writes (behind (codes "fill" ∷ decimal object.0 ∷ signed_decimal at
        ∷ signed_decimal count ∷ decimal byte ∷ []))
        (page.old, K.state sink.old) (page.new, K.state sink.new) result }
{
    write_behind(
        &[
            Piece::Plain("fill"),
            Piece::Number(u64::from(object.0)),
            Piece::Signed(at),
            Piece::Signed(count),
            Piece::Number(u64::from(byte)),
        ],
        page,
        sink,
    )
}

/// Writes a copy of bytes from one memory object to one.
#[tactic(auto, unfolding(page_text::specs::Pieces::piece_text))]
pub fn write_copy<K: Sink>(
    source: ObjectId,
    at: i32,
    target: ObjectId,
    target_at: i32,
    count: i32,
    page: &mut Page,
    sink: &mut K,
) -> Result<(), Failed>
    ensures { Writes (behind (codes "copy" ∷ decimal source.0 ∷ signed_decimal at
        ∷ decimal target.0 ∷ signed_decimal target_at ∷ signed_decimal count ∷ []))
        (page.old, K.state sink.old) (page.new, K.state sink.new) result }
{
    write_behind(
        &[
            Piece::Plain("copy"),
            Piece::Number(u64::from(source.0)),
            Piece::Signed(at),
            Piece::Number(u64::from(target.0)),
            Piece::Signed(target_at),
            Piece::Signed(count),
        ],
        page,
        sink,
    )
}

/// Writes the making of an object over a range of one.
#[tactic(auto, unfolding(page_text::specs::Pieces::piece_text))]
pub fn write_sub<K: Sink>(
    object: ObjectId,
    at: i32,
    count: i32,
    page: &mut Page,
    sink: &mut K,
) -> Result<(), Failed>
    ensures { Writes (behind (codes "sub" ∷ decimal object.0 ∷ signed_decimal at
        ∷ signed_decimal count ∷ []))
        (page.old, K.state sink.old) (page.new, K.state sink.new) result }
{
    write_behind(
        &[
            Piece::Plain("sub"),
            Piece::Number(u64::from(object.0)),
            Piece::Signed(at),
            Piece::Signed(count),
        ],
        page,
        sink,
    )
}

/// Writes the split of a memory object in two, and where.
#[tactic(auto, unfolding(page_text::specs::Pieces::piece_text))]
pub fn write_split<K: Sink>(
    object: ObjectId,
    at: i32,
    page: &mut Page,
    sink: &mut K,
) -> Result<(), Failed>
    ensures { Writes (behind (codes "split" ∷ decimal object.0 ∷ signed_decimal at ∷ []))
        (page.old, K.state sink.old) (page.new, K.state sink.new) result }
{
    write_behind(
        &[
            Piece::Plain("split"),
            Piece::Number(u64::from(object.0)),
            Piece::Signed(at),
        ],
        page,
        sink,
    )
}
