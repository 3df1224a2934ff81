//! The lines of what was printed.
ghost use Rattle.std.specs.List.{flat_map};
ghost use Rattle.audit_model.specs.AuditText.{console_line};
ghost use Rattle.page_text.specs.Writes.{Writes};

use jx_base::{Act, Entry, Failed, Reply, Sink};
use page_text::{Page, Piece, write_line};

#[tactic(auto, unfolding(page_text::specs::Pieces::piece_text, audit_model::specs::AuditText::console_line, audit_model::specs::AuditText::printed))]
fn write_printed<K: Sink>(entry: &Entry, page: &mut Page, sink: &mut K) -> Result<(), Failed>
    ensures { Writes (console_line entry.now)
        (page.old, K.state sink.old) (page.new, K.state sink.new) result }
{
    match (&entry.act, &entry.reply) {
        (Act::Print(text), Reply::Done) => write_line(
            &[
                Piece::Number(u64::from(entry.domain.0)),
                Piece::Quoted(text.as_slice()),
            ],
            page,
            sink,
        ),
        _ => Ok(()),
    }
}

/// Writes a line for each text that was printed.
pub fn write_console<K: Sink>(
    entries: &[Entry],
    page: &mut Page,
    sink: &mut K,
) -> Result<(), Failed>
    ensures { Writes (flat_map console_line entries.now)
        (page.old, K.state sink.old) (page.new, K.state sink.new) result }
{
    for entry in entries {
        write_printed(entry, page, sink)?;
    }
    Ok(())
}
