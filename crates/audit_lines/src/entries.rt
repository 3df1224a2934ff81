//! The lines of entries.
ghost use Rattle.audit_model.specs.AuditText.{entry_line, entry_lines};
ghost use Rattle.audit_lines.specs.LineParts.{actor_text};
ghost use Rattle.page_text.specs.Writes.{Writes};

use crate::acts::write_act;
use crate::replies::write_reply;
use jx_base::{Entry, Failed, Sink, System};
use page_text::{Page, Piece, write_words};

// Writes the line of entry n.
fn write_entry<K: Sink>(
    system: &System,
    n: u64,
    entry: &Entry,
    page: &mut Page,
    sink: &mut K,
) -> Result<(), Failed>
    ensures { Writes (entry_line system.now n entry.now)
        (page.old, K.state sink.old) (page.new, K.state sink.new) result }
{
    write_actor(n, entry, page, sink)?;
    write_act(system, &entry.act, page, sink)?;
    page.write(b" ->", sink)?;
    write_reply(system, &entry.reply, page, sink)?;
    page.write_byte(b'\n', sink)
}

#[tactic(auto, unfolding(crate::specs::LineParts::actor_text, page_text::specs::Pieces::piece_text))]
fn write_actor<K: Sink>(n: u64, entry: &Entry, page: &mut Page, sink: &mut K) -> Result<(), Failed>
    ensures { Writes (actor_text n entry.now)
        (page.old, K.state sink.old) (page.new, K.state sink.new) result }
{
    write_words(
        &[
            Piece::Number(n),
            Piece::Number(u64::from(entry.domain.0)),
            Piece::Number(u64::from(entry.thread.0)),
        ],
        page,
        sink,
    )
}

/// Writes the lines of the entries.
pub fn write_entries<K: Sink>(
    system: &System,
    entries: &[Entry],
    page: &mut Page,
    sink: &mut K,
) -> Result<(), Failed>
    ensures { Writes (entry_lines system.now 1 entries.now)
        (page.old, K.state sink.old) (page.new, K.state sink.new) result }
{
    let mut n: u64 = 0;
    for entry in entries {
        n += 1;
        write_entry(system, n, entry, page, sink)?;
    }
    Ok(())
}
