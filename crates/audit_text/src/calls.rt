//! The lines of unanswered calls.
ghost use Rattle.std.specs.Prelude.{◌≡◌, [], ◌∷◌, decimal, reverse};
ghost use Rattle.std.specs.List.{flat_map};
ghost use Rattle.jx_base.specs.Basics.{up_to};
ghost use Rattle.jx_base.specs.Texts.{line};
ghost use Rattle.jx_model.specs.Calls.{calls_made};
ghost use Rattle.jx_model.specs.Legal.{IsAdmittedPast};
ghost use Rattle.audit_model.specs.AuditText.{call_line};
ghost use Rattle.audit_text.specs.CallTables.{entry_call_line, queued_call, standing_line};
ghost use Rattle.page_text.specs.Writes.{Writes};

use crate::call_tables::{CallTables, Standing};
use jx_base::{Act, Entry, Failed, Reply, Sink, System};
use page_text::{Page, Piece, write_line};

// The number and the service of the call that an entry queues.
#[tactic(auto, unfolding(crate::specs::CallTables::queued_call))]
fn queued_call(entry: &Entry) -> Option<(u32, u32)>
    ensures { result ≡ queued_call entry.now.act entry.now.reply }
{
    match (&entry.act, &entry.reply) {
        (Act::Call { service, .. }, Reply::Queued(call)) => Some((call.0, service.0)),
        _ => None,
    }
}

// Writes the number of a call and how it stands.
#[tactic(auto, unfolding(page_text::specs::Pieces::piece_text))]
fn write_word<K: Sink>(call: u32, word: &str, page: &mut Page, sink: &mut K) -> Result<(), Failed>
    ensures { Writes (line (decimal call ∷ word.now ∷ [])) (page.old, K.state sink.old)
        (page.new, K.state sink.new) result }
{
    write_line(
        &[Piece::Number(u64::from(call)), Piece::Plain(word)],
        page,
        sink,
    )
}

// Writes the line of a call that stands so.
#[tactic(auto, unfolding(crate::specs::CallTables::standing_line))]
fn write_standing<K: Sink>(
    call: u32,
    standing: Standing,
    page: &mut Page,
    sink: &mut K,
) -> Result<(), Failed>
    ensures { Writes (standing_line standing call) (page.old, K.state sink.old)
        (page.new, K.state sink.new) result }
{
    match standing {
        Standing::Answered => Ok(()),
        Standing::Queued => write_word(call, "queued", page, sink),
        Standing::Running => write_word(call, "running", page, sink),
    }
}

// Writes the line of the call that the entry queues.
#[tactic(auto, unfolding(crate::specs::CallTables::entry_call_line))]
fn write_call<K: Sink>(
    tables: &CallTables,
    entry: &Entry,
    page: &mut Page,
    sink: &mut K,
) -> Result<(), Failed>
    ensures { Writes (entry_call_line tables.now entry.now) (page.old, K.state sink.old)
        (page.new, K.state sink.new) result }
{
    match queued_call(entry) {
        None => Ok(()),
        Some((call, service)) => {
            write_standing(call, tables.standing(call, service), page, sink)
        }
    }
}

/// Writes the line of each unanswered call. It takes no memory.
pub fn write_calls<K: Sink>(
    system: &System,
    entries: &[Entry],
    page: &mut Page,
    sink: &mut K,
) -> Result<(), Failed>
    requires admitted { IsAdmittedPast system.now (reverse entries.now) }
    ensures { Writes (flat_map (call_line (reverse entries.now))
        (up_to (calls_made (reverse entries.now))))
        (page.old, K.state sink.old) (page.new, K.state sink.new) result }
{
    let mut tables = CallTables::new();
    tables.note_all(entries);
    for entry in entries {
        write_call(&tables, entry, page, sink)?;
    }
    Ok(())
}
