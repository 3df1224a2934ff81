//! The audit of a history.
ghost use Rattle.std.specs.Prelude.{reverse};
ghost use Rattle.jx_base.specs.Puts.{Puts};
ghost use Rattle.audit_model.specs.AuditText.{audit_text, lines_after, state_lines};
ghost use Rattle.jx_model.specs.Legal.{IsAdmitted, IsAdmittedPast};
ghost use Rattle.audit_text.specs.Rendering.{HasReasons};
ghost use Rattle.page_text.specs.Writes.{Writes};
ghost use Rattle.supported_acts.specs.SupportedActs.{AreSupported, HasSupportedActs};

use crate::calls::write_calls;
use crate::console::write_console;
use crate::domains::write_domains;
use crate::reasons::EndReasons;
use crate::totals::write_totals;
use audit_lines::write_entries;
use jx_base::{Entry, Failed, History, Sink, System};
use page_text::{Page, Piece, write_line};

// Writes the lines of the domains and of the unanswered calls.
fn write_state<K: Sink>(
    system: &System,
    entries: &[Entry],
    reasons: &EndReasons,
    page: &mut Page,
    sink: &mut K,
) -> Result<(), Failed>
    requires admitted { IsAdmittedPast system.now (reverse entries.now) }
    requires reasons { HasReasons reasons.now.by_number (reverse entries.now) }
    ensures { Writes (state_lines system.now (reverse entries.now))
        (page.old, K.state sink.old) (page.new, K.state sink.new) result }
{
    write_line(&[Piece::Plain("domains")], page, sink)?;
    write_domains(system, entries, reasons, page, sink)?;
    write_line(&[Piece::Plain("calls")], page, sink)?;
    write_calls(system, entries, page, sink)
}

// Writes the lines behind those of the entries.
fn write_after<K: Sink>(
    system: &System,
    entries: &[Entry],
    page: &mut Page,
    sink: &mut K,
) -> Result<(), Failed>
    requires admitted { IsAdmittedPast system.now (reverse entries.now) }
    requires supported { AreSupported entries.now }
    ensures { Writes (lines_after system.now entries.now (reverse entries.now))
        (page.old, K.state sink.old) (page.new, K.state sink.new) result }
{
    write_line(&[Piece::Plain("console")], page, sink)?;
    write_console(entries, page, sink)?;
    let reasons = EndReasons::after(entries);
    write_state(system, entries, &reasons, page, sink)?;
    write_totals(system, entries, &reasons, page, sink)
}

fn write_audit<K: Sink>(
    system: &System,
    history: &History,
    page: &mut Page,
    sink: &mut K,
) -> Result<(), Failed>
    requires admitted { IsAdmitted system.now history.now }
    requires supported { HasSupportedActs history.now }
    ensures { Writes (audit_text system.now history.now)
        (page.old, K.state sink.old) (page.new, K.state sink.new) result }
{
    let entries = history.entries.as_slice();
    write_line(&[Piece::Plain("jx audit 1")], page, sink)?;
    write_entries(system, entries, page, sink)?;
    write_after(system, entries, page, sink)
}

/// Puts the audit of the history. It takes no memory.
pub fn render<K: Sink>(system: &System, history: &History, sink: &mut K) -> Result<(), Failed>
    requires admitted { IsAdmitted system.now history.now }
    requires supported { HasSupportedActs history.now }
    ensures { Puts (audit_text system.now history.now) (K.state sink.old)
        (K.state sink.new) result }
{
    let mut page = Page::new();
    write_audit(system, history, &mut page, sink)?;
    page.flush(sink)
}
