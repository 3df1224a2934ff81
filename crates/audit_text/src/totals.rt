//! The lines of the totals.
ghost use Rattle.std.specs.Prelude.{◌≡◌, ◌≤◌, ◌<◌, ◌^◌, reverse};
ghost use Rattle.audit_model.specs.AuditText.{before_last, end_word, total_line, total_lines};
ghost use Rattle.jx_model.specs.Granules as Spec;
ghost use Rattle.jx_model.specs.Granules.{used_granules};
ghost use Rattle.jx_model.specs.Journal.{words_of};
ghost use Rattle.jx_model.specs.Legal.{IsAdmittedPast};
ghost use Rattle.audit_text.specs.Rendering.{HasReasons, created_template, total, where_live};
ghost use Rattle.page_text.specs.Writes.{Writes};
ghost use Rattle.supported_acts.specs.SupportedActs.{AreSupported};

use crate::reasons::EndReasons;
use extent_pool::heap_granules;
use journal::entry_words;
use jx_base::{Act, Entry, Failed, Reason, Reply, Sink, System};
use page_text::{Page, Piece, write_line};

fn wide(n: u32) -> u64
    ensures same { result ≡ n }
    ensures small { result < 2 ^ 32 }
{
    u64::from(n)
}

// The template of the domain that a create made.
#[tactic(auto, unfolding(crate::specs::Rendering::created_template))]
fn created_template(entry: &Entry) -> Option<u32>
    ensures { result ≡ created_template entry.now.act entry.now.reply }
{
    match (&entry.act, &entry.reply) {
        (Act::Create(template), Reply::Domain(_, _)) => Some(*template),
        _ => None,
    }
}

// The granules that a domain of the template has in use, if it has not ended.
#[tactic(auto, unfolding(crate::specs::Rendering::total, crate::specs::Rendering::where_live))]
fn granules_of(system: &System, template: u32, why: Option<Reason>) -> u64
    ensures granules { result ≡ total (where_live why (Spec.heap_granules system.now template)) }
    ensures small { result ≤ 2 ^ 29 }
{
    match why {
        None => wide(heap_granules(system, template)),
        Some(_) => 0,
    }
}

// How many granules are in use.
fn used_granules(system: &System, entries: &[Entry], reasons: &EndReasons) -> u64
    requires admitted { IsAdmittedPast system.now (reverse entries.now) }
    requires supported { AreSupported entries.now }
    requires reasons { HasReasons reasons.now.by_number (reverse entries.now) }
    ensures { result ≡ used_granules system.now (reverse entries.now) }
{
    let mut domains: u64 = 0;
    let mut used: u64 = 0;
    for entry in entries {
        if let Some(template) = created_template(entry) {
            domains += 1;
            used += granules_of(system, template, reasons.reason(domains));
        }
    }
    used
}

// The words that the entries cost.
fn words_of(entries: &[Entry]) -> u64
    requires { words_of (reverse entries.now) < 2 ^ 32 }
    ensures { result ≡ words_of (reverse entries.now) }
{
    let mut words: u64 = 0;
    for entry in entries {
        words += wide(entry_words(entry));
    }
    words
}

// The words that the entries before the last one cost.
fn words_before_last(entries: &[Entry]) -> u64
    requires { words_of (before_last (reverse entries.now)) < 2 ^ 32 }
    ensures { result ≡ words_of (before_last (reverse entries.now)) }
{
    match entries.split_last() {
        None => 0,
        Some((_, front)) => words_of(front),
    }
}

// The word of how the run ends.
fn end_word(entries: &[Entry]) -> &'static str
    ensures { result.now ≡ end_word (reverse entries.now) }
{
    match entries.split_last() {
        None => "open",
        Some((last, _)) => match &last.act {
            Act::Quiet => "quiet",
            Act::Halt => "halt",
            _ => "open",
        },
    }
}

#[tactic(auto, unfolding(audit_model::specs::AuditText::total_line, page_text::specs::Pieces::piece_text))]
fn write_total<K: Sink>(
    word: &str,
    used: u64,
    all: u64,
    page: &mut Page,
    sink: &mut K,
) -> Result<(), Failed>
    ensures { Writes (total_line word.now used all)
        (page.old, K.state sink.old) (page.new, K.state sink.new) result }
{
    write_line(
        &[
            Piece::Plain(word),
            Piece::Number(used),
            Piece::Plain("of"),
            Piece::Number(all),
        ],
        page,
        sink,
    )
}

/// Writes the lines of the totals, and of how the run ends.
pub fn write_totals<K: Sink>(
    system: &System,
    entries: &[Entry],
    reasons: &EndReasons,
    page: &mut Page,
    sink: &mut K,
) -> Result<(), Failed>
    requires admitted { IsAdmittedPast system.now (reverse entries.now) }
    requires supported { AreSupported entries.now }
    requires reasons { HasReasons reasons.now.by_number (reverse entries.now) }
    ensures { Writes (total_lines system.now (reverse entries.now))
        (page.old, K.state sink.old) (page.new, K.state sink.new) result }
{
    let granules = wide(system.plan.granules);
    let used = used_granules(system, entries, reasons);
    write_total("memory", used, granules, page, sink)?;
    let journal = wide(system.plan.journal);
    let words = words_before_last(entries);
    write_total("words", words, journal, page, sink)?;
    write_line(
        &[Piece::Plain("end"), Piece::Plain(end_word(entries))],
        page,
        sink,
    )
}
