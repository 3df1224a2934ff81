//! The lines of domains.
ghost use Rattle.std.specs.Prelude.{◌≡◌, reverse};
ghost use Rattle.std.specs.List.{flat_map};
ghost use Rattle.jx_base.specs.Basics.{up_to};
ghost use Rattle.jx_model.specs.Domains.{domains_made, template_named};
ghost use Rattle.jx_model.specs.Legal.{IsAdmittedPast};
ghost use Rattle.audit_model.specs.AuditText.{domain_line};
ghost use Rattle.audit_text.specs.Rendering.{HasReasons, made_template};
ghost use Rattle.audit_text.specs.Rendering.{standing_text, domain_text, whole_line};
ghost use Rattle.page_text.specs.Writes.{Writes};

use crate::reasons::EndReasons;
use audit_lines::template_name;
use jx_base::{Act, DomainId, Entry, Failed, Reason, Reply, Sink, System};
use page_text::{Page, Piece, write_behind, write_words};

// The template of that name.
#[tactic(auto, unfolding(jx_model::specs::Domains::template_named))]
fn template_named(system: &System, name: &[u16]) -> Option<usize>
    ensures { result ≡ template_named system.now name.now }
{
    let templates = system.plan.templates.as_slice();
    templates
        .iter()
        .position(|template| template.name.as_slice() == name)
}

// The template of the domain that the entry made.
#[tactic(auto, unfolding(crate::specs::Rendering::made_template))]
fn made_template(system: &System, entry: &Entry) -> Option<usize>
    ensures { result ≡ made_template system.now entry.now.act entry.now.reply }
{
    match (&entry.act, &entry.reply) {
        (Act::Create(template), Reply::Domain(_, _)) => Some(*template as usize),
        (Act::Spawn { name }, Reply::Domain(_, _)) => {
            Some(template_named(system, name.as_slice()).unwrap_or(0))
        }
        _ => None,
    }
}

// Writes how a domain stands, each word behind a space.
#[tactic(auto, unfolding(crate::specs::Rendering::standing_text, page_text::specs::Pieces::piece_text, audit_model::specs::AuditText::standing_words, audit_model::specs::Audit::reason_words))]
fn write_standing<K: Sink>(why: Option<Reason>, page: &mut Page, sink: &mut K) -> Result<(), Failed>
    ensures { Writes (standing_text why) (page.old, K.state sink.old)
        (page.new, K.state sink.new) result }
{
    let ended = Piece::Plain("ended");
    match why {
        None => write_behind(&[Piece::Plain("live")], page, sink),
        Some(Reason::Exit(code)) => write_behind(
            &[ended, Piece::Plain("exit"), Piece::Signed(code)],
            page,
            sink,
        ),
        Some(Reason::Killed) => write_behind(&[ended, Piece::Plain("killed")], page, sink),
        Some(Reason::Fuel) => write_behind(&[ended, Piece::Plain("fuel")], page, sink),
        Some(Reason::BadCode) => write_behind(&[ended, Piece::Plain("badcode")], page, sink),
    }
}

// Writes the number, the template and the creator of a domain.
#[tactic(auto, unfolding(crate::specs::Rendering::domain_text, page_text::specs::Pieces::piece_text))]
fn write_origin<K: Sink>(
    system: &System,
    domain: u64,
    template: usize,
    creator: DomainId,
    page: &mut Page,
    sink: &mut K,
) -> Result<(), Failed>
    ensures { Writes (domain_text system.now domain template creator.0)
        (page.old, K.state sink.old) (page.new, K.state sink.new) result }
{
    let name = template_name(system, template);
    write_words(
        &[
            Piece::Number(domain),
            Piece::Quoted(name),
            Piece::Plain("by"),
            Piece::Number(u64::from(creator.0)),
        ],
        page,
        sink,
    )
}

// A domain that an entry made.
#[derive(Clone, Copy)]
struct Born {
    domain: u64,
    template: usize,
    creator: DomainId,
}

// Writes the line of a domain.
#[tactic(auto, unfolding(crate::specs::Rendering::whole_line))]
fn write_domain<K: Sink>(
    system: &System,
    born: Born,
    why: Option<Reason>,
    page: &mut Page,
    sink: &mut K,
) -> Result<(), Failed>
    ensures { Writes (whole_line system.now born.domain born.template born.creator.0 why)
        (page.old, K.state sink.old) (page.new, K.state sink.new) result }
{
    write_origin(system, born.domain, born.template, born.creator, page, sink)?;
    write_standing(why, page, sink)?;
    page.write_byte(b'\n', sink)
}

/// Writes a line for each domain.
pub fn write_domains<K: Sink>(
    system: &System,
    entries: &[Entry],
    reasons: &EndReasons,
    page: &mut Page,
    sink: &mut K,
) -> Result<(), Failed>
    requires admitted { IsAdmittedPast system.now (reverse entries.now) }
    requires reasons { HasReasons reasons.now.by_number (reverse entries.now) }
    ensures { Writes (flat_map (domain_line system.now (reverse entries.now))
        (up_to (domains_made (reverse entries.now))))
        (page.old, K.state sink.old) (page.new, K.state sink.new) result }
{
    let mut domains: u64 = 0;
    for entry in entries {
        if let Some(template) = made_template(system, entry) {
            domains += 1;
            let born = Born {
                domain: domains,
                template,
                creator: entry.domain,
            };
            let why = reasons.reason(domains);
            write_domain(system, born, why, page, sink)?;
        }
    }
    Ok(())
}
