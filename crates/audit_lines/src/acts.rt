//! The words of acts.
ghost use Rattle.std.specs.Prelude.{[], ◌∷◌, codes, decimal};
ghost use Rattle.audit_lines.specs.LineParts.{behind, spaced_act};
ghost use Rattle.jx_base.specs.Texts.{quoted};
ghost use Rattle.page_text.specs.Writes.{Writes};

use crate::memory_acts::{write_copy, write_fill, write_get, write_set, write_split, write_sub};
use crate::names::{class_name, template_name};
use crate::words::{
    write_alone, write_answer, write_asked, write_number, write_signed, write_text,
};
use jx_base::{Act, ClassId, Failed, Reason, ServiceId, Sink, System};
use page_text::{Page, Piece, write_behind};

#[tactic(auto, unfolding(crate::specs::LineParts::spaced_act, page_text::specs::Pieces::piece_text, audit_model::specs::Audit::act_word, audit_model::specs::Audit::act_operands))]
fn write_export<K: Sink>(
    system: &System,
    iface: ClassId,
    threads: u8,
    page: &mut Page,
    sink: &mut K,
) -> Result<(), Failed>
    ensures { Writes (spaced_act system.now (Act.Export iface threads))
        (page.old, K.state sink.old) (page.new, K.state sink.new) result }
{
    let name = class_name(system, iface);
    write_behind(
        &[
            Piece::Plain("export"),
            Piece::Quoted(name),
            Piece::Number(u64::from(threads)),
        ],
        page,
        sink,
    )
}

#[tactic(auto, unfolding(page_text::specs::Pieces::piece_text))]
fn write_bind<K: Sink>(
    name: &[u16],
    service: ServiceId,
    page: &mut Page,
    sink: &mut K,
) -> Result<(), Failed>
    ensures { Writes (behind (codes "bind" ∷ quoted name.now ∷ decimal service.0 ∷ []))
        (page.old, K.state sink.old) (page.new, K.state sink.new) result }
{
    write_behind(
        &[
            Piece::Plain("bind"),
            Piece::Quoted(name),
            Piece::Number(u64::from(service.0)),
        ],
        page,
        sink,
    )
}

#[tactic(auto, unfolding(crate::specs::LineParts::spaced_act, page_text::specs::Pieces::piece_text, audit_model::specs::Audit::act_word, audit_model::specs::Audit::act_operands, audit_model::specs::Audit::exception_words))]
fn write_end_thread<K: Sink>(
    system: &System,
    exception: Option<ClassId>,
    page: &mut Page,
    sink: &mut K,
) -> Result<(), Failed>
    ensures { Writes (spaced_act system.now (Act.EndThread exception))
        (page.old, K.state sink.old) (page.new, K.state sink.new) result }
{
    match exception {
        None => write_behind(&[Piece::Plain("end-thread")], page, sink),
        Some(class) => {
            let name = class_name(system, class);
            write_behind(
                &[Piece::Plain("end-thread"), Piece::Quoted(name)],
                page,
                sink,
            )
        }
    }
}

#[tactic(auto, unfolding(crate::specs::LineParts::spaced_act, page_text::specs::Pieces::piece_text, audit_model::specs::Audit::act_word, audit_model::specs::Audit::act_operands, audit_model::specs::Audit::reason_words))]
fn write_end<K: Sink>(
    system: &System,
    why: Reason,
    page: &mut Page,
    sink: &mut K,
) -> Result<(), Failed>
    ensures { Writes (spaced_act system.now (Act.End why))
        (page.old, K.state sink.old) (page.new, K.state sink.new) result }
{
    let end = Piece::Plain("end");
    match why {
        Reason::Exit(code) => write_behind(
            &[end, Piece::Plain("exit"), Piece::Signed(code)],
            page,
            sink,
        ),
        Reason::Killed => write_behind(&[end, Piece::Plain("killed")], page, sink),
        Reason::Fuel => write_behind(&[end, Piece::Plain("fuel")], page, sink),
        Reason::BadCode => write_behind(&[end, Piece::Plain("badcode")], page, sink),
    }
}

/// Writes the words of the act, each behind a space.
pub fn write_act<K: Sink>(
    system: &System,
    act: &Act,
    page: &mut Page,
    sink: &mut K,
) -> Result<(), Failed>
    ensures { Writes (spaced_act system.now act.now)
        (page.old, K.state sink.old) (page.new, K.state sink.new) result }
{
    match act {
        Act::Create(template) => {
            write_text(
                "create",
                template_name(system, *template as usize),
                page,
                sink,
            )
        }
        Act::Print(text) => write_text("print", text.as_slice(), page, sink),
        Act::Export { iface, threads } => write_export(system, *iface, *threads, page, sink),
        Act::Bind { name, service } => write_bind(name.as_slice(), *service, page, sink),
        Act::Lookup { name } => write_text("lookup", name.as_slice(), page, sink),
        Act::Call {
            service,
            method,
            parcel,
        } => { write_asked(system, "call", *service, *method, parcel, page, sink) }
        Act::Take(call) => write_number("take", call.0, page, sink),
        Act::Return { call, parcel } => write_answer(system, "return", *call, parcel, page, sink),
        Act::Throw { call, parcel } => write_answer(system, "throw", *call, parcel, page, sink),
        Act::Resume(call) => write_number("resume", call.0, page, sink),
        Act::Spawn { name } => write_text("spawn", name.as_slice(), page, sink),
        Act::Kill(domain) => write_signed("kill", *domain, page, sink),
        Act::Exit(code) => write_signed("exit", *code, page, sink),
        Act::EndThread(exception) => write_end_thread(system, *exception, page, sink),
        Act::End(why) => write_end(system, *why, page, sink),
        Act::Go(_) => write_alone("go", page, sink),
        Act::Yield => write_alone("yield", page, sink),
        Act::Quiet => write_alone("quiet", page, sink),
        Act::Halt => write_alone("halt", page, sink),
        Act::Alloc(size) => write_signed("alloc", *size, page, sink),
        Act::Size(object) => write_number("size", object.0, page, sink),
        Act::Get { object, at, width } => write_get(*object, *at, *width, page, sink),
        Act::Set {
            object,
            at,
            width,
            value,
        } => { write_set(*object, *at, *width, *value, page, sink) }
        Act::Fill {
            object,
            at,
            count,
            byte,
        } => { write_fill(*object, *at, *count, *byte, page, sink) }
        Act::Copy {
            source,
            at,
            target,
            target_at,
            count,
        } => { write_copy(*source, *at, *target, *target_at, *count, page, sink) }
        Act::Sub { object, at, count } => write_sub(*object, *at, *count, page, sink),
        Act::Split { object, at } => write_split(*object, *at, page, sink),
        Act::Revoke(object) => write_number("revoke", object.0, page, sink),
        Act::Release(object) => write_number("drop", object.0, page, sink),
    }
}
