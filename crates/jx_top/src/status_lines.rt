//! What is said of a status.
ghost use Rattle.std.specs.Prelude.{◌≡◌};
ghost use Rattle.jx_base.specs.Puts.{Puts};
ghost use Rattle.jx_top.specs.StatusLines.{status_text, status_number, class_kind_number};
ghost use Rattle.jx_top.specs.StatusLines.{code_kind_number, kind_number, asm_kind_number};
ghost use Rattle.jx_top.specs.StatusLines.{key_line, link_kind_number, link_line, plan_line};

use crate::defect::DefectKind;
use crate::status::Status;
use class_asm::AsmKind;
use jx_base::{ClassKind, CodeKind, Failed, Sink, Text};
use link_model::{LinkFault, LinkKind};
use page_text::Piece::{Number, Plain, Shown};
use page_text::put_line;
use system_text::PlanFault;

/// The number that the program ends with.
pub fn status_number(status: &Status) -> u8
    ensures { result ≡ status_number status.now }
{
    match status {
        Status::Done => 0,
        Status::Usage => 2,
        Status::ShelfFault => 3,
        Status::Missing(_) => 4,
        Status::BadPlan(_) => 5,
        Status::BadClass(_, _) => 6,
        Status::BadLink(_) => 7,
        Status::SinkFault => 8,
        Status::Halted => 9,
        Status::BadAsm(_) => 10,
        Status::TooLong(_) => 17,
        Status::OutOfMemory => 70,
        Status::NotYet(_) => 99,
    }
}

fn class_kind_number(kind: ClassKind) -> u8
    ensures { result ≡ class_kind_number kind }
{
    match kind {
        ClassKind::Truncated => 1,
        ClassKind::Magic => 2,
        ClassKind::Version => 3,
        ClassKind::Tag => 4,
        ClassKind::Index => 5,
        ClassKind::Utf8 => 6,
        ClassKind::Descriptor => 7,
        ClassKind::Code => 8,
        ClassKind::Unsupported => 9,
        ClassKind::Trailing => 10,
    }
}

fn code_kind_number(kind: CodeKind) -> u8
    ensures { result ≡ code_kind_number kind }
{
    match kind {
        CodeKind::Opcode => 11,
        CodeKind::Truncated => 12,
        CodeKind::Target => 13,
        CodeKind::LeftOut => 14,
        CodeKind::BadWide => 15,
        CodeKind::BadRange => 16,
    }
}

fn kind_number(kind: DefectKind) -> u8
    ensures { result ≡ kind_number kind }
{
    match kind {
        DefectKind::File(kind) => class_kind_number(kind),
        DefectKind::Code(kind) => code_kind_number(kind),
    }
}

fn asm_kind_number(kind: AsmKind) -> u8
    ensures { result ≡ asm_kind_number kind }
{
    match kind {
        AsmKind::Word => 1,
        AsmKind::Operand => 2,
        AsmKind::Label => 3,
        AsmKind::Twice => 4,
        AsmKind::Place => 5,
        AsmKind::Limit => 6,
    }
}

fn link_kind_number(kind: LinkKind) -> u8
    ensures { result ≡ link_kind_number kind }
{
    match kind {
        LinkKind::NoClass => 1,
        LinkKind::NoField => 2,
        LinkKind::NoMethod => 3,
        LinkKind::SuperLoop => 4,
        LinkKind::NoMain => 5,
        LinkKind::Twice => 6,
        LinkKind::Abstract => 7,
        LinkKind::BadConstant => 8,
        LinkKind::WrongName => 9,
    }
}

// Puts the line of a description with a fault of that number, and the key.
#[tactic(auto, unfolding(page_text::specs::Pieces::piece_text))]
fn put_key<K: Sink>(number: u64, key: &Text, sink: &mut K) -> Result<(), Failed>
    ensures { Puts (key_line number key.now) (K.state sink.old) (K.state sink.new) result }
{
    let words = [Plain("jx: bad plan"), Number(number), Shown(key.as_slice())];
    put_line(&words, sink)
}

fn put_plan_fault<K: Sink>(fault: &PlanFault, sink: &mut K) -> Result<(), Failed>
    ensures { Puts (plan_line fault.now) (K.state sink.old) (K.state sink.new) result }
{
    match fault {
        PlanFault::NotToml => put_line(&[Plain("jx: bad plan"), Number(1)], sink),
        PlanFault::Missing(key) => put_key(2, key, sink),
        PlanFault::Kind(key) => put_key(3, key, sink),
        PlanFault::Range(key) => put_key(4, key, sink),
        PlanFault::Twice(name) => put_key(5, name, sink),
        PlanFault::Unknown(key) => put_key(6, key, sink),
    }
}

#[tactic(auto, unfolding(page_text::specs::Pieces::piece_text))]
fn put_link_fault<K: Sink>(fault: &LinkFault, sink: &mut K) -> Result<(), Failed>
    ensures { Puts (link_line fault.now) (K.state sink.old) (K.state sink.new) result }
{
    put_line(
        &[
            Plain("jx: bad link"),
            Shown(fault.class.as_slice()),
            Plain("kind"),
            Number(u64::from(link_kind_number(fault.kind))),
            Shown(fault.name.as_slice()),
        ],
        sink,
    )
}

/// Puts the line of the status; Done has none.
#[tactic(auto, unfolding(page_text::specs::Pieces::piece_text))]
pub fn status_line<K: Sink>(status: &Status, sink: &mut K) -> Result<(), Failed>
    ensures { Puts (status_text status.now) (K.state sink.old) (K.state sink.new) result }
{
    match status {
        Status::Done => Ok(()),
        Status::Usage => put_line(&[Plain("jx: usage")], sink),
        Status::ShelfFault => put_line(&[Plain("jx: shelf fault")], sink),
        Status::Missing(name) => put_line(&[Plain("jx: missing"), Plain(name.as_str())], sink),
        Status::TooLong(name) => put_line(&[Plain("jx: too long"), Plain(name.as_str())], sink),
        Status::BadPlan(fault) => put_plan_fault(fault, sink),
        Status::BadLink(fault) => put_link_fault(fault, sink),
        Status::BadClass(name, defect) => put_line(
            &[
                Plain("jx: bad class"),
                Plain(name.as_str()),
                Plain("at"),
                Number(defect.at),
                Plain("kind"),
                Number(u64::from(kind_number(defect.kind))),
            ],
            sink,
        ),
        Status::BadAsm(fault) => put_line(
            &[
                Plain("jx: bad text line"),
                Number(u64::from(fault.line)),
                Plain("kind"),
                Number(u64::from(asm_kind_number(fault.kind))),
            ],
            sink,
        ),
        Status::SinkFault => put_line(&[Plain("jx: sink fault")], sink),
        Status::Halted => put_line(&[Plain("jx: halted")], sink),
        Status::NotYet(name) => put_line(&[Plain("jx: not yet"), Plain(name.as_str())], sink),
        Status::OutOfMemory => put_line(&[Plain("jx: out of memory")], sink),
    }
}
