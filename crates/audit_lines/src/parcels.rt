//! The text of a parcel.
ghost use Rattle.std.specs.Prelude.{[], ◌∷◌, ◌++◌, map};
ghost use Rattle.std.specs.Fmt.{signed_decimal};
ghost use Rattle.std.specs.List.{flat_map};
ghost use Rattle.audit_model.specs.Audit.{class_text, node_text, parcel_text, word_text};
ghost use Rattle.audit_lines.specs.LineParts.{spaced_node, spaced_word};
ghost use Rattle.jx_base.specs.Texts.{spaced};
ghost use Rattle.page_text.specs.Writes.{Writes};

use crate::names::class_name;
use itoa::Buffer;
use jx_base::{ClassId, Failed, Node, Parcel, Sink, System, Word};
use page_text::{Page, Piece, write_words};

fn write_decimal<K: Sink>(number: i64, page: &mut Page, sink: &mut K) -> Result<(), Failed>
    ensures { Writes (signed_decimal number)
        (page.old, K.state sink.old) (page.new, K.state sink.new) result }
{
    let mut buffer = Buffer::new();
    page.write(buffer.format(number).as_bytes(), sink)
}

// Writes a mark and right behind it a number.
fn write_marked<K: Sink>(mark: u8, number: i64, page: &mut Page, sink: &mut K) -> Result<(), Failed>
    ensures { Writes (mark ∷ signed_decimal number)
        (page.old, K.state sink.old) (page.new, K.state sink.new) result }
{
    page.write_byte(mark, sink)?;
    write_decimal(number, page, sink)
}

// Writes a word of a parcel.
#[tactic(auto, unfolding(audit_model::specs::Audit::word_text))]
fn write_word<K: Sink>(word: Word, page: &mut Page, sink: &mut K) -> Result<(), Failed>
    ensures { Writes (word_text word)
        (page.old, K.state sink.old) (page.new, K.state sink.new) result }
{
    match word {
        Word::Int(n) => write_marked(b'i', i64::from(n), page, sink),
        Word::Long(n) => write_marked(b'l', n, page, sink),
        Word::Null => page.write_byte(b'n', sink),
        Word::Node(place) => write_marked(b'#', i64::from(place), page, sink),
        Word::Portal(service, _) => write_marked(b'p', i64::from(service.0), page, sink),
        Word::Mem(object) => write_marked(b'm', i64::from(object.0), page, sink),
    }
}

// Writes the word behind a space.
fn write_spaced_word<K: Sink>(word: Word, page: &mut Page, sink: &mut K) -> Result<(), Failed>
    ensures { Writes (spaced_word word)
        (page.old, K.state sink.old) (page.new, K.state sink.new) result }
{
    page.write_byte(b' ', sink)?;
    write_word(word, page, sink)
}

// Writes each word behind a space.
fn write_words_behind<K: Sink>(words: &[Word], page: &mut Page, sink: &mut K) -> Result<(), Failed>
    ensures { Writes (flat_map spaced_word words.now)
        (page.old, K.state sink.old) (page.new, K.state sink.new) result }
{
    for word in words {
        write_spaced_word(*word, page, sink)?;
    }
    Ok(())
}

// Writes the words with one space between.
fn write_cells<K: Sink>(cells: &[Word], page: &mut Page, sink: &mut K) -> Result<(), Failed>
    ensures { Writes (spaced (map word_text cells.now))
        (page.old, K.state sink.old) (page.new, K.state sink.new) result }
{
    match cells.split_first() {
        None => Ok(()),
        Some((first, rest)) => {
            write_word(*first, page, sink)?;
            write_words_behind(rest, page, sink)
        }
    }
}

// Writes the name of the class in quotes.
fn write_class<K: Sink>(
    system: &System,
    class: ClassId,
    page: &mut Page,
    sink: &mut K,
) -> Result<(), Failed>
    ensures { Writes (class_text system.now class.0)
        (page.old, K.state sink.old) (page.new, K.state sink.new) result }
{
    let name = class_name(system, class);
    write_words(&[Piece::Quoted(name)], page, sink)
}

// Writes a node: its class, and its cells in parentheses.
fn write_node<K: Sink>(
    system: &System,
    node: &Node,
    page: &mut Page,
    sink: &mut K,
) -> Result<(), Failed>
    ensures { Writes (node_text system.now node.now)
        (page.old, K.state sink.old) (page.new, K.state sink.new) result }
{
    write_class(system, node.class, page, sink)?;
    page.write_byte(b'(', sink)?;
    write_cells(node.cells.as_slice(), page, sink)?;
    page.write_byte(b')', sink)
}

// Writes the node behind a space.
fn write_spaced_node<K: Sink>(
    system: &System,
    node: &Node,
    page: &mut Page,
    sink: &mut K,
) -> Result<(), Failed>
    ensures { Writes (spaced_node system.now node.now)
        (page.old, K.state sink.old) (page.new, K.state sink.new) result }
{
    page.write_byte(b' ', sink)?;
    write_node(system, node, page, sink)
}

// Writes each node behind a space.
fn write_nodes_behind<K: Sink>(
    system: &System,
    nodes: &[Node],
    page: &mut Page,
    sink: &mut K,
) -> Result<(), Failed>
    ensures { Writes (flat_map (spaced_node system.now) nodes.now)
        (page.old, K.state sink.old) (page.new, K.state sink.new) result }
{
    for node in nodes {
        write_spaced_node(system, node, page, sink)?;
    }
    Ok(())
}

// Writes the nodes with one space between.
fn write_nodes<K: Sink>(
    system: &System,
    nodes: &[Node],
    page: &mut Page,
    sink: &mut K,
) -> Result<(), Failed>
    ensures { Writes (spaced (map (node_text system.now) nodes.now))
        (page.old, K.state sink.old) (page.new, K.state sink.new) result }
{
    match nodes.split_first() {
        None => Ok(()),
        Some((first, rest)) => {
            write_node(system, first, page, sink)?;
            write_nodes_behind(system, rest, page, sink)
        }
    }
}

/// Writes a parcel: its roots and its nodes in brackets.
pub fn write_parcel<K: Sink>(
    system: &System,
    parcel: &Parcel,
    page: &mut Page,
    sink: &mut K,
) -> Result<(), Failed>
    ensures { Writes (parcel_text system.now parcel.now)
        (page.old, K.state sink.old) (page.new, K.state sink.new) result }
{
    page.write_byte(b'[', sink)?;
    write_cells(parcel.roots.as_slice(), page, sink)?;
    page.write_byte(b'|', sink)?;
    write_nodes(system, parcel.nodes.as_slice(), page, sink)?;
    page.write_byte(b']', sink)
}
