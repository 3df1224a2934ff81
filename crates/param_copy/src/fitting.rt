//! Which parcels fit a domain.
ghost use Rattle.std.specs.Prelude.{◌≡◌, map, replicate, length};
ghost use Rattle.program_model.specs.Parcels.{cell_fits, cells_fit, node_fits, fits_domain};
ghost use Rattle.program_model.specs.Parcels.{shape_of_word};
ghost use Rattle.program_types.specs.Shapes.{shape_state};

use jx_base::{Field, Node, Parcel, System, Word};
use program_types::{CHAR, MEMORY, STRING, Shape, knows_class, lies_in_type, shape_fits};

// What of a word decides which types it fits.
#[tactic(auto, unfolding(program_model::specs::Parcels::shape_of_word, program_model::specs::BuiltIn::memory_class))]
fn shape_of_word(nodes: &[Node], word: Word) -> Shape
    ensures { shape_state result ≡ shape_of_word nodes.now word }
{
    match word {
        Word::Int(number) => Shape::Int(number),
        Word::Long(_) => Shape::Long,
        Word::Null => Shape::Null,
        Word::Portal(_, iface) => Shape::Portal(iface.0),
        Word::Mem(_) => Shape::Object(MEMORY.0),
        Word::Node(place) => match nodes.get(place as usize) {
            Some(node) => Shape::Object(node.class.0),
            None => Shape::Unknown,
        },
    }
}

// Whether the word fits a cell of that type.
#[tactic(auto, unfolding(program_model::specs::Parcels::cell_fits, program_model::specs::Parcels::lies_in_cell))]
fn cell_fits(system: &System, nodes: &[Node], word: Word, kind: &[u16]) -> bool
    ensures { result ≡ cell_fits system.now nodes.now word kind.now }
{
    let shape = shape_of_word(nodes, word);
    if !shape_fits(system, false, shape, kind) {
        return false;
    }
    match shape {
        Shape::Int(number) => lies_in_type(number, kind),
        _ => true,
    }
}

// Whether all words fit cells of that type.
fn elements_fit(system: &System, nodes: &[Node], words: &[Word], kind: &[u16]) -> bool
    ensures { result ≡ cells_fit system.now nodes.now words.now
        (replicate (length words.now) kind.now) }
{
    for word in words {
        if !cell_fits(system, nodes, *word, kind) {
            return false;
        }
    }
    true
}

// Whether words fit the fields, one by one.
fn fields_fit(system: &System, nodes: &[Node], words: &[Word], fields: &[Field]) -> bool
    ensures { result ≡ cells_fit system.now nodes.now words.now
        (map (λ f. f.descriptor) fields.now) }
{
    if words.len() != fields.len() {
        return false;
    }
    for place in 0..words.len() {
        if !cell_fits(
            system,
            nodes,
            words[place],
            fields[place].descriptor.as_slice(),
        ) {
            return false;
        }
    }
    true
}

// Whether the node is of a class that domains of the template know, with cells that fit it.
#[tactic(auto, unfolding(program_model::specs::Parcels::node_fits, jx_base::specs::Basics::passes, program_model::specs::Lookup::cell_types, program_model::specs::Lookup::class_at, program_model::specs::BuiltIn::string_class))]
fn node_fits(system: &System, template: u32, nodes: &[Node], node: &Node) -> bool
    ensures { result ≡ node_fits system.now template nodes.now node.now }
{
    let class = node.class.0 as usize;
    if !knows_class(system, template, class) {
        return false;
    }
    let Some(found) = system.program.classes.as_slice().get(class) else {
        return false;
    };
    let cells = node.cells.as_slice();
    match &found.component {
        Some(component) => elements_fit(system, nodes, cells, component.as_slice()),
        None if class == STRING.0 as usize => elements_fit(system, nodes, cells, &[CHAR]),
        None => fields_fit(system, nodes, cells, found.fields.as_slice()),
    }
}

/// Whether a domain of the template can have the parcel: its domains know the classes of the nodes, and
/// each cell of a node fits its type. Takes no memory.
#[tactic(auto, unfolding(program_model::specs::Parcels::fits_domain))]
pub fn fits(parcel: &Parcel, template: u32, system: &System) -> bool
    ensures { result ≡ fits_domain system.now template parcel.now }
{
    let nodes = parcel.nodes.as_slice();
    nodes
        .iter()
        .all(|node| node_fits(system, template, nodes, node))
}
