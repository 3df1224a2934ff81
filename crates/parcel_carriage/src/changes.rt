//! What becomes of the memory objects of a parcel, each changed once.
ghost use Rattle.std.specs.Prelude.{◌≡◌, ℕ, false, true};
ghost use Rattle.std.specs.List.{list_any};
ghost use Rattle.std.specs.Option.{option_map};
ghost use Rattle.memory_objects.specs.ObjectLists.{with_record};
ghost use Rattle.memory_space.specs.SpaceLists.{objects_in, with_objects};
ghost use Rattle.parcel_carriage.specs.Changes as Spec;
ghost use Rattle.parcel_carriage.specs.Changes.{Allows, changed_by, is_among, is_met, is_new};
ghost use Rattle.parcel_carriage.specs.Changes.{stands_in, unmet, with_those};

use jx_base::{DomainId, Node, ObjectId, Parcel, Word};
use memory_space::Space;

/// What becomes of a memory object that a parcel carries.
#[derive(Clone, Copy)]
pub enum Change {
    Give(DomainId),
    Ride,
    Land,
}

impl Change {
    // Changes one object.
    fn apply(self, space: &mut Space, object: ObjectId)
        requires { Allows self (objects_in space.old) object.0 }
        ensures { space.new ≡ with_objects space.old
            (with_record (objects_in space.old) object.0 (changed_by self)) }
    {
        match self {
            Change::Give(domain) => space.hold(domain, object),
            Change::Ride => space.ride(object),
            Change::Land => space.land(object),
        }
    }
}

// Whether the word is that object.
#[tactic(auto, unfolding(program_model::specs::ParcelParts::word_object, jx_base::specs::Basics::contains_number))]
fn is_object(word: Word, object: ObjectId) -> bool
    ensures { result ≡ Spec.is_object object.0 word }
{
    match word {
        Word::Mem(other) => other == object,
        _ => false,
    }
}

// Whether the object is among the words.
fn has_object(words: &[Word], object: ObjectId) -> bool
    ensures { result ≡ is_among words.now object.0 }
{
    words.iter().any(|word| is_object(*word, object))
}

// Whether the object is among the cells of the nodes.
fn nodes_have_object(nodes: &[Node], object: ObjectId) -> bool
    ensures { result ≡ list_any (λ n. is_among n.cells object.0) nodes.now }
{
    nodes
        .iter()
        .any(|node| has_object(node.cells.as_slice(), object))
}

// Whether the object stands in those roots or nodes.
fn is_carried(roots: &[Word], nodes: &[Node], object: ObjectId) -> bool
    ensures { result ≡ stands_in roots.now nodes.now object.0 }
{
    has_object(roots, object) || nodes_have_object(nodes, object)
}

// The object that the word is, unless it stands in the roots, the nodes or the words before.
fn new_object(roots: &[Word], nodes: &[Node], words: &[Word], word: Word) -> Option<ObjectId>
    ensures { option_map (λ o. o.0) result
        ≡ unmet (is_met roots.now nodes.now words.now) word }
{
    match word {
        Word::Mem(object) if is_carried(roots, nodes, object) => None,
        Word::Mem(object) if has_object(words, object) => None,
        Word::Mem(object) => Some(object),
        _ => None,
    }
}

// Changes each object of the words, but for those that stand in the roots or the nodes before.
fn change_words(space: &mut Space, change: Change, roots: &[Word], nodes: &[Node], words: &[Word])
    requires { (m : ℕ) → is_among words.now m ≡ true → stands_in roots.now nodes.now m ≡ false →
        Allows change (objects_in space.old) m }
    ensures { space.new ≡ with_objects space.old
        (with_those change (is_new roots.now nodes.now words.now) (objects_in space.old)) }
{
    for (place, word) in words.iter().enumerate() {
        if let Some(object) = new_object(roots, nodes, &words[..place], *word) {
            change.apply(space, object);
        }
    }
}

/// Changes each object of the parcel once, however often it stands there.
pub fn change_each(space: &mut Space, change: Change, parcel: &Parcel)
    requires { (m : ℕ) → stands_in parcel.now.roots parcel.now.nodes m ≡ true →
        Allows change (objects_in space.old) m }
    ensures { space.new ≡ with_objects space.old
        (with_those change (stands_in parcel.now.roots parcel.now.nodes) (objects_in space.old)) }
{
    let roots = parcel.roots.as_slice();
    let nodes = parcel.nodes.as_slice();
    change_words(space, change, &[], &[], roots);
    for (place, node) in nodes.iter().enumerate() {
        change_words(space, change, roots, &nodes[..place], node.cells.as_slice());
    }
}
