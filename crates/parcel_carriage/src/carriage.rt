//! What a parcel's portals and memory objects say of the tables, and what the tables make of them.
ghost use Rattle.std.specs.Prelude.{◌≡◌, ◌&&◌, ℕ, true};
ghost use Rattle.std.specs.List.{AllByRecursion, list_all};
ghost use Rattle.domain_flags.specs.FlagLists.{IsDomain};
ghost use Rattle.memory_objects.specs.ObjectLists.{CanRide, IsKept, IsRiding};
ghost use Rattle.memory_space.specs.SpaceLists.{objects_in, with_objects};
ghost use Rattle.parcel_carriage.specs.Carriage.{holds_parcel, with_given, with_portals};
ghost use Rattle.parcel_carriage.specs.Carriage.{with_riders, without_riders};
ghost use Rattle.parcel_carriage.specs.Words as Spec;
ghost use Rattle.parcel_carriage.specs.Words.{has_portal, with_held};
ghost use Rattle.portal_table.specs.ServiceLists.{IsService};
ghost use Rattle.program_model.specs.ParcelParts.{parcel_objects, parcel_portals};

use crate::changes::{Change, change_each};
use jx_base::{DomainId, Node, Parcel, Word};
use memory_objects::Objects;
use memory_space::Space;
use portal_table::Services;

// Whether the domain holds the portal or the memory object that the word may be.
#[tactic(auto, unfolding(program_model::specs::ParcelParts::word_object, program_model::specs::ParcelParts::word_portal))]
fn holds_word(services: &Services, objects: &Objects, domain: DomainId, word: Word) -> bool
    ensures { result ≡ Spec.holds_word services.now objects.now.records domain.0 word }
{
    match word {
        Word::Portal(service, _) => services.holds(domain, service),
        Word::Mem(object) => objects.holds(domain, object),
        _ => true,
    }
}

// Whether it holds all that the words are.
fn holds_words(services: &Services, objects: &Objects, domain: DomainId, words: &[Word]) -> bool
    ensures { result
        ≡ list_all (Spec.holds_word services.now objects.now.records domain.0) words.now }
{
    words
        .iter()
        .all(|word| holds_word(services, objects, domain, *word))
}

// Whether it holds all that the cells of the nodes are.
fn holds_nodes(services: &Services, objects: &Objects, domain: DomainId, nodes: &[Node]) -> bool
    ensures { result ≡ list_all
        (λ n. list_all (Spec.holds_word services.now objects.now.records domain.0) n.cells)
        nodes.now }
{
    nodes.iter().all(|node| holds_words(services, objects, domain, node.cells.as_slice()))
}

/// Whether the domain holds each portal and each memory object of the parcel.
pub fn holds_all(services: &Services, objects: &Objects, domain: DomainId, parcel: &Parcel) -> bool
    ensures { result ≡ holds_parcel services.now objects.now.records domain.0 parcel.now }
{
    holds_words(services, objects, domain, parcel.roots.as_slice())
        && holds_nodes(services, objects, domain, parcel.nodes.as_slice())
}

// Gives the domain each portal among the words.
fn give_words(services: &mut Services, domain: DomainId, words: &[Word])
    requires domain { IsDomain domain.0 }
    requires services { (k : ℕ) → has_portal words.now k ≡ true → IsService services.old k }
    ensures { services.new ≡ with_held domain.0 (has_portal words.now) services.old }
{
    for word in words {
        if let Word::Portal(service, _) = *word {
            services.hold(domain, service);
        }
    }
}

/// Gives the domain each portal of the parcel.
pub fn give_portals(services: &mut Services, domain: DomainId, parcel: &Parcel)
    requires domain { IsDomain domain.0 }
    requires services { AllByRecursion (IsService services.old) (parcel_portals parcel.now) }
    ensures { services.new ≡ with_portals domain.0 parcel.now services.old }
{
    give_words(services, domain, parcel.roots.as_slice());
    for node in parcel.nodes.as_slice() {
        give_words(services, domain, node.cells.as_slice());
    }
}

/// Lets the domain hold each memory object of the parcel.
pub fn give_objects(space: &mut Space, domain: DomainId, parcel: &Parcel)
    requires domain { IsDomain domain.0 }
    requires kept { AllByRecursion (IsKept (objects_in space.old)) (parcel_objects parcel.now) }
    ensures { space.new ≡ with_objects space.old
        (with_given domain.0 parcel.now (objects_in space.old)) }
{
    change_each(space, Change::Give(domain), parcel);
}

/// Counts one call more for each memory object of the parcel, which counts once.
pub fn ride(space: &mut Space, parcel: &Parcel)
    requires kept { AllByRecursion (IsKept (objects_in space.old)) (parcel_objects parcel.now) }
    requires few { AllByRecursion (CanRide (objects_in space.old)) (parcel_objects parcel.now) }
    ensures { space.new ≡ with_objects space.old
        (with_riders parcel.now (objects_in space.old)) }
{
    change_each(space, Change::Ride, parcel);
}

/// Counts one call less for each memory object of the parcel.
pub fn land(space: &mut Space, parcel: &Parcel)
    requires { AllByRecursion (IsRiding (objects_in space.old)) (parcel_objects parcel.now) }
    ensures { space.new ≡ with_objects space.old
        (without_riders parcel.now (objects_in space.old)) }
{
    change_each(space, Change::Land, parcel);
}
