//! What an entry costs, in words.
ghost use Rattle.std.specs.Prelude.{◌≡◌, ◌+◌, ◌<◌, ◌^◌};
ghost use Rattle.jx_model.specs.Journal as Spec;
ghost use Rattle.program_model.specs.ParcelParts as Parts;

use jx_base::{Act, Entry, Parcel, Reply};

#[tactic(auto, unfolding(program_model::specs::ParcelParts::parcel_words, program_model::specs::ParcelParts::node_cells))]
fn parcel_words(parcel: &Parcel) -> u32
    requires { Parts.parcel_words parcel.now < 2 ^ 32 }
    ensures { result ≡ Parts.parcel_words parcel.now }
{
    let mut words = parcel.roots.as_slice().len() as u32;
    for node in parcel.nodes.as_slice() {
        words += 2 + node.cells.as_slice().len() as u32;
    }
    words
}

// The words of an act's text or parcel.
#[tactic(auto, unfolding(jx_model::specs::Journal::act_words))]
fn act_words(act: &Act) -> u32
    requires { Spec.act_words act.now < 2 ^ 32 }
    ensures { result ≡ Spec.act_words act.now }
{
    match act {
        Act::Print(text) => text.as_slice().len() as u32,
        Act::Bind { name, .. } | Act::Lookup { name } | Act::Spawn { name } => {
            name.as_slice().len() as u32
        }
        Act::Call { parcel, .. } | Act::Return { parcel, .. } | Act::Throw { parcel, .. } => {
            parcel_words(parcel)
        }
        _ => 0,
    }
}

// The words of a reply's parcel.
#[tactic(auto, unfolding(jx_model::specs::Journal::reply_words))]
fn reply_words(reply: &Reply) -> u32
    requires { Spec.reply_words reply.now < 2 ^ 32 }
    ensures { result ≡ Spec.reply_words reply.now }
{
    match reply {
        Reply::Job { parcel, .. } | Reply::Value(parcel) | Reply::Thrown(parcel) => {
            parcel_words(parcel)
        }
        _ => 0,
    }
}

/// What an entry costs: 8 words, with those of the text or the parcels that it has.
#[tactic(auto, unfolding(jx_model::specs::Journal::entry_words))]
pub fn entry_words(entry: &Entry) -> u32
    requires { Spec.entry_words entry.now < 2 ^ 32 }
    ensures { result ≡ Spec.entry_words entry.now }
{
    8 + act_words(&entry.act) + reply_words(&entry.reply)
}
