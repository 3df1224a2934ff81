//! Sets of texts, which keep the order in which the texts came.
ghost use Rattle.std.specs.Prelude.{◌≡◌, IfOk, length, not, option_map, position};
ghost use Rattle.std.specs.Str.{bytes_eq};
ghost use Rattle.system_text.specs.Keys.{first_repeated, has_text};
ghost use Rattle.system_text.specs.Description.{place_in};
ghost use Rattle.system_text.specs.Scan.{capped, texts_at, with_new, with_all_new};

use crate::values::capped;
use indexmap::IndexSet;
use jx_base::OutOfMemory;
use std::alloc::Global;

/// Whether the text is in the set.
pub fn has_text(set: &IndexSet<&str>, text: &str) -> bool
    ensures { result ≡ has_text (texts_at set.now.keys) text.now }
{
    set.contains(text)
}

/// Puts a new text into the set, and says whether it was new.
pub fn insert<'a>(set: &mut IndexSet<&'a str>, text: &'a str) -> Result<bool, OutOfMemory>
    ensures added { IfOk result (λ added. added ≡ not (has_text (texts_at set.old.keys) text.now)) }
    ensures texts { IfOk result
        (λ _. texts_at set.new.keys ≡ with_new (texts_at set.old.keys) text.now) }
{
    Ok(set.insert(text)?)
}

/// Puts those of the texts into the set that are new, in their order.
pub fn insert_all<'a>(set: &mut IndexSet<&'a str>, texts: &[&'a str]) -> Result<(), OutOfMemory>
    ensures { IfOk result (λ _. texts_at set.new.keys
        ≡ with_all_new (texts_at set.old.keys) (texts_at texts.now)) }
{
    for text in texts {
        insert(set, text)?;
    }
    Ok(())
}

/// How many texts the set would have with those others.
pub fn count_with(alloc: Global, set: &IndexSet<&str>, texts: &[&str]) -> Result<usize, OutOfMemory>
    ensures { IfOk result (λ count. count
        ≡ length (with_all_new (texts_at set.now.keys) (texts_at texts.now))) }
{
    let mut fresh = IndexSet::new(alloc);
    for text in texts {
        if !has_text(set, text) {
            insert(&mut fresh, text)?;
        }
    }
    Ok(set.len() + fresh.len())
}

/// The first text that stood before.
pub fn first_repeated<'a>(alloc: Global, texts: &[&'a str]) -> Result<Option<&'a str>, OutOfMemory>
    ensures { IfOk result (λ text. option_map (λ text. text.now) text
        ≡ first_repeated (texts_at texts.now)) }
{
    let mut seen = IndexSet::new(alloc);
    for text in texts {
        if !insert(&mut seen, text)? {
            return Ok(Some(text));
        }
    }
    Ok(None)
}

fn place_of(set: &IndexSet<&str>, text: &str) -> Option<usize>
    ensures { result ≡ position (bytes_eq text.now) (texts_at set.now.keys) }
{
    set.get_index_of(text)
}

/// The place of the text in the set, or 0 where it isn't there.
#[tactic(auto, unfolding(crate::specs::Description::place_in))]
pub fn place_in(set: &IndexSet<&str>, text: &str) -> u32
    ensures { result ≡ capped (place_in (texts_at set.now.keys) text.now) }
{
    match place_of(set, text) {
        Some(place) => capped(place as u64),
        None => capped(0),
    }
}
