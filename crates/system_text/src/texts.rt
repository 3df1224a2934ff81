//! Texts: keys, and lists of names.
ghost use Rattle.std.specs.Prelude.{◌≡◌, ◌++◌, IfOk};
ghost use Rattle.std.specs.Char.Escape.{encode_utf16};
ghost use Rattle.std.specs.Str.{bytes_eq};
ghost use Rattle.system_text.specs.Keys.{domain_key, has_text, units_of};
ghost use Rattle.system_text.specs.Scan.{texts_at};

use jx_base::{Listed, Name, OutOfMemory, Text, text_of};
use std::alloc::Global;

/// The key of a domain, counted from 0, as `domain[0].heap`.
#[tactic(auto, unfolding(crate::specs::Keys::domain_key))]
pub fn domain_key(alloc: Global, number: usize, key: &str) -> Result<Text, OutOfMemory>
    ensures { IfOk result (λ text. text ≡ domain_key number key.now) }
{
    let written = format!(in alloc; "domain[{number}].{key}")?;
    text_of(alloc, written.as_str())
}

fn push_char(units: &mut Vec<u16>, character: char) -> Result<(), OutOfMemory>
    ensures { IfOk result (λ _. units.new.items ≡ units.old.items ++ encode_utf16 character) }
{
    let mut pair = [0; 2];
    units.extend_from_slice(character.encode_utf16(&mut pair))?;
    Ok(())
}

/// The UTF-16 units of a text.
pub fn units_of(alloc: Global, text: &str) -> Result<Text, OutOfMemory>
    ensures { IfOk result (λ units. units ≡ units_of text.now) }
{
    let mut units = Vec::new(alloc);
    for character in text.chars() {
        push_char(&mut units, character)?;
    }
    Ok(Listed::from_vec(units))
}

/// The key of a domain, counted from 0, that may be any text.
#[tactic(auto, unfolding(crate::specs::Keys::domain_key))]
pub fn any_domain_key(alloc: Global, number: usize, key: &str) -> Result<Text, OutOfMemory>
    ensures { IfOk result (λ text. text ≡ domain_key number (units_of key.now)) }
{
    let written = format!(in alloc; "domain[{number}].")?;
    let mut units = text_of(alloc, written.as_str())?.into_vec();
    units.extend_from_slice(units_of(alloc, key)?.as_slice())?;
    Ok(Listed::from_vec(units))
}

/// A name of that text.
pub fn name_of(alloc: Global, text: &str) -> Result<Name, OutOfMemory>
    ensures { IfOk result (λ name. name ≡ text.now) }
{
    Ok(Name::from_string(String::from_str(alloc, text)?))
}

/// Names of those texts.
pub fn names_of(alloc: Global, texts: &[&str]) -> Result<Vec<Name>, OutOfMemory>
    ensures { IfOk result (λ names. names.items ≡ texts_at texts.now) }
{
    let mut names = Vec::with_capacity(alloc, texts.len())?;
    for text in texts {
        names.push(name_of(alloc, text)?)?;
    }
    Ok(names)
}

fn is_same(text: &str, other: &str) -> bool
    ensures { result ≡ bytes_eq text.now other.now }
{
    text == other
}

/// Whether the text is one of the others.
#[tactic(auto, unfolding(crate::specs::Keys::has_text))]
pub fn is_among(others: &[&str], text: &str) -> bool
    ensures { result ≡ has_text (texts_at others.now) text.now }
{
    others.iter().any(|other| is_same(text, other))
}
