//! The words of the command line.
ghost use Rattle.std.specs.Prelude.{◌≡◌, ◌≢◌, ◌++◌, ◌↔◌, ℕ, List, Some, None, IfOk, IsTrue};
ghost use Rattle.std.specs.Prelude.{IsErrOf, MatchOption, MatchResult, string_bytes, codes};
ghost use Rattle.jx_top.specs.Commands.{IsFileOf, IsClassFileName, IsSystemName, AsksFor};
ghost use Rattle.jx_top.specs.Commands.{AreVerbAndFile, AreVerbAndSystem, AsksForNothing};
ghost use Rattle.jx_top.specs.Commands.{command_of, texts, is_dashes, is_option, plain_word};
ghost use Rattle.jx_top.specs.Commands.{beside_dashes, place_word};

use crate::request::Request;
use jx_base::is_class_name;
use std::alloc::Global;

/// Why words are no request.
#[derive(Drop)]
pub enum WordsFault {
    Usage,
    OutOfMemory,
}

/// The class whose file this is.
pub fn class_of(file: &str) -> Option<&str>
    ensures { MatchOption result (IsClassFileName file.now → ⊥)
        (λ name. IsFileOf file.now name.now) }
{
    if file.len() > 255 {
        return None;
    }
    let name = file.strip_suffix(".class")?;
    if is_class_name(name.as_bytes()) {
        Some(name)
    } else {
        None
    }
}

// Whether the file can be that of a system: a name that ends in `.class` is that of a class.
fn is_system_file(file: &str) -> bool
    ensures { IsTrue result ↔ IsSystemName file.now }
{
    match class_of(file) {
        Some(_) => true,
        None => !file.ends_with(".class"),
    }
}

fn is_dashes(word: &str) -> bool
    ensures { result ≡ is_dashes word.now }
{
    matches!(word.as_bytes(), [b'-', b'-'])
}

fn is_option(word: &str) -> bool
    ensures { result ≡ is_option word.now }
{
    matches!(word.as_bytes(), [b'-', _, ..])
}

fn plain_word(word: &str) -> Option<&str>
    ensures { MatchOption result (plain_word word.now ≡ None)
        (λ plain. plain_word word.now ≡ Some plain.now) }
{
    if is_option(word) { None } else { Some(word) }
}

fn beside_dashes<'a>(first: &'a str, second: &'a str) -> Option<&'a str>
    ensures { MatchOption result (beside_dashes first.now second.now ≡ None)
        (λ word. beside_dashes first.now second.now ≡ Some word.now) }
{
    if is_dashes(first) {
        Some(second)
    } else if is_dashes(second) {
        plain_word(first)
    } else {
        None
    }
}

fn place_word(words: &[String]) -> Option<&str>
    ensures { MatchOption result (place_word (texts words.now) ≡ None)
        (λ word. place_word (texts words.now) ≡ Some word.now) }
{
    match words {
        [word] => plain_word(word.as_str()),
        [first, second] => beside_dashes(first.as_str(), second.as_str()),
        _ => None,
    }
}

// The file behind the verb.
fn file_behind<'a>(verb: &str, words: &'a [String]) -> Option<&'a str>
    ensures { MatchOption result
        ((file : List ℕ) → AreVerbAndFile verb.now (texts words.now) file → ⊥)
        (λ file. AreVerbAndFile verb.now (texts words.now) file.now) }
{
    let [first, rest @ ..] = words else {
        return None;
    };
    if first.as_str() != verb {
        return None;
    }
    let file = place_word(rest)?;
    if file.is_empty() || file.len() > 255 {
        return None;
    }
    Some(file)
}

// The file of a system behind the verb.
fn system_behind<'a>(verb: &str, words: &'a [String]) -> Option<&'a str>
    ensures { MatchOption result
        ((file : List ℕ) → AreVerbAndSystem verb.now (texts words.now) file → ⊥)
        (λ file. AreVerbAndSystem verb.now (texts words.now) file.now) }
{
    let file = file_behind(verb, words)?;
    if is_system_file(file) {
        Some(file)
    } else {
        None
    }
}

fn copy_of(alloc: Global, file: &str) -> Result<String, WordsFault>
    ensures { MatchResult result (λ copy. string_bytes copy ≡ file.now)
        (λ fault. fault ≡ WordsFault.OutOfMemory) }
{
    String::from_str(alloc, file).map_err(|_| WordsFault::OutOfMemory)
}

/// The request of the words behind the program's name.
pub fn read_words(alloc: Global, words: &[String]) -> Result<Request, WordsFault>
    ensures request { IfOk result (λ request. AsksFor (texts words.now) (command_of request)) }
    ensures usage { IsErrOf result WordsFault.Usage ↔ AsksForNothing (texts words.now) }
{
    if let Some(file) = system_behind("run", words) {
        let file = copy_of(alloc, file)?;
        return Ok(Request::Run { file, workers: 1 });
    }
    if let Some(file) = system_behind("check", words) {
        let file = copy_of(alloc, file)?;
        return Ok(Request::Check { file });
    }
    let Some(file) = file_behind("asm", words) else {
        return Err(WordsFault::Usage);
    };
    let file = copy_of(alloc, file)?;
    Ok(Request::Asm { file })
}
