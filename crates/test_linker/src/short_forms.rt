//! Short forms in which cases write descriptions and classes.

use jx_base::OutOfMemory;
use std::alloc::Global;

// The text of a word: those in capitals are short forms.
fn written(word: &str) -> &str {
    match word {
        "CLASS" => "class 0x0021",
        "INTERFACE" => "class 0x0601",
        "ABSTRACT" => "class 0x0421",
        "OBJECT" => "java/lang/Object",
        "MAIN" => "method 0x0009 main ([Ljava/lang/String;)V 9 9",
        "METHOD" => "method 0x0001",
        "STATIC" => "method 0x0009",
        "END" => "return\nend",
        _ => word,
    }
}

/// The assembler text of a class whose lines are parted by `|`.
pub fn class_text(alloc: Global, short: &str) -> Result<String, OutOfMemory> {
    let mut text = String::new(alloc);
    for line in short.split('|') {
        for (place, word) in line.split(' ').enumerate() {
            if place > 0 {
                text.push(' ')?;
            }
            text.push_str(written(word))?;
        }
        text.push('\n')?;
    }
    Ok(text)
}

// The description of one domain.
fn domain(alloc: Global, place: usize, names: &str) -> Result<String, OutOfMemory> {
    let mut classes = String::new(alloc);
    for name in names.split(' ') {
        classes.push_str(format!(in alloc; "'{name}', ")?.as_str())?;
    }
    let main = names.split(' ').next().unwrap_or(names);
    format!(in alloc;
        "[[domain]]\nname = 'd{place}'\nclasses = [{classes}]\n\
main = '{main}'\nheap = 16\nfuel = 0\n"
    )
}

/// The description of a system in which each domain has a list of classes, the first of which is
/// its main class. The lists are parted by `;`.
pub fn description(alloc: Global, lists: &str) -> Result<String, OutOfMemory> {
    let mut text = String::from_str(alloc, "granules = 1\n")?;
    for (place, names) in lists.split(';').enumerate() {
        text.push_str(domain(alloc, place, names)?.as_str())?;
    }
    Ok(text)
}
