//! Short forms in which cases write their classes.

use jx_base::OutOfMemory;
use std::alloc::Global;

// The text of a word: those in capitals are short forms.
fn written(word: &str) -> &str {
    match word {
        "CLASS" => "class 0x0021",
        "INTERFACE" => "class 0x0601",
        "OBJECT" => "java/lang/Object",
        "FIELD" => "field 0x0001",
        "SHARED" => "field 0x0009",
        "METHOD" => "method 0x0001",
        "STATIC" => "method 0x0009",
        "START" => "method 0x0009 main ([Ljava/lang/String;)V 9 9",
        "MAIN" => {
            "class 0x0021 Main java/lang/Object\nmethod 0x0009 main ([Ljava/lang/String;)V 9 9"
        }
        "MADE" => {
            "method 0x0001 <init> ()V 1 1\naload_0\ninvokespecial java/lang/Object <init> ()V\nreturn\nend"
        }
        "TEXT" => {
            "new java/lang/StringBuilder\ndup\ninvokespecial java/lang/StringBuilder <init> ()V"
        }
        "+I" => "invokevirtual java/lang/StringBuilder append (I)Ljava/lang/StringBuilder;",
        "+J" => "invokevirtual java/lang/StringBuilder append (J)Ljava/lang/StringBuilder;",
        "+C" => "invokevirtual java/lang/StringBuilder append (C)Ljava/lang/StringBuilder;",
        "+Z" => "invokevirtual java/lang/StringBuilder append (Z)Ljava/lang/StringBuilder;",
        "+S" => {
            "invokevirtual java/lang/StringBuilder append (Ljava/lang/String;)Ljava/lang/StringBuilder;"
        }
        "," => {
            "bipush 44\ninvokevirtual java/lang/StringBuilder append (C)Ljava/lang/StringBuilder;"
        }
        "SHOW" => {
            "invokevirtual java/lang/StringBuilder toString ()Ljava/lang/String;\ninvokestatic jx/Zero print (Ljava/lang/String;)V\nreturn"
        }
        "PRINT" => "invokestatic jx/Zero print (Ljava/lang/String;)V\nreturn",
        _ => word,
    }
}

/// The assembler text of a class whose lines are parted by `|`.
pub fn class_text(alloc: Global, short: &str) -> Result<String, OutOfMemory> {
    let mut text = String::new(alloc);
    for line in short.split('|') {
        for (place, word) in line.split(' ').enumerate() {
            if place > 0 {
                text.push(' ')?;
            }
            text.push_str(written(word))?;
        }
        text.push('\n')?;
    }
    Ok(text)
}

/// The description of a domain of these classes, whose names are parted by spaces, of which the
/// main class is `Main`.
pub fn description(
    alloc: Global,
    names: &str,
    heap: u32,
    fuel: u32,
) -> Result<String, OutOfMemory> {
    let mut classes = String::new(alloc);
    for name in names.split(' ') {
        classes.push_str(format!(in alloc; "'{name}', ")?.as_str())?;
    }
    format!(in alloc;
        "granules = 4096\n[[domain]]\nname = 'd'\nclasses = [{classes}]\n\
main = 'Main'\nheap = {heap}\nfuel = {fuel}\n"
    )
}
