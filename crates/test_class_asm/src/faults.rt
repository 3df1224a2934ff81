//! The first faulty line of a text, and the kind of its fault.

use crate::answers::{Told, assembled, told, with_body};
use std::test::Fail;
use test_files::HELLO_CLASS;

const WORD: u8 = 1;

const OPERAND: u8 = 2;

const LABEL: u8 = 3;

const TWICE: u8 = 4;

const PLACE: u8 = 5;

const LIMIT: u8 = 6;

const FIRST_TEXT: &[u8] = b"class 0x0021 Hello java/lang/Object\n\
method 0x0009 main ([Ljava/lang/String;)V 1 1\n\
ldc string \"hi\"\n\
invokestatic jx/Zero print (Ljava/lang/String;)V\n\
return\n\
end\n";

#[test]
fn the_first_class_is_assembled(rt: HostRuntime) {
    let alloc = rt.alloc();
    let Some(bytes) = assembled(alloc, FIRST_TEXT) else {
        panic!(rt; "the text is assembled");
    };
    assert_eq!(rt; bytes.as_slice(), HELLO_CLASS.as_slice());
}

// Whole texts.
static TEXTS: [(&[u8], Told); 34] = [
    (b"", Some((1, PLACE))),
    (b"\n", Some((2, PLACE))),
    (b"# nothing", Some((2, PLACE))),
    (b"class 0x0021 T U", None),
    (b"class 0x0021 T U\n", None),
    (b"#\n\nclass 0xfFaA T U\n# \xc3\xa9\n", None),
    (b"# \xff\nclass 0x0021 T U", Some((1, WORD))),
    (b"class 0x0021 T U\n\xc3", Some((2, WORD))),
    (b" class 0x0021 T U", Some((1, WORD))),
    (b"Class 0x0021 T U", Some((1, WORD))),
    (b":", Some((1, WORD))),
    (b"fadd", Some((1, WORD))),
    (b"class\x09 0x0021 T U", Some((1, WORD))),
    (b"class", Some((1, OPERAND))),
    (b"class 0x0021 T", Some((1, OPERAND))),
    (b"class 0x0021 T U V", Some((1, OPERAND))),
    (b"class 0x0021  T U", Some((1, OPERAND))),
    (b"class 0x0021 T U ", Some((1, OPERAND))),
    (b"class 0x021 T U", Some((1, OPERAND))),
    (b"class 0X0021 T U", Some((1, OPERAND))),
    (b"class 0x002g T U", Some((1, OPERAND))),
    (b"class 0x0021 \"T\" U", Some((1, OPERAND))),
    (b"class 0x0021 T U\r\n", None),
    (b"class 0x0021\r T U\n", Some((1, OPERAND))),
    (b"class 0x0021 T U\nclass 0x0021 T U", Some((2, PLACE))),
    (b"implements I", Some((1, PLACE))),
    (
        b"class 0x0021 T U\nfield 0x0000 f I\nimplements I",
        Some((3, PLACE)),
    ),
    (
        b"class 0x0021 T U\nabstract 0x0400 m ()V\nfield 0x0000 f I",
        Some((3, PLACE)),
    ),
    (b"class 0x0021 T U\nfield 0x0000 f ()V", Some((2, OPERAND))),
    (b"class 0x0021 T U\nabstract 0x0400 m I", Some((2, OPERAND))),
    (
        b"class 0x0021 T U\nmethod 0x0000 m F 1 1",
        Some((2, OPERAND)),
    ),
    (
        b"class 0x0021 T U\nmethod 0x0000 m ()F 1 65536",
        Some((2, OPERAND)),
    ),
    (
        b"class 0x0021 T U\nmethod 0x0000 m ()F 1 -0\nnop",
        Some((4, PLACE)),
    ),
    (
        b"class 0x0021 T U\nmethod 0x0000 m ()F 01 1\nend",
        Some((3, LIMIT)),
    ),
];

#[test]
fn texts_have_these_first_faults(rt: HostRuntime) {
    let alloc = rt.alloc();
    for (i, (text, answer)) in TEXTS.iter().enumerate() {
        assert_eq!(rt; told(alloc, text), *answer, "text {i}");
    }
}

// Bodies of a method that begins at line 2, so that their first line is line 3.
static BODIES: [(&[u8], Told); 56] = [
    (b"return\n", None),
    (b"x:\n", Some((4, LIMIT))),
    (b"x:\nnop\nx:\n", Some((5, TWICE))),
    (b"x:\ncatch x x x any\n", Some((5, LIMIT))),
    (b"nop\ncatch x y x any\nx:\ny:\n", Some((5, PLACE))),
    (b"nop\ncatch x y z any\nx:\ny:\n", Some((4, LABEL))),
    (b"x:\nnop\ny:\ncatch x y x any\n", None),
    (b"x:\nnop\ny:\ncatch y x x any\ncatch x y y T\n", None),
    (b"x:\nnop\ncatch x x x\n", Some((5, OPERAND))),
    (b"x:\nnop\ncatch x x x any\nx:\n", Some((6, TWICE))),
    (b"x:\nnop\ncatch x x x any\nnop\n", Some((6, PLACE))),
    (b"goto x\nx:\n", None),
    (b"x:\ngoto x\n", None),
    (b"goto x\n", Some((3, LABEL))),
    (b"goto\n", Some((3, OPERAND))),
    (b"goto x y\nx:\ny:\n", Some((3, OPERAND))),
    (b"goto \"x\"\n\"x\":\n", Some((3, OPERAND))),
    (b"goto y\nfadd\n", Some((3, LABEL))),
    (b"goto y\nfadd\ny:\n", Some((4, WORD))),
    (
        b"goto y\nend\nabstract 0x0400 m ()V\nmethod 0x0009 n ()V 1 1\ny:\nnop\n",
        Some((3, LABEL)),
    ),
    (b"goto y\nmethod 0x0009 n ()V 1 1\ny:\n", Some((4, PLACE))),
    (b"class: \n", Some((3, OPERAND))),
    (b"class:\ngoto class\n", None),
    (b"x:y:\ngoto x:y\n", None),
    (b"end x\n", Some((3, OPERAND))),
    (b"goto y\nend x\ny:\n", Some((3, LABEL))),
    (b"wide\n", Some((3, OPERAND))),
    (b"wide nop\n", Some((3, OPERAND))),
    (b"wide fload 1\n", Some((3, OPERAND))),
    (b"wide iload 65536\n", Some((3, OPERAND))),
    (b"nop 1\n", Some((3, OPERAND))),
    (b"bipush 128\n", Some((3, OPERAND))),
    (b"bipush -129\n", Some((3, OPERAND))),
    (b"bipush +1\n", Some((3, OPERAND))),
    (b"bipush -\n", Some((3, OPERAND))),
    (b"sipush 32768\n", Some((3, OPERAND))),
    (b"iload -1\n", Some((3, OPERAND))),
    (b"iload 256\n", Some((3, OPERAND))),
    (b"iinc 1 128\n", Some((3, OPERAND))),
    (b"newarray float\n", Some((3, OPERAND))),
    (b"multianewarray [I 0\n", Some((3, OPERAND))),
    (b"multianewarray [I 256\n", Some((3, OPERAND))),
    (b"ldc int 2147483648\n", Some((3, OPERAND))),
    (b"ldc long 1\n", Some((3, OPERAND))),
    (b"ldc2_w long -9223372036854775809\n", Some((3, OPERAND))),
    (b"ldc string hi\n", Some((3, OPERAND))),
    (b"ldc string \"\\u0041\"\n", Some((3, OPERAND))),
    (b"ldc string \"\\u000A\"\n", Some((3, OPERAND))),
    (b"ldc string \"\xc3\xa9\"\n", Some((3, OPERAND))),
    (b"ldc string \"a b\" c\n", Some((3, OPERAND))),
    (b"ldc string \"\n", Some((3, OPERAND))),
    (b"new\n", Some((3, OPERAND))),
    (b"getfield C f ()V\n", Some((3, OPERAND))),
    (b"invokestatic C m I\n", Some((3, OPERAND))),
    (b"tableswitch 2147483647 x x x\nx:\n", Some((3, OPERAND))),
    (b"lookupswitch x 1 x 1 x\nx:\n", Some((3, OPERAND))),
];

#[test]
fn bodies_have_these_first_faults(rt: HostRuntime) -> Result<(), Fail> {
    let alloc = rt.alloc();
    for (i, (body, answer)) in BODIES.iter().enumerate() {
        let text = with_body(alloc, body)?;
        assert_eq!(rt; told(alloc, text.as_slice()), *answer, "body {i}");
    }
    Ok(())
}
