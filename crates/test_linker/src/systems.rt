//! What is linked.

use crate::answers::Shown::{Above, Arrays, Constants, Counts, Fields};
use crate::cases::{A, B, Case, K, try_shown};
use std::test::Fail;

static ARRAYS: [Case; 9] = [
    ("A", &[A], Arrays, "28 [Ljava/lang/String; [Ljx/Memory;"),
    (
        "A",
        &[
            "CLASS A OBJECT|MAIN|newarray short|newarray boolean|newarray char|newarray byte|newarray long|newarray int|END",
        ],
        Arrays,
        "28 [Ljava/lang/String; [Ljx/Memory; [S [Z [C [B [J [I",
    ),
    (
        "A B",
        &["CLASS A OBJECT|MAIN|anewarray B|anewarray [I|END", B],
        Arrays,
        "29 [Ljava/lang/String; [Ljx/Memory; [LB; [I [[I",
    ),
    (
        "A B",
        &[
            "CLASS A OBJECT|MAIN|multianewarray [[[J 2|checkcast [[LB;|END",
            B,
        ],
        Arrays,
        "29 [Ljava/lang/String; [Ljx/Memory; [J [[J [[[J [LB; [[LB;",
    ),
    // catch types come behind the instructions of their method
    (
        "A",
        &[
            "CLASS A OBJECT|MAIN|a:|nop|b:|newarray long|return|catch a b a [[I|end|STATIC m ()V 1 1|newarray byte|END",
        ],
        Arrays,
        "28 [Ljava/lang/String; [Ljx/Memory; [J [I [[I [B",
    ),
    // those that are there already
    (
        "A",
        &[
            "CLASS A OBJECT|MAIN|anewarray java/lang/String|newarray int|instanceof [I|checkcast [[Ljx/Memory;|END",
        ],
        Arrays,
        "28 [Ljava/lang/String; [Ljx/Memory; [I [[Ljx/Memory;",
    ),
    // the class of a method
    (
        "A",
        &["CLASS A OBJECT|MAIN|invokevirtual [S equals (Ljava/lang/Object;)Z|END"],
        Arrays,
        "28 [Ljava/lang/String; [Ljx/Memory; [S",
    ),
    // descriptors alone
    (
        "A",
        &[
            "CLASS A OBJECT|field 0x0009 f [[C|MAIN|invokestatic A m ([[I)[J|getstatic A f [[C|END|STATIC m ([[I)[J 1 1|END",
        ],
        Arrays,
        "28 [Ljava/lang/String; [Ljx/Memory;",
    ),
    // list by list
    (
        "A B;C B",
        &[
            "CLASS A OBJECT|MAIN|newarray int|END",
            "CLASS B OBJECT|METHOD m ()V 1 1|newarray byte|END",
            "CLASS C OBJECT|MAIN|newarray int|newarray char|END",
        ],
        Arrays,
        "30 [Ljava/lang/String; [Ljx/Memory; [I [B [C",
    ),
];

static CLASSES: [Case; 13] = [
    (
        "A B K",
        &[
            A,
            "CLASS B OBJECT|METHOD m ()V 1 1|END|METHOD equals (Ljava/lang/Object;)Z 2 2|END",
            "INTERFACE K OBJECT|abstract 0x0401 m ()V",
        ],
        Counts,
        "32 83 38",
    ),
    (
        "A B;B A",
        &[A, "CLASS B OBJECT|MAIN|END"],
        Counts,
        "31 81 37",
    ),
    // supers and interfaces
    (
        "A B K",
        &["CLASS A B|implements K|implements jx/Portal|MAIN|END", B, K],
        Above(27),
        "28 29 18",
    ),
    ("A B K", &["CLASS A B|MAIN|END", B, K], Above(29), "0"),
    ("A", &[A], Above(28), "0"),
    ("A", &[A], Above(0), "none"),
    (
        "A",
        &["CLASS A jx/EndedException|MAIN|END"],
        Above(27),
        "22",
    ),
    // layouts: the fields of the super first
    (
        "A B",
        &[
            "CLASS A B|field 0x0009 s I|field 0x0001 z I|field 0x0009 t I|field 0x0001 x I|MAIN|END",
            "CLASS B OBJECT|field 0x0001 x I|field 0x0001 y I",
        ],
        Fields(27),
        "28.x 28.y 27.z 27.x / 27.s 27.t",
    ),
    (
        "A",
        &["CLASS A java/lang/RuntimeException|field 0x0001 x I|MAIN|END"],
        Fields(27),
        "3.message 27.x /",
    ),
    (
        "A B C",
        &[
            A,
            "CLASS B C|field 0x0001 b I",
            "CLASS C A|field 0x0009 s I|field 0x0001 c I",
        ],
        Fields(28),
        "29.c 28.b /",
    ),
    (
        "A K",
        &[
            "CLASS A OBJECT|implements K|field 0x0001 a I|MAIN|END",
            "INTERFACE K OBJECT|field 0x0001 k I|field 0x0019 f I",
        ],
        Fields(27),
        "27.a /",
    ),
    (
        "A K",
        &[
            "CLASS A OBJECT|implements K|field 0x0001 a I|MAIN|END",
            "INTERFACE K OBJECT|field 0x0001 k I|field 0x0019 f I",
        ],
        Fields(28),
        "28.k / 28.f",
    ),
    ("A", &[A], Fields(28), "/"),
];

// The class's own name and its super's are the constants 1 to 4, then come those of its interfaces
// and fields, and of main three.
static MEANINGS: [Case; 18] = [
    (
        "A",
        &[
            "CLASS A OBJECT|MAIN|ldc int -5|ldc string \"hi\"|ldc2_w long 9|new java/lang/Error|checkcast A|instanceof [Ljx/Memory;|END",
        ],
        Constants(27),
        "2=C27 8=-5 10='hi' 11=9L 14=C14 16=C29",
    ),
    (
        "A",
        &["CLASS A OBJECT|MAIN|a:|nop|b:|return|catch a b a java/lang/Throwable|end"],
        Constants(27),
        "9=C3",
    ),
    (
        "A B",
        &["CLASS A OBJECT|MAIN|checkcast [[LB;|END", B],
        Constants(27),
        "9=C32",
    ),
    (
        "A B",
        &["CLASS A OBJECT|MAIN|new B|END", B],
        Constants(28),
        "",
    ),
    // fields
    (
        "A",
        &[
            "CLASS A OBJECT|field 0x0009 f I|field 0x0001 g J|MAIN|getstatic A f I|putfield A g J|END",
        ],
        Constants(27),
        "13=S27.0 15=I27.0",
    ),
    (
        "A B",
        &[
            "CLASS A B|field 0x0009 f I|MAIN|getstatic A f I|getfield B f I|END",
            "CLASS B OBJECT|field 0x0001 f I",
        ],
        Constants(27),
        "11=S27.0 12=I28.0",
    ),
    (
        "A B K",
        &[
            "CLASS A B|implements K|MAIN|getstatic A f I|END",
            "CLASS B OBJECT|field 0x0009 f I",
            "INTERFACE K OBJECT|field 0x0019 f I",
        ],
        Constants(27),
        "13=S29.1",
    ),
    (
        "A K L N",
        &[
            "CLASS A OBJECT|implements K|implements L|MAIN|getstatic A f I|END",
            "INTERFACE K OBJECT|implements N",
            "INTERFACE L OBJECT|field 0x0019 f I",
            "INTERFACE N OBJECT|field 0x0019 f I",
        ],
        Constants(27),
        "15=S30.1",
    ),
    (
        "A B",
        &[
            "CLASS A B|MAIN|getstatic A f I|END",
            "CLASS B OBJECT|field 0x0009 e I|field 0x0009 f I",
        ],
        Constants(27),
        "11=S28.1",
    ),
    (
        "A B",
        &[
            "CLASS A B|field 0x0009 f J|MAIN|getstatic A f I|END",
            "CLASS B OBJECT|field 0x0009 f I",
        ],
        Constants(27),
        "12=S28.1",
    ),
    (
        "A B",
        &[
            "CLASS A B|field 0x0001 z I|MAIN|getfield A z I|getfield A y I|END",
            "CLASS B OBJECT|field 0x0001 x I|field 0x0001 y I",
        ],
        Constants(27),
        "11=I27.2 14=I28.1",
    ),
    (
        "A",
        &[
            "CLASS A java/lang/RuntimeException|field 0x0001 x I|MAIN|getfield A x I|getfield A message Ljava/lang/String;|END",
        ],
        Constants(27),
        "11=I27.1 15=I3.0",
    ),
    // methods
    (
        "A B K",
        &[
            "CLASS A B|implements K|MAIN|invokevirtual A m ()V|END",
            "CLASS B OBJECT|METHOD m ()V 1 1|END",
            "INTERFACE K OBJECT|abstract 0x0401 m ()V",
        ],
        Constants(27),
        "13=M80",
    ),
    (
        "A L N K",
        &[
            "CLASS A OBJECT|implements L|implements N|MAIN|invokevirtual A m ()V|END",
            "INTERFACE L OBJECT|implements K",
            "INTERFACE N OBJECT|implements K",
            "INTERFACE K OBJECT|abstract 0x0401 m ()V",
        ],
        Constants(27),
        "15=M80",
    ),
    (
        "A L N K",
        &[
            "CLASS A OBJECT|implements L|implements N|MAIN|invokevirtual A m ()V|END",
            "INTERFACE L OBJECT|implements K",
            "INTERFACE N OBJECT|implements K|abstract 0x0401 m ()V",
            "INTERFACE K OBJECT|abstract 0x0401 m ()V",
        ],
        Constants(27),
        "15=M81",
    ),
    (
        "A",
        &[
            "CLASS A OBJECT|MAIN|invokevirtual java/lang/String length ()I|invokespecial A <init> ()V|invokevirtual [I equals (Ljava/lang/Object;)Z|END",
        ],
        Constants(27),
        "13=M2 17=M0 23=M1",
    ),
    (
        "A K",
        &[
            "CLASS A OBJECT|MAIN|invokeinterface K equals (Ljava/lang/Object;)Z|END",
            K,
        ],
        Constants(27),
        "13=M1",
    ),
    (
        "A B",
        &[
            "CLASS A B|MAIN|invokespecial A m ()V|invokespecial B m ()V|END|METHOD m ()V 1 1|END",
            "CLASS B OBJECT|METHOD m ()V 1 1|END",
        ],
        Constants(27),
        "11=M80 12=M81",
    ),
];

#[test]
fn classes_are_linked_to_these_systems(rt: HostRuntime) -> Result<(), Fail> {
    for (lists, classes, shown, due) in ARRAYS.iter().chain(CLASSES.iter()).chain(MEANINGS.iter()) {
        try_shown(&rt, rt.alloc(), lists, classes, *shown, due)?;
    }
    Ok(())
}
