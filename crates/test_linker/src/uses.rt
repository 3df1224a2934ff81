//! First faults of what code uses constants as.

use crate::answers::{Shown, answer};
use crate::cases::{A, B, C, FaultCase, K, try_faults};
use crate::files::{Unlinked, assembled};
use crate::reading::linked_files;
use jx_base::System;
use std::alloc::Global;
use std::test::Fail;

const ABSTRACT_B: &str = "ABSTRACT B OBJECT|abstract 0x0401 m ()V|abstract 0x0409 s ()V";

const CALLED_K: &str = "INTERFACE K OBJECT|abstract 0x0401 m ()V|abstract 0x0409 s ()V";

// Two fields and two methods, of which f and m belong to instances and g and s to the class.
const MEMBERS: &str =
    "CLASS B OBJECT|field 0x0001 f I|field 0x0009 g I|METHOD m ()V 1 1|END|STATIC s ()V 1 1|END";

// Where the fault stands.
static PLACES: [FaultCase; 16] = [
    ("A", &["CLASS A OBJECT|MAIN|new Missing|END"], "1 A Missing"),
    (
        "A",
        &["CLASS A OBJECT|MAIN|nop|return|new Missing|end"],
        "1 A Missing",
    ),
    (
        "A",
        &["CLASS A OBJECT|STATIC m ()V 1 1|new Missing|END|MAIN|END"],
        "1 A Missing",
    ),
    (
        "A B",
        &[
            A,
            "CLASS B OBJECT|METHOD m ()V 1 1|END|METHOD n ()V 1 1|instanceof Missing|END",
        ],
        "1 B Missing",
    ),
    (
        "A;C A;C B A",
        &[
            A,
            C,
            "CLASS B OBJECT|METHOD m ()V 1 1|END|METHOD n ()V 1 1|new Missing|END",
        ],
        "1 B Missing",
    ),
    (
        "A;C A;C B A",
        &[
            A,
            C,
            "CLASS B OBJECT|METHOD m ()V 1 1|END|METHOD n ()V 1 1|getstatic B f I|END",
        ],
        "2 B f",
    ),
    (
        "A;C A;C B A",
        &[
            A,
            C,
            "CLASS B OBJECT|METHOD m ()V 1 1|END|METHOD n ()V 1 1|invokestatic B m ()V|END",
        ],
        "3 B m",
    ),
    (
        "A;C A;C B A",
        &[
            A,
            C,
            "CLASS B OBJECT|METHOD m ()V 1 1|END|METHOD n ()V 1 1|new jx/Zero|END",
        ],
        "7 B jx/Zero",
    ),
    (
        "A;C A;C B A",
        &[
            A,
            C,
            "CLASS B OBJECT|METHOD m ()V 1 1|END|METHOD n ()V 1 1|new [I|END",
        ],
        "8 B 10",
    ),
    // catch types
    (
        "A",
        &["CLASS A OBJECT|MAIN|a:|nop|b:|return|catch a b a any|end"],
        "linked",
    ),
    (
        "A",
        &["CLASS A OBJECT|MAIN|a:|nop|b:|return|catch a b a A|end"],
        "linked",
    ),
    (
        "A",
        &["CLASS A OBJECT|MAIN|a:|nop|b:|return|catch a b a any|catch a b a X|catch a b a Y|end"],
        "1 A X",
    ),
    (
        "A B",
        &[
            A,
            "CLASS B OBJECT|METHOD m ()V 1 1|a:|nop|b:|return|catch a b a A|catch a b a X|end",
        ],
        "1 B X",
    ),
    // which of two counts
    (
        "A",
        &["CLASS A OBJECT|MAIN|a:|nop|b:|new Y|return|catch a b a X|end"],
        "1 A Y",
    ),
    (
        "A",
        &["CLASS A OBJECT|MAIN|a:|nop|b:|return|catch a b a X|end|STATIC m ()V 1 1|new Y|END"],
        "1 A X",
    ),
    (
        "A B",
        &[
            "CLASS A OBJECT|MAIN|END|STATIC m ()V 1 1|new X|END",
            "CLASS B OBJECT|METHOD m ()V 1 1|new Y|END",
        ],
        "1 A X",
    ),
];

// What main of the class A does, beside a class B that is given, and the first fault.
type Body = (&'static str, &'static str, &'static str);

static CONSTANTS: [Body; 39] = [
    // classes that are known, and others
    (B, "checkcast B", "linked"),
    (B, "checkcast java/lang/String", "linked"),
    (B, "checkcast jx/RefusedException", "linked"),
    (B, "checkcast b", "1 A b"),
    (B, "checkcast LB;", "1 A LB;"),
    (B, "checkcast B;", "1 A B;"),
    (B, "checkcast [LB;", "linked"),
    (B, "checkcast [[[[LB;", "linked"),
    (B, "checkcast [[Ljx/Zero;", "linked"),
    (B, "checkcast [[LMissing;", "1 A [[LMissing;"),
    (B, "checkcast [B", "linked"),
    (B, "checkcast [LB", "1 A [LB"),
    (B, "checkcast [java/lang/String", "1 A [java/lang/String"),
    (B, "checkcast [L;", "1 A [L;"),
    (B, "checkcast [", "1 A ["),
    (B, "checkcast [F", "1 A [F"),
    (B, "checkcast [V", "1 A [V"),
    (B, "checkcast [II", "1 A [II"),
    (
        B,
        "checkcast [C|checkcast [I|checkcast [J|checkcast [S|checkcast [[Z",
        "linked",
    ),
    (B, "anewarray Missing", "1 A Missing"),
    (B, "anewarray [Lb;", "1 A [Lb;"),
    (B, "multianewarray [[Lb; 1", "1 A [[Lb;"),
    (B, "invokestatic Missing m ()V", "1 A Missing"),
    (B, "getstatic Missing f I", "1 A Missing"),
    (B, "getfield [Lb; length I", "1 A [Lb;"),
    (B, "invokeinterface Missing m ()V", "1 A Missing"),
    // tags and dimensions: the constants before are those of the class, its super and main, 1 to 7
    (B, "new [I", "8 A 9"),
    (B, "new [Lb;", "8 A 9"),
    (B, "checkcast B|new [I", "8 A 11"),
    (B, "multianewarray B 1", "8 A 9"),
    (B, "multianewarray [[I 3", "8 A 9"),
    (B, "multianewarray [Lb; 2", "8 A 9"),
    (
        B,
        "multianewarray [[I 2|multianewarray [[I 1|multianewarray [[LB; 2",
        "linked",
    ),
    // what new doesn't make
    (ABSTRACT_B, "new B", "7 A B"),
    (B, "new java/lang/String", "7 A java/lang/String"),
    (B, "new jx/Zero", "7 A jx/Zero"),
    (B, "new jx/Memory", "7 A jx/Memory"),
    (B, "new jx/Portal", "7 A jx/Portal"),
    (
        ABSTRACT_B,
        "new A|new java/lang/Object|new java/lang/Error|anewarray B|checkcast B",
        "linked",
    ),
];

static MEMBER_USES: [Body; 38] = [
    // fields
    (
        MEMBERS,
        "getfield B f I|putfield B f I|getstatic B g I|putstatic B g I",
        "linked",
    ),
    (MEMBERS, "getfield B h I", "2 A h"),
    (MEMBERS, "getfield B f J", "2 A f"),
    (MEMBERS, "getfield A f I", "2 A f"),
    (MEMBERS, "getfield B g I", "2 A g"),
    (MEMBERS, "putfield B g I", "2 A g"),
    (MEMBERS, "getstatic B f I", "2 A f"),
    (MEMBERS, "putstatic B f I", "2 A f"),
    (B, "getfield [I length I", "2 A length"),
    (
        B,
        "getfield java/lang/StringBuilder text Ljava/lang/String;",
        "linked",
    ),
    (
        B,
        "getfield java/lang/String text Ljava/lang/String;",
        "2 A text",
    ),
    (
        B,
        "getstatic java/lang/Error message Ljava/lang/String;",
        "2 A message",
    ),
    // methods
    (
        MEMBERS,
        "invokevirtual B m ()V|invokespecial B m ()V|invokeinterface B m ()V",
        "linked",
    ),
    (MEMBERS, "invokestatic B s ()V", "linked"),
    (MEMBERS, "invokevirtual B n ()V", "3 A n"),
    (MEMBERS, "invokevirtual B m (I)V", "3 A m"),
    (MEMBERS, "invokevirtual B m ()I", "3 A m"),
    (MEMBERS, "invokevirtual A m ()V", "3 A m"),
    (MEMBERS, "invokestatic B m ()V", "3 A m"),
    (MEMBERS, "invokevirtual B s ()V", "3 A s"),
    (MEMBERS, "invokespecial B s ()V", "3 A s"),
    (MEMBERS, "invokeinterface B s ()V", "3 A s"),
    (
        B,
        "invokevirtual [I clone ()Ljava/lang/Object;",
        "3 A clone",
    ),
    (
        B,
        "invokevirtual [LB; equals (Ljava/lang/Object;)Z",
        "linked",
    ),
    (B, "invokespecial B <init> ()V", "linked"),
    (B, "invokestatic B <init> ()V", "3 A <init>"),
    (
        B,
        "invokevirtual jx/Zero print (Ljava/lang/String;)V",
        "3 A print",
    ),
    (B, "invokestatic jx/Memory size ()I", "3 A size"),
    // abstract methods
    (
        ABSTRACT_B,
        "invokevirtual B m ()V|invokeinterface B m ()V",
        "linked",
    ),
    (ABSTRACT_B, "invokespecial B m ()V", "7 A m"),
    (ABSTRACT_B, "invokestatic B s ()V", "7 A s"),
    (ABSTRACT_B, "invokestatic B m ()V", "3 A m"),
    (ABSTRACT_B, "invokespecial B s ()V", "3 A s"),
    // which of two counts
    (B, "getstatic B f I|new Missing", "2 A f"),
    (B, "invokestatic B m ()V|new [I", "3 A m"),
    (ABSTRACT_B, "new B|invokespecial B m ()V", "7 A B"),
    (ABSTRACT_B, "invokespecial B m ()V|new B", "7 A m"),
    (B, "new [I|new Missing", "8 A 9"),
];

// The search for members that several classes have.
static SEARCHES: [FaultCase; 12] = [
    // a static field hides one of instances, and the other way round
    (
        "A B",
        &[
            "CLASS A B|field 0x0009 f I|MAIN|getfield A f I|END",
            "CLASS B OBJECT|field 0x0001 f I",
        ],
        "2 A f",
    ),
    (
        "A B",
        &[
            "CLASS A B|field 0x0001 f I|MAIN|getstatic A f I|END",
            "CLASS B OBJECT|field 0x0009 f I",
        ],
        "2 A f",
    ),
    // a field of instances that an interface has
    (
        "A K",
        &[
            "CLASS A OBJECT|MAIN|getfield K f I|END",
            "INTERFACE K OBJECT|field 0x0001 f I",
        ],
        "2 A f",
    ),
    (
        "A B K",
        &[
            "CLASS A B|implements K|MAIN|getfield A f I|END",
            "CLASS B OBJECT|field 0x0001 f I",
            "INTERFACE K OBJECT|field 0x0001 f I",
        ],
        "2 A f",
    ),
    (
        "A B K",
        &[
            "CLASS A B|implements K|MAIN|getfield A f I|END",
            "CLASS B OBJECT|field 0x0001 f I",
            "INTERFACE K OBJECT|field 0x0019 f I",
        ],
        "2 A f",
    ),
    (
        "A K",
        &[
            "CLASS A OBJECT|implements K|MAIN|getstatic A f I|END",
            "INTERFACE K OBJECT|field 0x0019 f I",
        ],
        "linked",
    ),
    // a static method hides one of instances
    (
        "A B",
        &[
            "CLASS A B|MAIN|invokevirtual A m ()V|END|STATIC m ()V 1 1|END",
            "CLASS B OBJECT|METHOD m ()V 1 1|END",
        ],
        "3 A m",
    ),
    // methods of interfaces
    ("A K", &["CLASS A OBJECT|MAIN|new K|END", K], "7 A K"),
    (
        "A K",
        &[
            "CLASS A OBJECT|implements K|MAIN|invokespecial A m ()V|END",
            CALLED_K,
        ],
        "7 A m",
    ),
    (
        "A K",
        &[
            "CLASS A OBJECT|implements K|MAIN|invokestatic A s ()V|END",
            CALLED_K,
        ],
        "7 A s",
    ),
    (
        "A K",
        &["CLASS A OBJECT|MAIN|invokeinterface K s ()V|END", CALLED_K],
        "3 A s",
    ),
    (
        "A B K",
        &[
            "CLASS A B|implements K|MAIN|invokespecial A m ()V|END",
            "CLASS B OBJECT|METHOD m ()V 1 1|END",
            CALLED_K,
        ],
        "linked",
    ),
];

// The system of a class A whose main has that body, and of the class B.
fn linked_beside(alloc: Global, class: &str, body: &str) -> Result<System, Unlinked> {
    let main = format!(in alloc; "CLASS A OBJECT|MAIN|{body}|END")?;
    let first = assembled(alloc, main.as_str())?;
    let second = assembled(alloc, class)?;
    linked_files(alloc, "A B", vec![in alloc; first, second]?)
}

#[test]
fn uses_of_constants_have_these_first_faults(rt: HostRuntime) -> Result<(), Fail> {
    let alloc = rt.alloc();
    try_faults(&rt, alloc, &PLACES)?;
    try_faults(&rt, alloc, &SEARCHES)?;
    for (class, body, due) in CONSTANTS.iter().chain(MEMBER_USES.iter()) {
        let answer = answer(alloc, linked_beside(alloc, class, body), Shown::Whole)?;
        assert_eq!(rt; answer.as_str(), *due, "{class}: {body}");
    }
    Ok(())
}
