//! First faults of classes by themselves and of main classes, and which of two faults counts.

use crate::cases::{A, B, C, FaultCase, K, try_faults};
use std::test::Fail;

// A class by itself.
static CLASSES: [FaultCase; 63] = [
    // the name
    ("A", &["CLASS X OBJECT|MAIN|END"], "9 A X"),
    ("A B", &[A, C], "9 B C"),
    ("C;A", &[C, "CLASS a OBJECT|MAIN|END"], "9 A a"),
    // the super
    ("A", &["CLASS A Missing|MAIN|END"], "1 A Missing"),
    ("A B C", &[A, B, "CLASS C Missing"], "1 C Missing"),
    ("A;C", &[A, "CLASS C Missing|MAIN|END"], "1 C Missing"),
    ("A B", &["CLASS A B|MAIN|END", B], "linked"),
    ("A B", &[A, "CLASS B A"], "linked"),
    ("A", &["CLASS A java/lang/Throwable|MAIN|END"], "linked"),
    ("A", &["CLASS A jx/RefusedException|MAIN|END"], "linked"),
    (
        "A",
        &["CLASS A java/lang/String|MAIN|END"],
        "1 A java/lang/String",
    ),
    (
        "A",
        &["CLASS A java/lang/StringBuilder|MAIN|END"],
        "1 A java/lang/StringBuilder",
    ),
    ("A", &["CLASS A jx/Portal|MAIN|END"], "1 A jx/Portal"),
    ("A", &["CLASS A jx/Memory|MAIN|END"], "1 A jx/Memory"),
    ("A", &["CLASS A [A|MAIN|END"], "1 A [A"),
    ("A K", &["CLASS A K|MAIN|END", K], "linked"),
    // the super of an interface
    ("A K", &[A, "INTERFACE K A"], "1 K A"),
    (
        "A K",
        &[A, "INTERFACE K java/lang/Throwable"],
        "1 K java/lang/Throwable",
    ),
    (
        "K",
        &["INTERFACE K OBJECT|method 0x0009 <clinit> ()V 1 1|END"],
        "5 K main",
    ),
    // the interfaces
    (
        "A",
        &["CLASS A OBJECT|implements Missing|MAIN|END"],
        "1 A Missing",
    ),
    (
        "A K",
        &["CLASS A OBJECT|implements K|implements Missing|MAIN|END", K],
        "1 A Missing",
    ),
    (
        "A K",
        &[
            "CLASS A OBJECT|implements M|implements K|implements N|MAIN|END",
            K,
        ],
        "1 A M",
    ),
    ("A B", &["CLASS A OBJECT|implements B|MAIN|END", B], "1 A B"),
    (
        "A",
        &["CLASS A OBJECT|implements java/lang/Object|MAIN|END"],
        "1 A java/lang/Object",
    ),
    (
        "A",
        &["CLASS A OBJECT|implements jx/Portal|MAIN|END"],
        "linked",
    ),
    (
        "A K",
        &[A, "INTERFACE K OBJECT|implements jx/Portal"],
        "linked",
    ),
    ("A K", &[A, "INTERFACE K OBJECT|implements A"], "1 K A"),
    // classes above themselves
    ("A", &["CLASS A A|MAIN|END"], "4 A A"),
    ("C A B", &[C, "CLASS A B", "CLASS B A"], "4 A A"),
    ("C B A", &[C, "CLASS B A", "CLASS A B"], "4 B B"),
    (
        "A B C",
        &["CLASS A B|MAIN|END", "CLASS B C", "CLASS C A"],
        "4 A A",
    ),
    (
        "A B C",
        &["CLASS A B|MAIN|END", "CLASS B C", "CLASS C B"],
        "4 B B",
    ),
    (
        "A B C",
        &["CLASS A C|MAIN|END", "CLASS B C", "CLASS C C"],
        "4 C C",
    ),
    (
        "A B C",
        &["CLASS A B|MAIN|END", "CLASS B C", "CLASS C OBJECT"],
        "linked",
    ),
    ("A K", &[A, "INTERFACE K OBJECT|implements K"], "4 K K"),
    (
        "A K L",
        &[
            "CLASS A OBJECT|implements L|MAIN|END",
            "INTERFACE K OBJECT|implements L",
            "INTERFACE L OBJECT|implements jx/Portal|implements K",
        ],
        "4 K K",
    ),
    ("C;A B", &[C, "CLASS A B|MAIN|END", "CLASS B A"], "4 A A"),
    ("A;A B", &["CLASS A B|MAIN|END", "CLASS B A"], "1 A B"),
    ("A;C;C A B", &[A, C, "CLASS B B"], "4 B B"),
    // members that stand twice
    (
        "A",
        &["CLASS A OBJECT|field 0x0001 f I|field 0x0001 f J|MAIN|END"],
        "linked",
    ),
    (
        "A",
        &["CLASS A OBJECT|field 0x0001 f I|field 0x0001 f I|MAIN|END"],
        "6 A f",
    ),
    (
        "A",
        &["CLASS A OBJECT|field 0x0001 f I|field 0x0009 f I|MAIN|END"],
        "6 A f",
    ),
    (
        "A",
        &[
            "CLASS A OBJECT|field 0x0001 f I|field 0x0001 g I|field 0x0001 g I|field 0x0001 f I|MAIN|END",
        ],
        "6 A g",
    ),
    (
        "A",
        &[
            "CLASS A OBJECT|field 0x0001 f I|field 0x0001 g I|field 0x0001 f I|field 0x0001 g I|MAIN|END",
        ],
        "6 A f",
    ),
    (
        "A B",
        &[
            A,
            "CLASS B OBJECT|METHOD m ()V 1 1|END|METHOD m ()V 2 2|END",
        ],
        "6 B m",
    ),
    (
        "A B",
        &[
            A,
            "CLASS B OBJECT|METHOD m ()V 1 1|END|abstract 0x0409 m ()V",
        ],
        "6 B m",
    ),
    (
        "A B",
        &[
            A,
            "CLASS B OBJECT|METHOD m ()V 1 1|END|METHOD m (I)V 1 2|END",
        ],
        "linked",
    ),
    (
        "A",
        &["CLASS A OBJECT|field 0x0001 f I|field 0x0001 f I|MAIN|END|MAIN|END"],
        "6 A f",
    ),
    (
        "A",
        &["CLASS A OBJECT|MAIN|END|METHOD m ()V 1 1|END|MAIN|END"],
        "6 A main",
    ),
    (
        "A;C;C A B",
        &[A, C, "CLASS B OBJECT|field 0x0001 f I|field 0x0001 f I"],
        "6 B f",
    ),
    // main
    ("A", &["CLASS A OBJECT"], "5 A main"),
    (
        "A",
        &["CLASS A OBJECT|METHOD main ([Ljava/lang/String;)V 1 1|END"],
        "5 A main",
    ),
    (
        "A",
        &["CLASS A OBJECT|abstract 0x0409 main ([Ljava/lang/String;)V"],
        "5 A main",
    ),
    ("A", &["CLASS A OBJECT|STATIC main ()V 1 1|END"], "5 A main"),
    (
        "A",
        &["CLASS A OBJECT|STATIC Main ([Ljava/lang/String;)V 1 1|END"],
        "5 A main",
    ),
    (
        "A",
        &["CLASS A OBJECT|STATIC main ([Ljava/lang/String;)I 1 1|END"],
        "5 A main",
    ),
    (
        "A",
        &["CLASS A OBJECT|STATIC main ()V 1 1|END|MAIN|END"],
        "linked",
    ),
    (
        "A",
        &["CLASS A OBJECT|method 0x0008 main ([Ljava/lang/String;)V 1 1|END"],
        "linked",
    ),
    ("A C", &["CLASS A C", C], "5 A main"),
    ("A;B", &[A, B], "5 B main"),
    ("A;A B;B A", &[A, B], "5 B main"),
    ("A;C;A C", &[A, C], "linked"),
    ("A B C;C B A", &[A, B, C], "linked"),
];

// Which of two faults counts.
static FIRST_ONES: [FaultCase; 24] = [
    // of one class
    ("A", &["CLASS X Missing|MAIN|END"], "9 A X"),
    (
        "A",
        &["CLASS A Super|implements Missing|MAIN|END"],
        "1 A Super",
    ),
    (
        "A",
        &["CLASS A A|implements Missing|MAIN|END"],
        "1 A Missing",
    ),
    (
        "A",
        &["CLASS A A|field 0x0001 f I|field 0x0001 f I|MAIN|END"],
        "4 A A",
    ),
    (
        "A",
        &["CLASS A Missing|field 0x0001 f I|field 0x0001 f I|MAIN|END"],
        "1 A Missing",
    ),
    // of two classes
    ("A B", &["CLASS A OBJECT|MAIN|END|MAIN|END", C], "6 A main"),
    (
        "A B",
        &["CLASS A B|MAIN|END|MAIN|END", "CLASS B Missing"],
        "6 A main",
    ),
    (
        "A B C;C B A",
        &[A, "CLASS B Y", "CLASS C Z|MAIN|END"],
        "1 B Y",
    ),
    (
        "A B D;C B A",
        &["CLASS A D|MAIN|END", "CLASS B D", "CLASS D OBJECT", C],
        "1 B D",
    ),
    // of the walks
    ("A B", &["CLASS A OBJECT", "CLASS B Missing"], "1 B Missing"),
    (
        "A B",
        &["CLASS A OBJECT|MAIN|new Missing|END", "CLASS B Super"],
        "1 B Super",
    ),
    (
        "A B",
        &[
            "CLASS A OBJECT",
            "CLASS B OBJECT|METHOD m ()V 1 1|new Missing|END",
        ],
        "5 A main",
    ),
    (
        "A",
        &["CLASS A OBJECT|STATIC main ()V 1 1|new Missing|END"],
        "5 A main",
    ),
    // of two lists
    (
        "A;B",
        &["CLASS A OBJECT|MAIN|new Missing|END", "CLASS B Super"],
        "1 A Missing",
    ),
    ("A;B", &["CLASS A OBJECT", "CLASS B Super"], "5 A main"),
    (
        "A;C;B",
        &[A, "CLASS C OBJECT|MAIN|new Missing|END", "CLASS X Y"],
        "1 C Missing",
    ),
    ("A;B;A", &[A, B], "5 B main"),
    // a class that only one of the lists has
    (
        "A B;C B",
        &[A, "CLASS B OBJECT|METHOD m ()V 1 1|new A|END", C],
        "1 B A",
    ),
    (
        "C B;A B",
        &[C, "CLASS B OBJECT|METHOD m ()V 1 1|new A|END", A],
        "1 B A",
    ),
    ("A C;C", &[A, "CLASS C A|MAIN|END"], "1 C A"),
    (
        "A K;A",
        &["CLASS A OBJECT|implements K|MAIN|END", K],
        "1 A K",
    ),
    (
        "A B;C A;A B",
        &["CLASS A OBJECT|MAIN|instanceof [[LB;|END", B, C],
        "1 A [[LB;",
    ),
    (
        "A B C;C A",
        &["CLASS A OBJECT|MAIN|invokevirtual C m ()V|END", B, C],
        "3 A m",
    ),
    ("A C;C A;C", &["CLASS A OBJECT|MAIN|new C|END", C], "linked"),
];

#[test]
fn classes_by_themselves_have_these_first_faults(rt: HostRuntime) -> Result<(), Fail> {
    try_faults(&rt, rt.alloc(), &CLASSES)?;
    try_faults(&rt, rt.alloc(), &FIRST_ONES)
}
