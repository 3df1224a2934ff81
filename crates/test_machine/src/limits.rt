//! Where fuel, room and frames end, and code that breaks the rules.

use crate::cases::{Case, LimitCase, MainCase, try_cases, try_limits, try_mains};
use std::test::Fail;

static LIMITS: [LimitCase; 37] = [
    // fuel
    (4096, 0, "MAIN|nop|return|end", "no fuel"),
    (4096, 0, "MAIN|return|end", "no fuel"),
    (4096, 1, "MAIN|return|end", "ends"),
    (4096, 1, "MAIN|ldc string \"a\"|PRINT|end", "no fuel"),
    (4096, 2, "MAIN|ldc string \"a\"|PRINT|end", "a"),
    (
        4096,
        2,
        "MAIN|iconst_1|iconst_0|idiv|pop|return|end",
        "no fuel",
    ),
    (
        4096,
        3,
        "MAIN|iconst_1|iconst_0|idiv|pop|return|end",
        "throws java/lang/ArithmeticException",
    ),
    (
        4096,
        3,
        "MAIN|ldc string \"a\"|invokevirtual java/lang/String length ()I|pop|return|end",
        "no fuel",
    ),
    (
        4096,
        4,
        "MAIN|ldc string \"a\"|invokevirtual java/lang/String length ()I|pop|return|end",
        "ends",
    ),
    (4096, 10000, "MAIN|a:|goto a|end", "no fuel"),
    // past the code, at any fuel; what takes a value that isn't there, only where it runs
    (4096, 0, "MAIN|nop|end", "no fuel"),
    (4096, 1, "MAIN|nop|end", "bad code"),
    (4096, 2, "MAIN|nop|end", "bad code"),
    (
        4096,
        10000,
        "MAIN|invokestatic Main f ()V|return|end|STATIC f ()V 1 0|iconst_1|pop|end",
        "bad code",
    ),
    (4096, 1, "MAIN|nop|pop|return|end", "no fuel"),
    (4096, 2, "MAIN|nop|pop|return|end", "bad code"),
    // the heap: five cells are gone at the start
    (
        16,
        10000,
        "MAIN|bipush 9|newarray int|pop|return|end",
        "ends",
    ),
    (
        16,
        10000,
        "MAIN|bipush 10|newarray int|pop|return|end",
        "throws java/lang/OutOfMemoryError",
    ),
    (
        16,
        10000,
        "MAIN|iconst_3|newarray int|pop|iconst_4|newarray long|pop|return|end",
        "ends",
    ),
    (
        16,
        10000,
        "MAIN|iconst_3|newarray int|pop|iconst_5|newarray byte|pop|return|end",
        "throws java/lang/OutOfMemoryError",
    ),
    (
        16,
        10000,
        "MAIN|ldc string \"abcdefghi\"|PRINT|end",
        "abcdefghi",
    ),
    (
        16,
        10000,
        "MAIN|ldc string \"abcdefghij\"|PRINT|end",
        "throws java/lang/OutOfMemoryError",
    ),
    (
        16,
        10000,
        "MAIN|ldc string \"abcdefghi\"|pop|ldc string \"abcdefghi\"|PRINT|end",
        "abcdefghi",
    ),
    (
        16,
        10000,
        "MAIN|a:|bipush 10|newarray int|b:|pop|return|h:|pop|ldc string \"caught\"|PRINT|catch a b h java/lang/OutOfMemoryError|end",
        "caught",
    ),
    (
        4096,
        10000,
        "MAIN|ldc int 2147483647|newarray int|pop|return|end",
        "throws java/lang/OutOfMemoryError",
    ),
    (
        4096,
        10000,
        "MAIN|sipush 1000|sipush 1000|multianewarray [[I 2|pop|return|end",
        "throws java/lang/OutOfMemoryError",
    ),
    (
        4096,
        10000,
        "MAIN|a:|iconst_5|newarray int|pop|goto a|return|end",
        "throws java/lang/OutOfMemoryError",
    ),
    // an exception costs three cells
    (
        16,
        10000,
        "MAIN|bipush 6|newarray int|pop|iconst_1|iconst_0|idiv|pop|return|end",
        "throws java/lang/ArithmeticException",
    ),
    (
        16,
        10000,
        "MAIN|bipush 7|newarray int|pop|iconst_1|iconst_0|idiv|pop|return|end",
        "throws java/lang/OutOfMemoryError",
    ),
    // frames: 256, of 65,536 slots, of which main has 18
    (
        4096,
        10000,
        "MAIN|sipush 254|invokestatic Main f (I)V|return|end|STATIC f (I)V 2 1|iload_0|ifne more|return|more:|iload_0|iconst_1|isub|invokestatic Main f (I)V|return|end",
        "ends",
    ),
    (
        4096,
        10000,
        "MAIN|sipush 255|invokestatic Main f (I)V|return|end|STATIC f (I)V 2 1|iload_0|ifne more|return|more:|iload_0|iconst_1|isub|invokestatic Main f (I)V|return|end",
        "throws java/lang/StackOverflowError",
    ),
    (
        4096,
        10000,
        "MAIN|invokestatic Main f ()V|return|end|STATIC f ()V 0 0|invokestatic Main f ()V|return|end",
        "throws java/lang/StackOverflowError",
    ),
    (
        4096,
        10000,
        "MAIN|a:|invokestatic Main f ()V|b:|return|h:|pop|ldc string \"deep\"|PRINT|catch a b h java/lang/StackOverflowError|end|STATIC f ()V 0 0|invokestatic Main f ()V|return|end",
        "deep",
    ),
    (
        4096,
        10000,
        "MAIN|invokestatic Main f ()V|return|end|STATIC f ()V 0 65518|return|end",
        "ends",
    ),
    (
        4096,
        10000,
        "MAIN|invokestatic Main f ()V|return|end|STATIC f ()V 0 65519|return|end",
        "throws java/lang/StackOverflowError",
    ),
    (
        4096,
        10000,
        "CLASS Main OBJECT|method 0x0009 main ([Ljava/lang/String;)V 1 65535|return|end",
        "ends",
    ),
    (
        4096,
        10000,
        "CLASS Main OBJECT|method 0x0009 main ([Ljava/lang/String;)V 2 65535|return|end",
        "throws java/lang/StackOverflowError",
    ),
];

static BAD: [MainCase; 36] = [
    // a stack that is deeper than it may be
    (
        "MAIN|invokestatic Main f ()V|return|end|STATIC f ()V 2 0|iconst_1|iconst_1|return|end",
        "ends",
    ),
    (
        "MAIN|invokestatic Main f ()V|return|end|STATIC f ()V 1 0|iconst_1|iconst_1|return|end",
        "bad code",
    ),
    (
        "MAIN|invokestatic Main f ()V|return|end|STATIC f ()V 2 0|lconst_1|return|end",
        "ends",
    ),
    (
        "MAIN|invokestatic Main f ()V|return|end|STATIC f ()V 1 0|lconst_1|return|end",
        "bad code",
    ),
    (
        "MAIN|invokestatic Main f ()V|return|end|STATIC f ()V 1 0|iconst_1|dup|return|end",
        "bad code",
    ),
    (
        "MAIN|invokestatic Main f ()V|return|end|STATIC f ()V 0 0|ldc string \"a\"|return|end",
        "bad code",
    ),
    (
        "MAIN|invokestatic Main f ()V|return|end|STATIC f ()V 0 0|new java/lang/Object|return|end",
        "bad code",
    ),
    (
        "MAIN|invokestatic Main f ()V|return|end|STATIC f ()V 0 0|invokestatic Main g ()I|return|end|STATIC g ()I 1 0|iconst_1|ireturn|end",
        "bad code",
    ),
    // locals that are unset or missing, and half of a long
    ("MAIN|iload_1|pop|return|end", "bad code"),
    ("MAIN|iload 9|pop|return|end", "bad code"),
    ("MAIN|iconst_1|istore 9|return|end", "bad code"),
    ("MAIN|lconst_0|lstore 8|return|end", "bad code"),
    ("MAIN|lconst_0|lstore_1|iload_2|pop|return|end", "bad code"),
    ("MAIN|aload_0|pop|iload_0|pop|return|end", "bad code"),
    ("MAIN|lconst_0|pop|return|end", "bad code"),
    ("MAIN|iconst_1|pop2|return|end", "bad code"),
    ("MAIN|pop|return|end", "bad code"),
    // values of another kind or class
    ("MAIN|aconst_null|iconst_1|iadd|pop|return|end", "bad code"),
    ("MAIN|iconst_1|lconst_1|ladd|pop2|return|end", "bad code"),
    ("MAIN|iconst_1|ifnull a|a:|nop|return|end", "bad code"),
    ("MAIN|iconst_1|ireturn|return|end", "bad code"),
    ("MAIN|ldc string \"a\"|athrow|return|end", "bad code"),
    (
        "MAIN|ldc string \"a\"|arraylength|pop|return|end",
        "bad code",
    ),
    (
        "MAIN|iconst_1|newarray long|iconst_0|iaload|pop|return|end",
        "bad code",
    ),
    (
        "MAIN|iconst_1|newarray int|iconst_0|aaload|pop|return|end",
        "bad code",
    ),
    (
        "MAIN|iconst_1|newarray int|iconst_0|lconst_1|lastore|return|end",
        "bad code",
    ),
    (
        "MAIN|iconst_1|checkcast java/lang/Object|pop|return|end",
        "bad code",
    ),
    (
        "MAIN|aload_0|invokevirtual java/lang/String length ()I|pop|return|end",
        "bad code",
    ),
    (
        "MAIN|ldc string \"a\"|newarray int|pop|return|end",
        "bad code",
    ),
    (
        "CLASS Main OBJECT|FIELD x I|MADE|START|ldc string \"a\"|getfield Main x I|pop|return|end",
        "bad code",
    ),
    (
        "CLASS Main OBJECT|FIELD x I|MADE|START|new Main|dup|invokespecial Main <init> ()V|aconst_null|putfield Main x I|return|end",
        "bad code",
    ),
    (
        "CLASS Main OBJECT|SHARED t Ljava/lang/String;|START|aload_0|putstatic Main t Ljava/lang/String;|return|end",
        "bad code",
    ),
    (
        "MAIN|ldc string \"a\"|invokestatic Main g ([I)V|return|end|STATIC g ([I)V 1 1|return|end",
        "bad code",
    ),
    (
        "MAIN|invokestatic Main g ()Ljava/lang/String;|pop|return|end|STATIC g ()Ljava/lang/String; 1 0|iconst_0|newarray int|areturn|end",
        "bad code",
    ),
    (
        "MAIN|invokestatic Main g ()I|pop|return|end|STATIC g ()I 1 0|return|end",
        "bad code",
    ),
    (
        "MAIN|iconst_1|invokestatic Main g (I)V|return|end|STATIC g (I)V 1 0|return|end",
        "bad code",
    ),
];

static CLASSES: [Case; 1] = [
    // the selected method is absent
    (
        "Main K",
        &[
            "CLASS Main OBJECT|MADE|START|new Main|dup|invokespecial Main <init> ()V|invokeinterface K m ()V|return|end",
            "INTERFACE K OBJECT|abstract 0x0401 m ()V",
        ],
        "bad code",
    ),
];

#[test]
fn limits_and_bad_code_end_domains(rt: HostRuntime) -> Result<(), Fail> {
    let alloc = rt.alloc();
    try_limits(&rt, alloc, &LIMITS)?;
    try_mains(&rt, alloc, &BAD)?;
    try_cases(&rt, alloc, &CLASSES)
}
