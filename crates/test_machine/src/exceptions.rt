//! What code throws, and what catches it.

use crate::cases::{Case, MainCase, try_cases, try_mains};
use std::test::Fail;

static THROWN: [MainCase; 41] = [
    // division
    (
        "MAIN|iconst_1|iconst_0|idiv|pop|return|end",
        "throws java/lang/ArithmeticException",
    ),
    (
        "MAIN|iconst_0|iconst_0|irem|pop|return|end",
        "throws java/lang/ArithmeticException",
    ),
    (
        "MAIN|lconst_1|lconst_0|ldiv|pop2|return|end",
        "throws java/lang/ArithmeticException",
    ),
    (
        "MAIN|lconst_1|lconst_0|lrem|pop2|return|end",
        "throws java/lang/ArithmeticException",
    ),
    // null
    (
        "CLASS Main OBJECT|FIELD x I|MADE|START|aconst_null|getfield Main x I|pop|return|end",
        "throws java/lang/NullPointerException",
    ),
    (
        "CLASS Main OBJECT|FIELD x I|MADE|START|aconst_null|iconst_1|putfield Main x I|return|end",
        "throws java/lang/NullPointerException",
    ),
    (
        "MAIN|aconst_null|iconst_m1|iaload|pop|return|end",
        "throws java/lang/NullPointerException",
    ),
    (
        "MAIN|aconst_null|iconst_m1|iconst_1|iastore|return|end",
        "throws java/lang/NullPointerException",
    ),
    (
        "MAIN|aconst_null|iconst_0|laload|pop2|return|end",
        "throws java/lang/NullPointerException",
    ),
    (
        "MAIN|aconst_null|iconst_0|baload|pop|return|end",
        "throws java/lang/NullPointerException",
    ),
    (
        "MAIN|aconst_null|iconst_0|aaload|pop|return|end",
        "throws java/lang/NullPointerException",
    ),
    (
        "MAIN|aconst_null|iconst_0|aconst_null|aastore|return|end",
        "throws java/lang/NullPointerException",
    ),
    (
        "MAIN|aconst_null|arraylength|pop|return|end",
        "throws java/lang/NullPointerException",
    ),
    (
        "MAIN|aconst_null|athrow|return|end",
        "throws java/lang/NullPointerException",
    ),
    (
        "MAIN|aconst_null|invokevirtual java/lang/String length ()I|pop|return|end",
        "throws java/lang/NullPointerException",
    ),
    (
        "MAIN|aconst_null|aconst_null|invokevirtual java/lang/Object equals (Ljava/lang/Object;)Z|pop|return|end",
        "throws java/lang/NullPointerException",
    ),
    (
        "MAIN|ldc string \"a\"|aconst_null|invokevirtual java/lang/String concat (Ljava/lang/String;)Ljava/lang/String;|pop|return|end",
        "throws java/lang/NullPointerException",
    ),
    (
        "MAIN|aconst_null|invokespecial java/lang/Object <init> ()V|return|end",
        "throws java/lang/NullPointerException",
    ),
    (
        "MAIN|aconst_null|invokestatic jx/Zero print (Ljava/lang/String;)V|return|end",
        "throws java/lang/NullPointerException",
    ),
    // places and sizes
    (
        "MAIN|iconst_2|newarray int|iconst_2|iaload|pop|return|end",
        "throws java/lang/ArrayIndexOutOfBoundsException",
    ),
    (
        "MAIN|iconst_2|newarray int|iconst_m1|iaload|pop|return|end",
        "throws java/lang/ArrayIndexOutOfBoundsException",
    ),
    (
        "MAIN|iconst_2|newarray int|iconst_2|iconst_0|iastore|return|end",
        "throws java/lang/ArrayIndexOutOfBoundsException",
    ),
    (
        "MAIN|iconst_0|newarray long|iconst_0|laload|pop2|return|end",
        "throws java/lang/ArrayIndexOutOfBoundsException",
    ),
    (
        "MAIN|aload_0|iconst_0|aaload|pop|return|end",
        "throws java/lang/ArrayIndexOutOfBoundsException",
    ),
    (
        "MAIN|iconst_1|anewarray java/lang/String|iconst_1|aload_0|aastore|return|end",
        "throws java/lang/ArrayIndexOutOfBoundsException",
    ),
    (
        "MAIN|ldc string \"abc\"|iconst_3|invokevirtual java/lang/String charAt (I)C|pop|return|end",
        "throws java/lang/StringIndexOutOfBoundsException",
    ),
    (
        "MAIN|ldc string \"\"|iconst_0|invokevirtual java/lang/String charAt (I)C|pop|return|end",
        "throws java/lang/StringIndexOutOfBoundsException",
    ),
    (
        "MAIN|ldc string \"abc\"|iconst_m1|invokevirtual java/lang/String charAt (I)C|pop|return|end",
        "throws java/lang/StringIndexOutOfBoundsException",
    ),
    (
        "MAIN|iconst_m1|newarray int|pop|return|end",
        "throws java/lang/NegativeArraySizeException",
    ),
    (
        "MAIN|iconst_m1|anewarray java/lang/String|pop|return|end",
        "throws java/lang/NegativeArraySizeException",
    ),
    (
        "MAIN|iconst_0|iconst_m1|multianewarray [[I 2|pop|return|end",
        "throws java/lang/NegativeArraySizeException",
    ),
    (
        "MAIN|ldc int -2147483648|newarray byte|pop|return|end",
        "throws java/lang/NegativeArraySizeException",
    ),
    // elements and casts
    (
        "CLASS Main OBJECT|FIELD x I|MADE|START|iconst_1|anewarray java/lang/String|iconst_0|new Main|dup|invokespecial Main <init> ()V|aastore|return|end",
        "throws java/lang/ArrayStoreException",
    ),
    (
        "MAIN|iconst_1|anewarray [I|iconst_0|iconst_0|newarray byte|aastore|return|end",
        "throws java/lang/ArrayStoreException",
    ),
    (
        "MAIN|iconst_1|anewarray java/lang/String|iconst_0|aconst_null|aastore|return|end",
        "ends",
    ),
    (
        "MAIN|iconst_1|anewarray java/lang/Object|iconst_0|iconst_0|newarray byte|aastore|return|end",
        "ends",
    ),
    (
        "MAIN|ldc string \"a\"|checkcast Main|pop|return|end",
        "throws java/lang/ClassCastException",
    ),
    (
        "MAIN|iconst_0|newarray int|checkcast [J|pop|return|end",
        "throws java/lang/ClassCastException",
    ),
    (
        "MAIN|new java/lang/Object|checkcast java/lang/String|pop|return|end",
        "throws java/lang/ClassCastException",
    ),
    // what is thrown by the code, and by an initialiser
    (
        "MAIN|new java/lang/RuntimeException|dup|ldc string \"why\"|invokespecial java/lang/RuntimeException <init> (Ljava/lang/String;)V|athrow|return|end",
        "throws java/lang/RuntimeException",
    ),
    (
        "CLASS Main OBJECT|method 0x0008 <clinit> ()V 2 0|iconst_1|iconst_0|idiv|pop|return|end|START|ldc string \"main\"|PRINT|end",
        "throws java/lang/ArithmeticException",
    ),
];

static HANDLED: [MainCase; 26] = [
    // classes that fit
    (
        "MAIN|a:|iconst_1|iconst_0|idiv|b:|pop|return|h:|pop|ldc string \"caught\"|PRINT|catch a b h java/lang/ArithmeticException|end",
        "caught",
    ),
    (
        "MAIN|a:|iconst_1|iconst_0|idiv|b:|pop|return|h:|pop|ldc string \"caught\"|PRINT|catch a b h java/lang/RuntimeException|end",
        "caught",
    ),
    (
        "MAIN|a:|iconst_1|iconst_0|idiv|b:|pop|return|h:|pop|ldc string \"caught\"|PRINT|catch a b h java/lang/Throwable|end",
        "caught",
    ),
    (
        "MAIN|a:|iconst_1|iconst_0|idiv|b:|pop|return|h:|pop|ldc string \"caught\"|PRINT|catch a b h any|end",
        "caught",
    ),
    (
        "MAIN|a:|iconst_1|iconst_0|idiv|b:|pop|return|h:|pop|ldc string \"caught\"|PRINT|catch a b h java/lang/NullPointerException|end",
        "throws java/lang/ArithmeticException",
    ),
    (
        "MAIN|a:|iconst_1|iconst_0|idiv|b:|pop|return|h:|pop|ldc string \"caught\"|PRINT|catch a b h java/lang/Error|end",
        "throws java/lang/ArithmeticException",
    ),
    // the edges of ranges
    (
        "MAIN|iconst_1|iconst_0|a:|nop|b:|idiv|pop|return|h:|pop|ldc string \"caught\"|PRINT|catch a b h any|end",
        "throws java/lang/ArithmeticException",
    ),
    (
        "MAIN|iconst_1|iconst_0|a:|idiv|b:|pop|return|h:|pop|ldc string \"caught\"|PRINT|catch a b h any|end",
        "caught",
    ),
    (
        "MAIN|iconst_1|iconst_0|idiv|a:|pop|b:|return|h:|pop|ldc string \"caught\"|PRINT|catch a b h any|end",
        "throws java/lang/ArithmeticException",
    ),
    (
        "MAIN|a:|invokestatic Main f ()V|b:|return|h:|pop|ldc string \"caught\"|PRINT|catch a b h any|end|STATIC f ()V 2 0|iconst_1|iconst_0|idiv|pop|return|end",
        "caught",
    ),
    (
        "MAIN|invokestatic Main f ()V|a:|nop|b:|return|h:|pop|ldc string \"caught\"|PRINT|catch a b h any|end|STATIC f ()V 2 0|iconst_1|iconst_0|idiv|pop|return|end",
        "throws java/lang/ArithmeticException",
    ),
    (
        "MAIN|nop|a:|iconst_1|iconst_0|idiv|pop|return|h:|pop|ldc string \"caught\"|PRINT|b:|nop|catch a b h any|end",
        "caught",
    ),
    // the first entry that fits
    (
        "MAIN|a:|iconst_1|iconst_0|idiv|b:|pop|return|h:|pop|ldc string \"caught\"|PRINT|k:|pop|ldc string \"first\"|PRINT|catch a b k any|catch a b h java/lang/ArithmeticException|end",
        "first",
    ),
    (
        "MAIN|a:|iconst_1|iconst_0|idiv|b:|pop|return|h:|pop|ldc string \"caught\"|PRINT|k:|pop|ldc string \"first\"|PRINT|catch a b k java/lang/NullPointerException|catch a b h java/lang/ArithmeticException|end",
        "caught",
    ),
    // handlers that throw
    (
        "MAIN|a:|iconst_1|iconst_0|idiv|b:|pop|return|h:|pop|aconst_null|athrow|catch a b h any|end",
        "throws java/lang/NullPointerException",
    ),
    (
        "MAIN|a:|iconst_1|iconst_0|idiv|b:|pop|return|h:|athrow|catch a b h any|end",
        "throws java/lang/ArithmeticException",
    ),
    (
        "MAIN|a:|iconst_1|iconst_0|idiv|pop|return|h:|pop|aconst_null|athrow|c:|k:|pop|ldc string \"outer\"|PRINT|catch a h h any|catch h c k java/lang/NullPointerException|end",
        "outer",
    ),
    (
        "MAIN|a:|iconst_1|iconst_0|idiv|pop|return|h:|pop|iconst_1|iconst_0|idiv|c:|pop|return|catch a c h any|end",
        "no fuel",
    ),
    // the stack has the thrown object alone; the locals stay
    (
        "MAIN|a:|iconst_5|iconst_1|iconst_0|idiv|b:|pop|return|h:|pop|pop|return|catch a b h any|end",
        "bad code",
    ),
    (
        "MAIN|a:|iconst_5|iconst_1|iconst_0|idiv|b:|pop|return|h:|instanceof java/lang/ArithmeticException|istore_1|TEXT|iload_1|+I|SHOW|catch a b h any|end",
        "1",
    ),
    (
        "MAIN|bipush 7|istore_1|a:|iconst_1|iconst_0|idiv|b:|pop|return|h:|pop|TEXT|iload_1|+I|SHOW|catch a b h any|end",
        "7",
    ),
    (
        "MAIN|a:|new java/lang/RuntimeException|dup|ldc string \"why\"|invokespecial java/lang/RuntimeException <init> (Ljava/lang/String;)V|athrow|h:|invokevirtual java/lang/Throwable getMessage ()Ljava/lang/String;|PRINT|catch a h h java/lang/RuntimeException|end",
        "why",
    ),
    // through three frames
    (
        "MAIN|a:|invokestatic Main f ()V|b:|return|h:|pop|ldc string \"caught\"|PRINT|catch a b h java/lang/ArithmeticException|end|STATIC f ()V 1 0|a:|invokestatic Main g ()V|b:|return|h:|pop|return|catch a b h java/lang/NullPointerException|end|STATIC g ()V 0 0|invokestatic Main k ()V|return|end|STATIC k ()V 2 0|iconst_1|iconst_0|idiv|pop|return|end",
        "caught",
    ),
    (
        "MAIN|invokestatic Main f ()V|return|end|STATIC f ()V 0 0|invokestatic Main g ()V|return|end|STATIC g ()V 0 0|invokestatic Main k ()V|return|end|STATIC k ()V 2 0|iconst_1|iconst_0|idiv|pop|return|end",
        "throws java/lang/ArithmeticException",
    ),
    // a handler whose frame has no room for the thrown object
    (
        "MAIN|invokestatic Main f ()V|return|end|STATIC f ()V 0 0|a:|invokestatic Main g ()V|b:|return|h:|return|catch a b h any|end|STATIC g ()V 2 0|iconst_1|iconst_0|idiv|pop|return|end",
        "bad code",
    ),
    (
        "MAIN|invokestatic Main f ()V|return|end|STATIC f ()V 1 0|a:|invokestatic Main g ()V|b:|return|h:|return|catch a b h any|end|STATIC g ()V 2 0|iconst_1|iconst_0|idiv|pop|return|end",
        "ends",
    ),
];

static CLASSES: [Case; 5] = [
    (
        "Main Bad",
        &["MAIN|new Bad|athrow|end", "CLASS Bad java/lang/Exception"],
        "throws Bad",
    ),
    (
        "Main Bad",
        &[
            "MAIN|a:|new Bad|athrow|b:|return|h:|pop|ldc string \"caught\"|PRINT|catch a b h Bad|end",
            "CLASS Bad java/lang/Exception",
        ],
        "caught",
    ),
    (
        "Main Bad",
        &[
            "MAIN|a:|new java/lang/Exception|athrow|b:|return|h:|pop|ldc string \"caught\"|PRINT|catch a b h Bad|end",
            "CLASS Bad java/lang/Exception",
        ],
        "throws java/lang/Exception",
    ),
    (
        "Main K",
        &[
            "MAIN|aconst_null|invokeinterface K m ()V|return|end",
            "INTERFACE K OBJECT|abstract 0x0401 m ()V",
        ],
        "throws java/lang/NullPointerException",
    ),
    // an initialiser that throws: the next one is not run
    (
        "Main B",
        &[
            "CLASS Main OBJECT|method 0x0008 <clinit> ()V 2 0|iconst_1|iconst_0|idiv|pop|return|end|START|return|end",
            "CLASS B OBJECT|method 0x0008 <clinit> ()V 1 0|ldc string \"B\"|PRINT|end",
        ],
        "throws java/lang/ArithmeticException",
    ),
];

#[test]
fn exceptions_are_thrown_and_caught(rt: HostRuntime) -> Result<(), Fail> {
    let alloc = rt.alloc();
    try_mains(&rt, alloc, &THROWN)?;
    try_mains(&rt, alloc, &HANDLED)?;
    try_cases(&rt, alloc, &CLASSES)
}
