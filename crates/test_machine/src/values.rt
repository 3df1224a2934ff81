//! What code computes.

use crate::cases::{Case, MainCase, try_cases, try_mains};
use std::test::Fail;

static NUMBERS: [MainCase; 22] = [
    // what wraps, and what is cut toward 0 (JVMS 6.5)
    (
        "MAIN|TEXT|ldc int 2147483647|iconst_1|iadd|+I|,|bipush -7|iconst_2|idiv|+I|,|bipush -7|iconst_2|irem|+I|,|bipush 7|bipush -2|irem|+I|SHOW|end",
        "-2147483648,-3,-1,1",
    ),
    (
        "MAIN|TEXT|ldc int -2147483648|iconst_m1|idiv|+I|,|ldc int -2147483648|iconst_m1|irem|+I|,|ldc int -2147483648|ineg|+I|,|ldc int 65536|dup|imul|+I|SHOW|end",
        "-2147483648,0,-2147483648,0",
    ),
    (
        "MAIN|TEXT|iconst_1|bipush 33|ishl|+I|,|iconst_m1|bipush 28|iushr|+I|,|bipush -9|iconst_1|ishr|+I|,|iconst_1|iconst_m1|ishl|+I|SHOW|end",
        "2,15,-5,-2147483648",
    ),
    (
        "MAIN|TEXT|ldc2_w long 9223372036854775807|lconst_1|ladd|+J|,|lconst_1|bipush 65|lshl|+J|,|ldc2_w long -1|bipush 60|lushr|+J|,|ldc2_w long 4294967298|l2i|+I|,|ldc2_w long -9|ldc2_w long 4|lrem|+J|,|ldc2_w long -9|ldc2_w long 4|ldiv|+J|SHOW|end",
        "-9223372036854775808,2,15,2,-1,-2",
    ),
    (
        "MAIN|TEXT|lconst_0|lconst_1|lcmp|+I|,|lconst_1|lconst_1|lcmp|+I|,|lconst_0|ldc2_w long -9223372036854775808|lcmp|+I|SHOW|end",
        "-1,0,1",
    ),
    (
        "MAIN|TEXT|sipush 200|i2b|+I|,|iconst_m1|i2c|+I|,|ldc int 40000|i2s|+I|,|iconst_m1|i2l|+J|SHOW|end",
        "-56,65535,-25536,-1",
    ),
    (
        "MAIN|TEXT|bipush 12|bipush 10|iand|+I|,|bipush 12|bipush 10|ior|+I|,|bipush 12|bipush 10|ixor|+I|SHOW|end",
        "8,14,6",
    ),
    // the forms of the stack: what is taken off, the top first
    (
        "MAIN|iconst_1|iconst_2|dup_x1|istore_1|istore_2|istore_3|TEXT|iload_1|+I|,|iload_2|+I|,|iload_3|+I|SHOW|end",
        "2,1,2",
    ),
    (
        "MAIN|iconst_1|iconst_2|iconst_3|dup_x2|istore_1|istore_2|istore_3|istore 4|TEXT|iload_1|+I|,|iload_2|+I|,|iload_3|+I|,|iload 4|+I|SHOW|end",
        "3,2,1,3",
    ),
    (
        "MAIN|iconst_1|iconst_2|iconst_3|dup2_x1|istore_1|istore_2|istore_3|istore 4|istore 5|TEXT|iload_1|+I|,|iload_2|+I|,|iload_3|+I|,|iload 4|+I|,|iload 5|+I|SHOW|end",
        "3,2,1,3,2",
    ),
    (
        "MAIN|ldc2_w long 1|ldc2_w long 2|dup2_x2|lstore_1|lstore_3|lstore 5|TEXT|lload_1|+J|,|lload_3|+J|,|lload 5|+J|SHOW|end",
        "2,1,2",
    ),
    (
        "MAIN|iconst_1|iconst_2|swap|istore_1|istore_2|TEXT|iload_1|+I|,|iload_2|+I|SHOW|end",
        "1,2",
    ),
    // branches
    (
        "MAIN|iconst_0|istore_1|iconst_0|istore_2|again:|iinc 2 1|iload_1|iload_2|iadd|istore_1|iload_2|bipush 100|if_icmplt again|TEXT|iload_1|+I|SHOW|end",
        "5050",
    ),
    (
        "MAIN|TEXT|iconst_m1|invokestatic Main f (I)I|+I|,|iconst_0|invokestatic Main f (I)I|+I|,|iconst_1|invokestatic Main f (I)I|+I|,|bipush -2|invokestatic Main f (I)I|+I|SHOW|end|STATIC f (I)I 1 1|iload_0|tableswitch -1 other a b|a:|bipush 10|ireturn|b:|bipush 20|ireturn|other:|bipush 30|ireturn|end",
        "10,20,30,30",
    ),
    (
        "MAIN|TEXT|bipush -5|invokestatic Main f (I)I|+I|,|ldc int 1000000|invokestatic Main f (I)I|+I|,|iconst_0|invokestatic Main f (I)I|+I|,|ldc int 1000001|invokestatic Main f (I)I|+I|SHOW|end|STATIC f (I)I 1 1|iload_0|lookupswitch other -5 a 1000000 b|a:|bipush 10|ireturn|b:|bipush 20|ireturn|other:|bipush 30|ireturn|end",
        "10,20,30,30",
    ),
    // calls
    (
        "MAIN|TEXT|iconst_3|invokestatic Main twice (I)I|invokestatic Main more (I)I|+I|SHOW|end|STATIC twice (I)I 2 1|iload_0|iload_0|iadd|ireturn|end|STATIC more (I)I 2 1|iload_0|invokestatic Main twice (I)I|iconst_1|iadd|ireturn|end",
        "13",
    ),
    (
        "MAIN|TEXT|iconst_1|ldc2_w long 10|bipush 100|invokestatic Main f (IJI)J|+J|SHOW|end|STATIC f (IJI)J 4 4|iload_0|i2l|lload_1|lsub|iload_3|i2l|lsub|lreturn|end",
        "-109",
    ),
    (
        "MAIN|TEXT|bipush 10|invokestatic Main f (I)I|+I|,|bipush 13|invokestatic Main f (I)I|+I|SHOW|end|STATIC f (I)I 3 1|iload_0|ifne more|iconst_1|ireturn|more:|iload_0|iload_0|iconst_1|isub|invokestatic Main f (I)I|imul|ireturn|end",
        "3628800,1932053504",
    ),
    (
        "MAIN|TEXT|bipush 10|invokestatic Main f (I)I|+I|SHOW|end|STATIC f (I)I 3 1|iload_0|iconst_2|if_icmplt low|iload_0|iconst_1|isub|invokestatic Main f (I)I|iload_0|iconst_2|isub|invokestatic Main f (I)I|iadd|ireturn|low:|iload_0|ireturn|end",
        "55",
    ),
    (
        "MAIN|TEXT|invokestatic Main f ()I|+I|SHOW|end|STATIC f ()I 1 301|sipush 1000|wide istore 300|wide iinc 300 -2000|wide iload 300|ireturn|end",
        "-1000",
    ),
    // other acts
    ("MAIN|invokestatic jx/Zero pause ()V|return|end", "other"),
    (
        "MAIN|iconst_3|invokestatic jx/Zero exit (I)V|return|end",
        "other",
    ),
];

static OBJECTS: [MainCase; 18] = [
    // what elements keep
    (
        "MAIN|TEXT|iconst_1|newarray byte|dup|iconst_0|sipush 200|bastore|iconst_0|baload|+I|,|iconst_1|newarray short|dup|iconst_0|ldc int 40000|sastore|iconst_0|saload|+I|,|iconst_1|newarray char|dup|iconst_0|iconst_m1|castore|iconst_0|caload|+I|,|iconst_1|newarray boolean|dup|iconst_0|iconst_2|bastore|iconst_0|baload|+I|,|iconst_1|newarray boolean|dup|iconst_0|iconst_3|bastore|iconst_0|baload|+I|SHOW|end",
        "-56,-25536,65535,0,1",
    ),
    (
        "MAIN|TEXT|iconst_1|newarray int|dup|iconst_0|ldc int -2147483648|iastore|iconst_0|iaload|+I|,|iconst_2|newarray long|dup|iconst_1|ldc2_w long 9223372036854775807|lastore|iconst_1|laload|+J|SHOW|end",
        "-2147483648,9223372036854775807",
    ),
    (
        "MAIN|TEXT|iconst_1|newarray long|iconst_0|laload|+J|,|iconst_3|newarray char|iconst_2|caload|+I|,|iconst_1|anewarray java/lang/String|iconst_0|aaload|+S|SHOW|end",
        "0,0,null",
    ),
    (
        "MAIN|TEXT|iconst_0|newarray int|arraylength|+I|,|bipush 7|anewarray java/lang/String|arraylength|+I|,|aload_0|arraylength|+I|SHOW|end",
        "0,7,0",
    ),
    (
        "MAIN|iconst_2|iconst_3|multianewarray [[I 2|astore_1|TEXT|aload_1|arraylength|+I|,|aload_1|iconst_1|aaload|arraylength|+I|,|iconst_0|iconst_5|multianewarray [[I 2|arraylength|+I|SHOW|end",
        "2,3,0",
    ),
    // Strings
    (
        "MAIN|TEXT|ldc string \"abc\"|iconst_0|invokevirtual java/lang/String charAt (I)C|+C|,|ldc string \"abc\"|iconst_2|invokevirtual java/lang/String charAt (I)C|+C|,|ldc string \"\\uffff\"|iconst_0|invokevirtual java/lang/String charAt (I)C|+I|SHOW|end",
        "a,c,65535",
    ),
    (
        "MAIN|TEXT|ldc string \"\"|invokevirtual java/lang/String length ()I|+I|,|ldc string \"abc\"|invokevirtual java/lang/String length ()I|+I|,|ldc string \"\\ud83d\\ude00\"|invokevirtual java/lang/String length ()I|+I|SHOW|end",
        "0,3,2",
    ),
    (
        "MAIN|TEXT|ldc string \"ab\"|ldc string \"ab\"|invokevirtual java/lang/String equals (Ljava/lang/Object;)Z|+Z|,|ldc string \"ab\"|aconst_null|invokevirtual java/lang/String equals (Ljava/lang/Object;)Z|+Z|,|ldc string \"\"|ldc string \"\"|invokevirtual java/lang/String equals (Ljava/lang/Object;)Z|+Z|,|ldc string \"ab\"|ldc string \"aB\"|invokevirtual java/lang/String equals (Ljava/lang/Object;)Z|+Z|,|ldc string \"ab\"|ldc string \"a\"|ldc string \"b\"|invokevirtual java/lang/String concat (Ljava/lang/String;)Ljava/lang/String;|invokevirtual java/lang/String equals (Ljava/lang/Object;)Z|+Z|,|ldc string \"ab\"|aload_0|invokevirtual java/lang/String equals (Ljava/lang/Object;)Z|+Z|,|ldc string \"ab\"|ldc string \"abc\"|invokevirtual java/lang/String equals (Ljava/lang/Object;)Z|+Z|SHOW|end",
        "true,false,true,false,true,false,false",
    ),
    (
        "MAIN|TEXT|ldc string \"\"|invokevirtual java/lang/String hashCode ()I|+I|,|ldc string \"hello\"|invokevirtual java/lang/String hashCode ()I|+I|,|ldc string \"polygenelubricants\"|invokevirtual java/lang/String hashCode ()I|+I|,|ldc string \"The quick brown fox jumps over the lazy dog\"|invokevirtual java/lang/String hashCode ()I|+I|SHOW|end",
        "0,99162322,-2147483648,-609428141",
    ),
    (
        "MAIN|TEXT|ldc string \"ab\"|ldc string \"cd\"|invokevirtual java/lang/String concat (Ljava/lang/String;)Ljava/lang/String;|+S|,|ldc string \"\"|ldc string \"\"|invokevirtual java/lang/String concat (Ljava/lang/String;)Ljava/lang/String;|invokevirtual java/lang/String length ()I|+I|SHOW|end",
        "abcd,0",
    ),
    // a concatenation is a new String, also with an empty text; a text of the class is one String
    (
        "MAIN|ldc string \"a\"|dup|ldc string \"\"|invokevirtual java/lang/String concat (Ljava/lang/String;)Ljava/lang/String;|if_acmpeq same|ldc string \"new\"|PRINT|same:|ldc string \"same\"|PRINT|end",
        "new",
    ),
    (
        "MAIN|ldc string \"a\"|ldc string \"a\"|if_acmpeq same|ldc string \"new\"|PRINT|same:|ldc string \"same\"|PRINT|end",
        "same",
    ),
    (
        "MAIN|TEXT|ldc int 65601|+C|,|iconst_2|+Z|,|iconst_3|+Z|,|aconst_null|+S|,|ldc2_w long -9223372036854775808|+J|SHOW|end",
        "A,false,true,null,-9223372036854775808",
    ),
    // fields
    (
        "CLASS Main OBJECT|FIELD x I|FIELD y J|SHARED s I|MADE|START|TEXT|new Main|dup|invokespecial Main <init> ()V|astore_1|aload_1|getfield Main x I|+I|,|aload_1|bipush -5|putfield Main x I|aload_1|getfield Main x I|+I|,|aload_1|ldc2_w long 7|putfield Main y J|aload_1|getfield Main y J|+J|,|getstatic Main s I|+I|,|bipush 9|putstatic Main s I|getstatic Main s I|+I|SHOW|end",
        "0,-5,7,0,9",
    ),
    (
        "CLASS Main OBJECT|SHARED b B|SHARED c C|SHARED h S|SHARED z Z|START|TEXT|sipush 200|putstatic Main b B|getstatic Main b B|+I|,|iconst_m1|putstatic Main c C|getstatic Main c C|+I|,|ldc int 40000|putstatic Main h S|getstatic Main h S|+I|,|iconst_2|putstatic Main z Z|getstatic Main z Z|+I|SHOW|end",
        "-56,65535,-25536,0",
    ),
    (
        "CLASS Main OBJECT|FIELD b B|FIELD z Z|MADE|START|new Main|dup|invokespecial Main <init> ()V|astore_1|new Main|dup|invokespecial Main <init> ()V|astore_2|aload_1|sipush 200|putfield Main b B|aload_1|iconst_3|putfield Main z Z|TEXT|aload_1|getfield Main b B|+I|,|aload_1|getfield Main z Z|+I|,|aload_2|getfield Main b B|+I|SHOW|end",
        "-56,1,0",
    ),
    // classes
    (
        "MAIN|TEXT|aconst_null|instanceof java/lang/String|+I|,|ldc string \"a\"|instanceof java/lang/Object|+I|,|ldc string \"a\"|instanceof Main|+I|,|iconst_0|newarray int|instanceof [I|+I|,|iconst_0|newarray int|instanceof java/lang/Object|+I|,|iconst_0|newarray int|instanceof [J|+I|,|iconst_0|anewarray Main|instanceof [Ljava/lang/Object;|+I|,|iconst_0|iconst_0|multianewarray [[I 2|instanceof [Ljava/lang/Object;|+I|,|iconst_0|newarray int|instanceof [Ljava/lang/Object;|+I|SHOW|end",
        "0,1,0,1,1,0,1,1,0",
    ),
    (
        "MAIN|TEXT|ldc string \"a\"|checkcast java/lang/Object|checkcast java/lang/String|+S|,|aconst_null|checkcast java/lang/String|+S|SHOW|end",
        "a,null",
    ),
];

static CLASSES: [Case; 4] = [
    // methods are selected from the class of the object
    (
        "Main B",
        &[
            "CLASS Main OBJECT|MADE|METHOD m ()I 1 1|iconst_1|ireturn|end|START|TEXT|new B|dup|invokespecial B <init> ()V|invokevirtual Main m ()I|+I|,|new Main|dup|invokespecial Main <init> ()V|invokevirtual Main m ()I|+I|SHOW|end",
            "CLASS B Main|METHOD <init> ()V 1 1|aload_0|invokespecial Main <init> ()V|return|end|METHOD m ()I 2 1|aload_0|invokespecial Main m ()I|iconst_1|iadd|ireturn|end",
        ],
        "2,1",
    ),
    (
        "Main K",
        &[
            "CLASS Main OBJECT|implements K|MADE|METHOD m (I)I 2 2|iload_1|iconst_1|iadd|ireturn|end|START|TEXT|new Main|dup|invokespecial Main <init> ()V|dup|instanceof K|istore_1|bipush 41|invokeinterface K m (I)I|+I|,|iload_1|+I|SHOW|end",
            "INTERFACE K OBJECT|abstract 0x0401 m (I)I",
        ],
        "42,1",
    ),
    // initialisers run in the order of the list, a super's before its class's own
    (
        "Main Base",
        &[
            "CLASS Main Base|method 0x0008 <clinit> ()V 1 0|ldc string \"main\"|PRINT|end|START|return|end",
            "CLASS Base OBJECT|method 0x0008 <clinit> ()V 1 0|ldc string \"base\"|PRINT|end",
        ],
        "base",
    ),
    (
        "Main A B",
        &[
            "CLASS Main B|SHARED n I|method 0x0008 <clinit> ()V 2 0|getstatic Main n I|bipush 10|imul|iconst_1|iadd|putstatic Main n I|return|end|START|TEXT|getstatic Main n I|+I|SHOW|end",
            "CLASS A OBJECT|method 0x0008 <clinit> ()V 2 0|getstatic Main n I|bipush 10|imul|iconst_2|iadd|putstatic Main n I|return|end",
            "CLASS B OBJECT|method 0x0008 <clinit> ()V 2 0|getstatic Main n I|bipush 10|imul|iconst_3|iadd|putstatic Main n I|return|end",
        ],
        "312",
    ),
];

#[test]
fn code_computes(rt: HostRuntime) -> Result<(), Fail> {
    let alloc = rt.alloc();
    try_mains(&rt, alloc, &NUMBERS)?;
    try_mains(&rt, alloc, &OBJECTS)?;
    try_cases(&rt, alloc, &CLASSES)
}
