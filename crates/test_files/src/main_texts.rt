//! Assembler texts, most of a class Main, by what its `main` does.

/// Prints `x`, yields, and prints `y`.
pub const YIELDS: &[u8] =
    b"class 0x0021 Main java/lang/Object\nmethod 0x0009 main ([Ljava/lang/String;)V 1 1\nldc string \"x\"\ninvokestatic jx/Zero print (Ljava/lang/String;)V\ninvokestatic jx/Zero pause ()V\nldc string \"y\"\ninvokestatic jx/Zero print (Ljava/lang/String;)V\nreturn\nend\n";

/// Exits with -7.
pub const EXITS: &[u8] =
    b"class 0x0021 Main java/lang/Object\nmethod 0x0009 main ([Ljava/lang/String;)V 1 1\nbipush -7\ninvokestatic jx/Zero exit (I)V\nreturn\nend\n";

/// Divides by 0.
pub const DIVIDES: &[u8] =
    b"class 0x0021 Main java/lang/Object\nmethod 0x0009 main ([Ljava/lang/String;)V 2 1\niconst_1\niconst_0\nidiv\npop\nreturn\nend\n";

/// Pops of an empty stack.
pub const POPS: &[u8] =
    b"class 0x0021 Main java/lang/Object\nmethod 0x0009 main ([Ljava/lang/String;)V 1 1\npop\nreturn\nend\n";

/// Prints `hi` for ever.
pub const PRINTS_ON: &[u8] =
    b"class 0x0021 Main java/lang/Object\nmethod 0x0009 main ([Ljava/lang/String;)V 1 1\nagain:\nldc string \"hi\"\ninvokestatic jx/Zero print (Ljava/lang/String;)V\ngoto again\nend\n";

/// Prints `x`, and allocates 8 bytes.
pub const ALLOCATES: &[u8] =
    b"class 0x0021 Main java/lang/Object\nmethod 0x0009 main ([Ljava/lang/String;)V 1 1\nldc string \"x\"\ninvokestatic jx/Zero print (Ljava/lang/String;)V\nbipush 8\ninvokestatic jx/Zero alloc (I)Ljx/Memory;\npop\nreturn\nend\n";

/// Returns before it would allocate.
pub const RETURNS: &[u8] =
    b"class 0x0021 Main java/lang/Object\nmethod 0x0009 main ([Ljava/lang/String;)V 1 1\nreturn\nbipush 8\ninvokestatic jx/Zero alloc (I)Ljx/Memory;\npop\nreturn\nend\n";

/// Exits with -1.
pub const EXITS_BELOW: &[u8] =
    b"class 0x0021 Main java/lang/Object\nmethod 0x0009 main ([Ljava/lang/String;)V 1 1\niconst_m1\ninvokestatic jx/Zero exit (I)V\nreturn\nend\n";

/// Exits with 0.
pub const EXITS_AT_0: &[u8] =
    b"class 0x0021 Main java/lang/Object\nmethod 0x0009 main ([Ljava/lang/String;)V 1 1\niconst_0\ninvokestatic jx/Zero exit (I)V\nreturn\nend\n";

/// Exits with the largest number.
pub const EXITS_ABOVE: &[u8] =
    b"class 0x0021 Main java/lang/Object\nmethod 0x0009 main ([Ljava/lang/String;)V 1 1\nldc int 2147483647\ninvokestatic jx/Zero exit (I)V\nreturn\nend\n";

/// Goes round for ever.
pub const GOES_ROUND: &[u8] =
    b"class 0x0021 Main java/lang/Object\nmethod 0x0009 main ([Ljava/lang/String;)V 1 1\nagain:\ngoto again\nend\n";

/// Goes back with one more on its stack than there may be.
pub const GOES_TOO_DEEP: &[u8] =
    b"class 0x0021 Main java/lang/Object\nmethod 0x0009 main ([Ljava/lang/String;)V 1 1\nagain:\niconst_0\ngoto again\nend\n";

/// A class Other that pops of an empty stack.
pub const OTHER_POPS: &[u8] =
    b"class 0x0021 Other java/lang/Object\nmethod 0x0009 main ([Ljava/lang/String;)V 1 1\npop\nreturn\nend\n";
