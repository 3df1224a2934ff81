//! Assembler texts of classes that call each other's services.

/// An interface whose method takes two nodes.
pub const POKE: &[u8] =
    b"class 0x0601 Poke java/lang/Object\nimplements jx/Portal\nabstract 0x0401 poke (LNode;LNode;)V\n";

/// A node of a list of numbers.
pub const NODE: &[u8] =
    b"class 0x0021 Node java/lang/Object\nfield 0x0001 next LNode;\nfield 0x0001 v I\n";

/// Serves as Poke under the name `poke`, and sets the first node's number to 9.
pub const SERVER: &[u8] =
    b"class 0x0021 Server java/lang/Object\nimplements Poke\nmethod 0x0009 main ([Ljava/lang/String;)V 3 2\nnew Server\nldc string \"Poke\"\niconst_1\ninvokestatic jx/Zero export (Ljava/lang/Object;Ljava/lang/String;I)Ljx/Portal;\nastore_1\nldc string \"poke\"\naload_1\ninvokestatic jx/Zero bind (Ljava/lang/String;Ljx/Portal;)V\nreturn\nend\nmethod 0x0001 poke (LNode;LNode;)V 2 3\naload_1\nbipush 9\nputfield Node v I\nreturn\nend\n";

/// Passes a node that is its own next twice, and prints its number then.
pub const CLIENT: &[u8] =
    b"class 0x0021 Client java/lang/Object\nmethod 0x0009 main ([Ljava/lang/String;)V 3 2\nnew Node\nastore_1\naload_1\niconst_5\nputfield Node v I\naload_1\naload_1\nputfield Node next LNode;\nldc string \"poke\"\ninvokestatic jx/Zero lookup (Ljava/lang/String;)Ljx/Portal;\ncheckcast Poke\naload_1\naload_1\ninvokeinterface Poke poke (LNode;LNode;)V\nnew java/lang/StringBuilder\ndup\ninvokespecial java/lang/StringBuilder <init> ()V\naload_1\ngetfield Node v I\ninvokevirtual java/lang/StringBuilder append (I)Ljava/lang/StringBuilder;\ninvokevirtual java/lang/StringBuilder toString ()Ljava/lang/String;\ninvokestatic jx/Zero print (Ljava/lang/String;)V\nreturn\nend\n";

/// An interface whose method takes nothing.
pub const GO: &[u8] =
    b"class 0x0601 Go java/lang/Object\nimplements jx/Portal\nabstract 0x0401 go ()V\n";

/// Serves as Go and calls itself, in main and in the method.
pub const CALLS_ITSELF: &[u8] =
    b"class 0x0021 Main java/lang/Object\nimplements Go\nfield 0x0009 p LGo;\nmethod 0x0009 main ([Ljava/lang/String;)V 3 1\nnew Main\nldc string \"Go\"\niconst_1\ninvokestatic jx/Zero export (Ljava/lang/Object;Ljava/lang/String;I)Ljx/Portal;\ncheckcast Go\nputstatic Main p LGo;\ngetstatic Main p LGo;\ninvokeinterface Go go ()V\nreturn\nend\nmethod 0x0001 go ()V 1 1\ngetstatic Main p LGo;\ninvokeinterface Go go ()V\nreturn\nend\n";

/// Serves as Go with two threads under the name `go`, and pauses in each call.
pub const PAUSES: &[u8] =
    b"class 0x0021 Main java/lang/Object\nimplements Go\nmethod 0x0009 main ([Ljava/lang/String;)V 3 2\nnew Main\nldc string \"Go\"\niconst_2\ninvokestatic jx/Zero export (Ljava/lang/Object;Ljava/lang/String;I)Ljx/Portal;\nastore_1\nldc string \"go\"\naload_1\ninvokestatic jx/Zero bind (Ljava/lang/String;Ljx/Portal;)V\nreturn\nend\nmethod 0x0001 go ()V 0 1\ninvokestatic jx/Zero pause ()V\nreturn\nend\n";

/// Serves as Go under the name `go`, and throws in each call.
pub const THROWS: &[u8] =
    b"class 0x0021 Main java/lang/Object\nimplements Go\nmethod 0x0009 main ([Ljava/lang/String;)V 3 2\nnew Main\nldc string \"Go\"\niconst_1\ninvokestatic jx/Zero export (Ljava/lang/Object;Ljava/lang/String;I)Ljx/Portal;\nastore_1\nldc string \"go\"\naload_1\ninvokestatic jx/Zero bind (Ljava/lang/String;Ljx/Portal;)V\nreturn\nend\nmethod 0x0001 go ()V 3 1\nnew java/lang/RuntimeException\ndup\nldc string \"no\"\ninvokespecial java/lang/RuntimeException <init> (Ljava/lang/String;)V\nathrow\nend\n";

/// Serves as Go under the name `go`, and exits in the first call.
pub const EXITS_SERVING: &[u8] =
    b"class 0x0021 Main java/lang/Object\nimplements Go\nmethod 0x0009 main ([Ljava/lang/String;)V 3 2\nnew Main\nldc string \"Go\"\niconst_1\ninvokestatic jx/Zero export (Ljava/lang/Object;Ljava/lang/String;I)Ljx/Portal;\nastore_1\nldc string \"go\"\naload_1\ninvokestatic jx/Zero bind (Ljava/lang/String;Ljx/Portal;)V\nreturn\nend\nmethod 0x0001 go ()V 1 1\niconst_3\ninvokestatic jx/Zero exit (I)V\nreturn\nend\n";

/// Binds two services to one name.
pub const BINDS_TWICE: &[u8] =
    b"class 0x0021 Main java/lang/Object\nimplements Go\nmethod 0x0009 main ([Ljava/lang/String;)V 4 2\nldc string \"a\"\nnew Main\nldc string \"Go\"\niconst_1\ninvokestatic jx/Zero export (Ljava/lang/Object;Ljava/lang/String;I)Ljx/Portal;\ninvokestatic jx/Zero bind (Ljava/lang/String;Ljx/Portal;)V\nldc string \"a\"\nnew Main\nldc string \"Go\"\niconst_1\ninvokestatic jx/Zero export (Ljava/lang/Object;Ljava/lang/String;I)Ljx/Portal;\ninvokestatic jx/Zero bind (Ljava/lang/String;Ljx/Portal;)V\nreturn\nend\nmethod 0x0001 go ()V 0 1\nreturn\nend\n";

/// Calls the service of the name `go`, and prints the message of what it throws.
pub const CALLER: &[u8] =
    b"class 0x0021 Other java/lang/Object\nmethod 0x0009 main ([Ljava/lang/String;)V 1 1\nfrom:\nldc string \"go\"\ninvokestatic jx/Zero lookup (Ljava/lang/String;)Ljx/Portal;\ncheckcast Go\ninvokeinterface Go go ()V\nreturn\nto:\ninvokevirtual java/lang/Throwable getMessage ()Ljava/lang/String;\ninvokestatic jx/Zero print (Ljava/lang/String;)V\nreturn\ncatch from to to java/lang/RuntimeException\nend\n";

/// Calls the service of the name `go`.
pub const PLAIN_CALLER: &[u8] =
    b"class 0x0021 Other java/lang/Object\nmethod 0x0009 main ([Ljava/lang/String;)V 1 1\nldc string \"go\"\ninvokestatic jx/Zero lookup (Ljava/lang/String;)Ljx/Portal;\ncheckcast Go\ninvokeinterface Go go ()V\nreturn\nend\n";

/// An interface whose method gives an object.
pub const MAKE: &[u8] =
    b"class 0x0601 Make java/lang/Object\nimplements jx/Portal\nabstract 0x0401 make ()Ljava/lang/Object;\n";

/// Serves as Make under the name `go`, and gives a node.
pub const MAKES_NODE: &[u8] =
    b"class 0x0021 Main java/lang/Object\nimplements Make\nmethod 0x0009 main ([Ljava/lang/String;)V 3 2\nnew Main\nldc string \"Make\"\niconst_1\ninvokestatic jx/Zero export (Ljava/lang/Object;Ljava/lang/String;I)Ljx/Portal;\nastore_1\nldc string \"go\"\naload_1\ninvokestatic jx/Zero bind (Ljava/lang/String;Ljx/Portal;)V\nreturn\nend\nmethod 0x0001 make ()Ljava/lang/Object; 1 1\nnew Node\nareturn\nend\n";

/// Asks Make for an object.
pub const ASKS_OBJECT: &[u8] =
    b"class 0x0021 Other java/lang/Object\nmethod 0x0009 main ([Ljava/lang/String;)V 1 1\nldc string \"go\"\ninvokestatic jx/Zero lookup (Ljava/lang/String;)Ljx/Portal;\ncheckcast Make\ninvokeinterface Make make ()Ljava/lang/Object;\npop\nreturn\nend\n";

/// An interface whose method takes a portal and gives one.
pub const PASS: &[u8] =
    b"class 0x0601 Pass java/lang/Object\nimplements jx/Portal\nabstract 0x0401 pass (Ljx/Portal;)Ljx/Portal;\n";

/// Serves as Pass under the name `go`, and gives back what it takes.
pub const PASSES_BACK: &[u8] =
    b"class 0x0021 Main java/lang/Object\nimplements Pass\nmethod 0x0009 main ([Ljava/lang/String;)V 3 2\nnew Main\nldc string \"Pass\"\niconst_1\ninvokestatic jx/Zero export (Ljava/lang/Object;Ljava/lang/String;I)Ljx/Portal;\nastore_1\nldc string \"go\"\naload_1\ninvokestatic jx/Zero bind (Ljava/lang/String;Ljx/Portal;)V\nreturn\nend\nmethod 0x0001 pass (Ljx/Portal;)Ljx/Portal; 1 2\naload_1\nareturn\nend\n";

/// Serves as Go, passes its own object, and calls the portal that comes home.
pub const PASSES_ITSELF: &[u8] =
    b"class 0x0021 Other java/lang/Object\nimplements Go\nmethod 0x0009 main ([Ljava/lang/String;)V 3 2\nnew Other\nastore_1\naload_1\nldc string \"Go\"\niconst_1\ninvokestatic jx/Zero export (Ljava/lang/Object;Ljava/lang/String;I)Ljx/Portal;\npop\nldc string \"go\"\ninvokestatic jx/Zero lookup (Ljava/lang/String;)Ljx/Portal;\ncheckcast Pass\naload_1\ninvokeinterface Pass pass (Ljx/Portal;)Ljx/Portal;\ncheckcast Go\ninvokeinterface Go go ()V\nreturn\nend\nmethod 0x0001 go ()V 1 1\nldc string \"home\"\ninvokestatic jx/Zero print (Ljava/lang/String;)V\nreturn\nend\n";

/// Serves as Go under the name `go`, and calls the service of the name `back`.
pub const CALLS_BACK: &[u8] =
    b"class 0x0021 Main java/lang/Object\nimplements Go\nmethod 0x0009 main ([Ljava/lang/String;)V 3 2\nnew Main\nldc string \"Go\"\niconst_1\ninvokestatic jx/Zero export (Ljava/lang/Object;Ljava/lang/String;I)Ljx/Portal;\nastore_1\nldc string \"go\"\naload_1\ninvokestatic jx/Zero bind (Ljava/lang/String;Ljx/Portal;)V\nreturn\nend\nmethod 0x0001 go ()V 1 1\nldc string \"back\"\ninvokestatic jx/Zero lookup (Ljava/lang/String;)Ljx/Portal;\ncheckcast Go\ninvokeinterface Go go ()V\nreturn\nend\n";

/// Serves as Go under the name `back`, exits in the first call, and calls the service of `go`.
pub const EXITS_CALLED_BACK: &[u8] =
    b"class 0x0021 Other java/lang/Object\nimplements Go\nmethod 0x0009 main ([Ljava/lang/String;)V 3 2\nnew Other\nldc string \"Go\"\niconst_1\ninvokestatic jx/Zero export (Ljava/lang/Object;Ljava/lang/String;I)Ljx/Portal;\nastore_1\nldc string \"back\"\naload_1\ninvokestatic jx/Zero bind (Ljava/lang/String;Ljx/Portal;)V\nldc string \"go\"\ninvokestatic jx/Zero lookup (Ljava/lang/String;)Ljx/Portal;\ncheckcast Go\ninvokeinterface Go go ()V\nreturn\nend\nmethod 0x0001 go ()V 1 1\niconst_3\ninvokestatic jx/Zero exit (I)V\nreturn\nend\n";

/// Exports one service more than there may be.
pub const EXPORTS_ON: &[u8] =
    b"class 0x0021 Main java/lang/Object\nimplements Go\nmethod 0x0009 main ([Ljava/lang/String;)V 3 4\nnew Main\nastore_1\nldc string \"Go\"\nastore_2\nsipush 257\nistore_3\nagain:\niload_3\nifeq done\naload_1\naload_2\niconst_1\ninvokestatic jx/Zero export (Ljava/lang/Object;Ljava/lang/String;I)Ljx/Portal;\npop\niinc 3 -1\ngoto again\ndone:\nreturn\nend\nmethod 0x0001 go ()V 0 1\nreturn\nend\n";

/// Serves as Make under the name `go`, and gives an array that is too large for a parcel.
pub const MAKES_TOO_MUCH: &[u8] =
    b"class 0x0021 Main java/lang/Object\nimplements Make\nmethod 0x0009 main ([Ljava/lang/String;)V 3 2\nnew Main\nldc string \"Make\"\niconst_1\ninvokestatic jx/Zero export (Ljava/lang/Object;Ljava/lang/String;I)Ljx/Portal;\nastore_1\nldc string \"go\"\naload_1\ninvokestatic jx/Zero bind (Ljava/lang/String;Ljx/Portal;)V\nreturn\nend\nmethod 0x0001 make ()Ljava/lang/Object; 1 1\nsipush 4094\nnewarray int\nareturn\nend\n";

/// Serves as Go under the name `go`, and exits in the second call.
pub const EXITS_SECOND: &[u8] =
    b"class 0x0021 Main java/lang/Object\nimplements Go\nfield 0x0009 n I\nmethod 0x0009 main ([Ljava/lang/String;)V 3 2\nnew Main\nldc string \"Go\"\niconst_1\ninvokestatic jx/Zero export (Ljava/lang/Object;Ljava/lang/String;I)Ljx/Portal;\nastore_1\nldc string \"go\"\naload_1\ninvokestatic jx/Zero bind (Ljava/lang/String;Ljx/Portal;)V\nreturn\nend\nmethod 0x0001 go ()V 2 1\ngetstatic Main n I\niconst_1\niadd\ndup\nputstatic Main n I\niconst_2\nif_icmpeq out\nreturn\nout:\niconst_3\ninvokestatic jx/Zero exit (I)V\nreturn\nend\n";

/// Binds the service of `go` as `also` and calls it; where that has ended, takes the name `go`.
pub const TAKES_THE_NAME: &[u8] =
    b"class 0x0021 Other java/lang/Object\nimplements Go\nmethod 0x0009 main ([Ljava/lang/String;)V 3 2\nldc string \"go\"\ninvokestatic jx/Zero lookup (Ljava/lang/String;)Ljx/Portal;\nastore_1\nldc string \"also\"\naload_1\ninvokestatic jx/Zero bind (Ljava/lang/String;Ljx/Portal;)V\nfrom:\nldc string \"also\"\ninvokestatic jx/Zero lookup (Ljava/lang/String;)Ljx/Portal;\ncheckcast Go\ninvokeinterface Go go ()V\nreturn\nto:\npop\nldc string \"go\"\ninvokestatic jx/Zero lookup (Ljava/lang/String;)Ljx/Portal;\npop\nnew Other\nldc string \"Go\"\niconst_1\ninvokestatic jx/Zero export (Ljava/lang/Object;Ljava/lang/String;I)Ljx/Portal;\nastore_1\nldc string \"go\"\naload_1\ninvokestatic jx/Zero bind (Ljava/lang/String;Ljx/Portal;)V\nldc string \"go\"\ninvokestatic jx/Zero lookup (Ljava/lang/String;)Ljx/Portal;\npop\nreturn\ncatch from to to jx/EndedException\nend\nmethod 0x0001 go ()V 0 1\nreturn\nend\n";
