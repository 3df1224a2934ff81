//! Whole runs of systems whose domains call each other.

use crate::first_run::strings;
use jx_base::{MemoryShelf, MemorySink, OpenGate, OutOfMemory};
use jx_top::{jx_main, status_number};
use std::alloc::Global;
use std::process::Abort;
use std::sync::Wait;
use std::test::Fail;
use std::thread::Threads;
use test_files::{
    ASKS_OBJECT, BINDS_TWICE, CALLER, CALLS_BACK, CALLS_ITSELF, CLIENT, EXITS_CALLED_BACK,
    EXITS_SECOND, EXITS_SERVING, EXPORTS_ON, GO, MAKE, MAKES_NODE, MAKES_TOO_MUCH, NODE, PASS,
    PASSES_BACK, PASSES_ITSELF, PAUSES, PLAIN_CALLER, POKE, SERVER, TAKES_THE_NAME, THROWS,
};

// The file of a class, and its assembler text.
type Class = (&'static str, &'static [u8]);

// A description, the classes that it names, and the audit.
#[derive(Clone, Copy)]
struct System {
    plan: &'static str,
    classes: &'static [Class],
    audit: &'static str,
}

const POKING: &str =
    "granules = 64\n[[domain]]\nname = 's'\nmain = 'Server'\nclasses = ['Server', 'Poke', 'Node']\nheap = 64\nfuel = 1000\n[[domain]]\nname = 'c'\nmain = 'Client'\nclasses = ['Client', 'Poke', 'Node']\nheap = 64\nfuel = 1000\n";

const ALONE: &str =
    "granules = 64\n[[domain]]\nname = 'a'\nmain = 'Main'\nclasses = ['Main', 'Go']\nheap = 64\nfuel = 1000\n";

const ONE_CALLER: &str =
    "granules = 64\n[[domain]]\nname = 's'\nmain = 'Main'\nclasses = ['Main', 'Go']\nheap = 64\nfuel = 1000\n[[domain]]\nname = 'c'\nmain = 'Other'\nclasses = ['Other', 'Go']\nheap = 64\nfuel = 1000\n";

const TWO_CALLERS: &str =
    "granules = 64\n[[domain]]\nname = 's'\nmain = 'Main'\nclasses = ['Main', 'Go']\nheap = 64\nfuel = 1000\n[[domain]]\nname = 'c'\nmain = 'Other'\nclasses = ['Other', 'Go']\nheap = 64\nfuel = 1000\n[[domain]]\nname = 'd'\nmain = 'Other'\nclasses = ['Other', 'Go']\nheap = 64\nfuel = 1000\n";

const THREE_CALLERS: &str =
    "granules = 64\n[[domain]]\nname = 's'\nmain = 'Main'\nclasses = ['Main', 'Go']\nheap = 64\nfuel = 1000\n[[domain]]\nname = 'c'\nmain = 'Other'\nclasses = ['Other', 'Go']\nheap = 64\nfuel = 1000\n[[domain]]\nname = 'd'\nmain = 'Other'\nclasses = ['Other', 'Go']\nheap = 64\nfuel = 1000\n[[domain]]\nname = 'e'\nmain = 'Other'\nclasses = ['Other', 'Go']\nheap = 64\nfuel = 1000\n";

const UNFIT: &str =
    "granules = 64\n[[domain]]\nname = 's'\nmain = 'Main'\nclasses = ['Main', 'Make', 'Node']\nheap = 64\nfuel = 1000\n[[domain]]\nname = 'c'\nmain = 'Other'\nclasses = ['Other', 'Make']\nheap = 64\nfuel = 1000\n";

const PASSING: &str =
    "granules = 64\n[[domain]]\nname = 's'\nmain = 'Main'\nclasses = ['Main', 'Pass']\nheap = 64\nfuel = 1000\n[[domain]]\nname = 'c'\nmain = 'Other'\nclasses = ['Other', 'Go', 'Pass']\nheap = 64\nfuel = 1000\n";

const EXPORTING: &str =
    "granules = 64\n[[domain]]\nname = 'a'\nmain = 'Main'\nclasses = ['Main', 'Go']\nheap = 64\nfuel = 10000\n";

const TOO_MUCH: &str =
    "granules = 2048\n[[domain]]\nname = 's'\nmain = 'Main'\nclasses = ['Main', 'Make']\nheap = 8192\nfuel = 1000\n[[domain]]\nname = 'c'\nmain = 'Other'\nclasses = ['Other', 'Make']\nheap = 64\nfuel = 1000\n";

// Domains that call, and what they get.
static CALLS: [System; 6] = [
    System {
        plan: POKING,
        classes: &[
            ("Server.class", SERVER),
            ("Poke.class", POKE),
            ("Node.class", NODE),
            ("Client.class", CLIENT),
        ],
        audit: "jx audit 1\n1 0 0 create \"s\" -> domain 1 at 0\n2 0 0 create \"c\" -> domain 2 at 8\n3 1 0 export \"Poke\" 1 -> service 1\n4 1 0 bind \"poke\" 1 -> done\n5 1 0 end-thread -> done\n6 2 0 lookup \"poke\" -> service 1\n7 2 0 call 1 \"poke\" \"(LNode;LNode;)V\" [#0 #0|\"Node\"(#0 i5)] -> queued 1\n8 1 1 take 1 -> job 1 \"poke\" \"(LNode;LNode;)V\" [#0 #0|\"Node\"(#0 i5)]\n9 1 1 return 1 [|] -> done\n10 2 0 resume 1 -> value [|]\n11 2 0 print \"5\" -> done\n12 2 0 end-thread -> done\n13 0 0 quiet -> done\nconsole\n2 \"5\"\ndomains\n1 \"s\" by 0 live\n2 \"c\" by 0 live\ncalls\nmemory 16 of 64\nwords 117 of 1048576\nend quiet\n",
    },
    System {
        plan: ALONE,
        classes: &[("Main.class", CALLS_ITSELF), ("Go.class", GO)],
        audit: "jx audit 1\n1 0 0 create \"a\" -> domain 1 at 0\n2 1 0 export \"Go\" 1 -> service 1\n3 1 0 call 1 \"go\" \"()V\" [|] -> queued 1\n4 1 1 take 1 -> job 1 \"go\" \"()V\" [|]\n5 1 1 call 1 \"go\" \"()V\" [|] -> queued 2\n6 0 0 quiet -> done\nconsole\ndomains\n1 \"a\" by 0 live\ncalls\n1 running\n2 queued\nmemory 8 of 64\nwords 40 of 1048576\nend quiet\n",
    },
    System {
        plan: THREE_CALLERS,
        classes: &[
            ("Main.class", PAUSES),
            ("Go.class", GO),
            ("Other.class", PLAIN_CALLER),
        ],
        audit: "jx audit 1\n1 0 0 create \"s\" -> domain 1 at 0\n2 0 0 create \"c\" -> domain 2 at 8\n3 0 0 create \"d\" -> domain 3 at 16\n4 0 0 create \"e\" -> domain 4 at 24\n5 1 0 export \"Go\" 2 -> service 1\n6 1 0 bind \"go\" 1 -> done\n7 1 0 end-thread -> done\n8 2 0 lookup \"go\" -> service 1\n9 2 0 call 1 \"go\" \"()V\" [|] -> queued 1\n10 3 0 lookup \"go\" -> service 1\n11 3 0 call 1 \"go\" \"()V\" [|] -> queued 2\n12 4 0 lookup \"go\" -> service 1\n13 4 0 call 1 \"go\" \"()V\" [|] -> queued 3\n14 1 1 take 1 -> job 1 \"go\" \"()V\" [|]\n15 1 1 yield -> done\n16 1 2 take 2 -> job 1 \"go\" \"()V\" [|]\n17 1 2 yield -> done\n18 1 1 go -> done\n19 1 1 return 1 [|] -> done\n20 1 1 take 3 -> job 1 \"go\" \"()V\" [|]\n21 1 1 yield -> done\n22 2 0 resume 1 -> value [|]\n23 2 0 end-thread -> done\n24 1 1 go -> done\n25 1 1 return 3 [|] -> done\n26 1 2 go -> done\n27 1 2 return 2 [|] -> done\n28 3 0 resume 2 -> value [|]\n29 3 0 end-thread -> done\n30 4 0 resume 3 -> value [|]\n31 4 0 end-thread -> done\n32 0 0 quiet -> done\nconsole\ndomains\n1 \"s\" by 0 live\n2 \"c\" by 0 live\n3 \"d\" by 0 live\n4 \"e\" by 0 live\ncalls\nmemory 32 of 64\nwords 256 of 1048576\nend quiet\n",
    },
    System {
        plan: ONE_CALLER,
        classes: &[
            ("Main.class", THROWS),
            ("Go.class", GO),
            ("Other.class", CALLER),
        ],
        audit: "jx audit 1\n1 0 0 create \"s\" -> domain 1 at 0\n2 0 0 create \"c\" -> domain 2 at 8\n3 1 0 export \"Go\" 1 -> service 1\n4 1 0 bind \"go\" 1 -> done\n5 1 0 end-thread -> done\n6 2 0 lookup \"go\" -> service 1\n7 2 0 call 1 \"go\" \"()V\" [|] -> queued 1\n8 1 1 take 1 -> job 1 \"go\" \"()V\" [|]\n9 1 1 throw 1 [#0|\"java/lang/RuntimeException\"(#1) \"java/lang/String\"(i110 i111)] -> done\n10 2 0 resume 1 -> thrown [#0|\"java/lang/RuntimeException\"(#1) \"java/lang/String\"(i110 i111)]\n11 2 0 print \"no\" -> done\n12 2 0 end-thread -> done\n13 0 0 quiet -> done\nconsole\n2 \"no\"\ndomains\n1 \"s\" by 0 live\n2 \"c\" by 0 live\ncalls\nmemory 16 of 64\nwords 118 of 1048576\nend quiet\n",
    },
    System {
        plan: TWO_CALLERS,
        classes: &[
            ("Main.class", EXITS_SERVING),
            ("Go.class", GO),
            ("Other.class", PLAIN_CALLER),
        ],
        audit: "jx audit 1\n1 0 0 create \"s\" -> domain 1 at 0\n2 0 0 create \"c\" -> domain 2 at 8\n3 0 0 create \"d\" -> domain 3 at 16\n4 1 0 export \"Go\" 1 -> service 1\n5 1 0 bind \"go\" 1 -> done\n6 1 0 end-thread -> done\n7 2 0 lookup \"go\" -> service 1\n8 2 0 call 1 \"go\" \"()V\" [|] -> queued 1\n9 3 0 lookup \"go\" -> service 1\n10 3 0 call 1 \"go\" \"()V\" [|] -> queued 2\n11 1 1 take 1 -> job 1 \"go\" \"()V\" [|]\n12 1 1 exit 3 -> done\n13 2 0 resume 1 -> ended\n14 2 0 end-thread \"jx/EndedException\" -> done\n15 3 0 resume 2 -> ended\n16 3 0 end-thread \"jx/EndedException\" -> done\n17 0 0 quiet -> done\nconsole\ndomains\n1 \"s\" by 0 ended exit 3\n2 \"c\" by 0 live\n3 \"d\" by 0 live\ncalls\nmemory 16 of 64\nwords 134 of 1048576\nend quiet\n",
    },
    System {
        plan: ALONE,
        classes: &[("Main.class", BINDS_TWICE), ("Go.class", GO)],
        audit: "jx audit 1\n1 0 0 create \"a\" -> domain 1 at 0\n2 1 0 export \"Go\" 1 -> service 1\n3 1 0 bind \"a\" 1 -> done\n4 1 0 export \"Go\" 1 -> service 2\n5 1 0 bind \"a\" 2 -> taken\n6 1 0 end-thread \"jx/RefusedException\" -> done\n7 0 0 quiet -> done\nconsole\ndomains\n1 \"a\" by 0 live\ncalls\nmemory 8 of 64\nwords 50 of 1048576\nend quiet\n",
    },
];

// Answers that are none, names that are free again, and ends between calls.
static ANSWERS: [System; 6] = [
    System {
        plan: UNFIT,
        classes: &[
            ("Main.class", MAKES_NODE),
            ("Make.class", MAKE),
            ("Node.class", NODE),
            ("Other.class", ASKS_OBJECT),
        ],
        audit: "jx audit 1\n1 0 0 create \"s\" -> domain 1 at 0\n2 0 0 create \"c\" -> domain 2 at 8\n3 1 0 export \"Make\" 1 -> service 1\n4 1 0 bind \"go\" 1 -> done\n5 1 0 end-thread -> done\n6 2 0 lookup \"go\" -> service 1\n7 2 0 call 1 \"make\" \"()Ljava/lang/Object;\" [|] -> queued 1\n8 1 1 take 1 -> job 1 \"make\" \"()Ljava/lang/Object;\" [|]\n9 1 1 return 1 [#0|\"Node\"(n i0)] -> unfit\n10 2 0 resume 1 -> copyfailed\n11 2 0 end-thread \"jx/CopyException\" -> done\n12 0 0 quiet -> done\nconsole\ndomains\n1 \"s\" by 0 live\n2 \"c\" by 0 live\ncalls\nmemory 16 of 64\nwords 97 of 1048576\nend quiet\n",
    },
    System {
        plan: PASSING,
        classes: &[
            ("Main.class", PASSES_BACK),
            ("Pass.class", PASS),
            ("Other.class", PASSES_ITSELF),
            ("Go.class", GO),
        ],
        audit: "jx audit 1\n1 0 0 create \"s\" -> domain 1 at 0\n2 0 0 create \"c\" -> domain 2 at 8\n3 1 0 export \"Pass\" 1 -> service 1\n4 1 0 bind \"go\" 1 -> done\n5 1 0 end-thread -> done\n6 2 0 export \"Go\" 1 -> service 2\n7 2 0 lookup \"go\" -> service 1\n8 2 0 call 1 \"pass\" \"(Ljx/Portal;)Ljx/Portal;\" [p2|] -> queued 1\n9 1 1 take 1 -> job 1 \"pass\" \"(Ljx/Portal;)Ljx/Portal;\" [p2|]\n10 1 1 return 1 [p2|] -> done\n11 2 0 resume 1 -> value [p2|]\n12 2 0 call 2 \"go\" \"()V\" [|] -> queued 2\n13 2 1 take 2 -> job 2 \"go\" \"()V\" [|]\n14 2 1 print \"home\" -> done\n15 2 1 return 2 [|] -> done\n16 2 0 resume 2 -> value [|]\n17 2 0 end-thread -> done\n18 0 0 quiet -> done\nconsole\n2 \"home\"\ndomains\n1 \"s\" by 0 live\n2 \"c\" by 0 live\ncalls\nmemory 16 of 64\nwords 148 of 1048576\nend quiet\n",
    },
    System {
        plan: ONE_CALLER,
        classes: &[
            ("Main.class", CALLS_BACK),
            ("Go.class", GO),
            ("Other.class", EXITS_CALLED_BACK),
        ],
        audit: "jx audit 1\n1 0 0 create \"s\" -> domain 1 at 0\n2 0 0 create \"c\" -> domain 2 at 8\n3 1 0 export \"Go\" 1 -> service 1\n4 1 0 bind \"go\" 1 -> done\n5 1 0 end-thread -> done\n6 2 0 export \"Go\" 1 -> service 2\n7 2 0 bind \"back\" 2 -> done\n8 2 0 lookup \"go\" -> service 1\n9 2 0 call 1 \"go\" \"()V\" [|] -> queued 1\n10 1 1 take 1 -> job 1 \"go\" \"()V\" [|]\n11 1 1 lookup \"back\" -> service 2\n12 1 1 call 2 \"go\" \"()V\" [|] -> queued 2\n13 2 1 take 2 -> job 2 \"go\" \"()V\" [|]\n14 2 1 exit 3 -> done\n15 1 1 resume 2 -> ended\n16 1 1 throw 1 [#0|\"jx/EndedException\"(n)] -> discarded\n17 0 0 quiet -> done\nconsole\ndomains\n1 \"s\" by 0 live\n2 \"c\" by 0 ended exit 3\ncalls\nmemory 8 of 64\nwords 144 of 1048576\nend quiet\n",
    },
    System {
        plan: TOO_MUCH,
        classes: &[
            ("Main.class", MAKES_TOO_MUCH),
            ("Make.class", MAKE),
            ("Other.class", ASKS_OBJECT),
        ],
        audit: "jx audit 1\n1 0 0 create \"s\" -> domain 1 at 0\n2 0 0 create \"c\" -> domain 2 at 1024\n3 1 0 export \"Make\" 1 -> service 1\n4 1 0 bind \"go\" 1 -> done\n5 1 0 end-thread -> done\n6 2 0 lookup \"go\" -> service 1\n7 2 0 call 1 \"make\" \"()Ljava/lang/Object;\" [|] -> queued 1\n8 1 1 take 1 -> job 1 \"make\" \"()Ljava/lang/Object;\" [|]\n9 1 1 throw 1 [|] -> done\n10 2 0 resume 1 -> copyfailed\n11 2 0 end-thread \"jx/CopyException\" -> done\n12 0 0 quiet -> done\nconsole\ndomains\n1 \"s\" by 0 live\n2 \"c\" by 0 live\ncalls\nmemory 1032 of 2048\nwords 92 of 1048576\nend quiet\n",
    },
    System {
        plan: ONE_CALLER,
        classes: &[
            ("Main.class", EXITS_SERVING),
            ("Go.class", GO),
            ("Other.class", TAKES_THE_NAME),
        ],
        audit: "jx audit 1\n1 0 0 create \"s\" -> domain 1 at 0\n2 0 0 create \"c\" -> domain 2 at 8\n3 1 0 export \"Go\" 1 -> service 1\n4 1 0 bind \"go\" 1 -> done\n5 1 0 end-thread -> done\n6 2 0 lookup \"go\" -> service 1\n7 2 0 bind \"also\" 1 -> done\n8 2 0 lookup \"also\" -> service 1\n9 2 0 call 1 \"go\" \"()V\" [|] -> queued 1\n10 1 1 take 1 -> job 1 \"go\" \"()V\" [|]\n11 1 1 exit 3 -> done\n12 2 0 resume 1 -> ended\n13 2 0 lookup \"go\" -> none\n14 2 0 export \"Go\" 1 -> service 2\n15 2 0 bind \"go\" 2 -> done\n16 2 0 lookup \"go\" -> service 2\n17 2 0 end-thread -> done\n18 0 0 quiet -> done\nconsole\ndomains\n1 \"s\" by 0 ended exit 3\n2 \"c\" by 0 live\ncalls\nmemory 8 of 64\nwords 154 of 1048576\nend quiet\n",
    },
    System {
        plan: THREE_CALLERS,
        classes: &[
            ("Main.class", EXITS_SECOND),
            ("Go.class", GO),
            ("Other.class", PLAIN_CALLER),
        ],
        audit: "jx audit 1\n1 0 0 create \"s\" -> domain 1 at 0\n2 0 0 create \"c\" -> domain 2 at 8\n3 0 0 create \"d\" -> domain 3 at 16\n4 0 0 create \"e\" -> domain 4 at 24\n5 1 0 export \"Go\" 1 -> service 1\n6 1 0 bind \"go\" 1 -> done\n7 1 0 end-thread -> done\n8 2 0 lookup \"go\" -> service 1\n9 2 0 call 1 \"go\" \"()V\" [|] -> queued 1\n10 3 0 lookup \"go\" -> service 1\n11 3 0 call 1 \"go\" \"()V\" [|] -> queued 2\n12 4 0 lookup \"go\" -> service 1\n13 4 0 call 1 \"go\" \"()V\" [|] -> queued 3\n14 1 1 take 1 -> job 1 \"go\" \"()V\" [|]\n15 1 1 return 1 [|] -> done\n16 1 1 take 2 -> job 1 \"go\" \"()V\" [|]\n17 1 1 exit 3 -> done\n18 2 0 resume 1 -> value [|]\n19 2 0 end-thread -> done\n20 3 0 resume 2 -> ended\n21 3 0 end-thread \"jx/EndedException\" -> done\n22 4 0 resume 3 -> ended\n23 4 0 end-thread \"jx/EndedException\" -> done\n24 0 0 quiet -> done\nconsole\ndomains\n1 \"s\" by 0 ended exit 3\n2 \"c\" by 0 live\n3 \"d\" by 0 live\n4 \"e\" by 0 live\ncalls\nmemory 24 of 64\nwords 192 of 1048576\nend quiet\n",
    },
];

// The class file of an assembler text.
fn assembled<R: Threads + Wait + Sync>(
    rt: &R,
    alloc: Global,
    text: &[u8],
) -> Result<Vec<u8>, OutOfMemory> {
    let file = (
        String::from_str(alloc, "text")?,
        Vec::from_slice(alloc, text)?,
    );
    let mut shelf = MemoryShelf::new(vec![in alloc; file]?, Vec::new(alloc));
    let mut sink = MemorySink::open(alloc, 20000, Vec::new(alloc))?;
    let words = strings(alloc, &["asm", "text"])?;
    let _ = jx_main(rt, alloc, &words, &mut shelf, &mut sink, &OpenGate);
    Vec::from_slice(alloc, sink.bytes())
}

// A shelf of the description and the classes.
fn shelf_of<R: Threads + Wait + Sync>(
    rt: &R,
    alloc: Global,
    system: System,
) -> Result<MemoryShelf, OutOfMemory> {
    let plan = (
        String::from_str(alloc, "plan")?,
        Vec::from_slice(alloc, system.plan.as_bytes())?,
    );
    let mut files = vec![in alloc; plan]?;
    for (name, text) in system.classes {
        files.push((String::from_str(alloc, name)?, assembled(rt, alloc, text)?))?;
    }
    Ok(MemoryShelf::new(files, Vec::new(alloc)))
}

// Whether the run of the system is done and puts the audit.
fn try_system<R: Threads + Wait + Sync>(
    rt: &R,
    alloc: Global,
    system: System,
    audit: &str,
) -> Result<bool, OutOfMemory> {
    let mut shelf = shelf_of(rt, alloc, system)?;
    let mut sink = MemorySink::open(alloc, 20000, Vec::new(alloc))?;
    let words = strings(alloc, &["run", "plan"])?;
    let status = jx_main(rt, alloc, &words, &mut shelf, &mut sink, &OpenGate);
    Ok(status_number(&status) == 0 && sink.bytes() == audit.as_bytes())
}

#[test]
fn domains_call_each_other(rt: HostRuntime) -> Result<(), Fail> {
    let alloc = rt.alloc();
    for system in CALLS.iter().chain(ANSWERS.iter()) {
        let same = try_system(&rt, alloc, *system, system.audit)?;
        assert!(rt; same, "{}", system.audit);
    }
    let mut audit = String::from_str(alloc, "jx audit 1\n1 0 0 create \"a\" -> domain 1 at 0\n")?;
    for service in 1..257 {
        let entry = service + 1;
        audit.push_str(format!(in alloc;
            "{entry} 1 0 export \"Go\" 1 -> service {service}\n"
        )?.as_str())?;
    }
    audit.push_str(
        "258 1 0 export \"Go\" 1 -> toomany\n259 1 0 end-thread \"jx/RefusedException\" -> done\n260 0 0 quiet -> done\nconsole\ndomains\n1 \"a\" by 0 live\ncalls\nmemory 8 of 64\nwords 2072 of 1048576\nend quiet\n",
    )?;
    let exporting = System {
        plan: EXPORTING,
        classes: &[("Main.class", EXPORTS_ON), ("Go.class", GO)],
        audit: "",
    };
    let same = try_system(&rt, alloc, exporting, audit.as_str())?;
    assert!(rt; same, "{}", audit.as_str());
    Ok(())
}
