//! Whole runs of described systems.

use crate::first_run::{FIRST_AUDIT, line, strings};
use jx_base::{MemoryShelf, MemorySink, OpenGate, OutOfMemory};
use jx_top::{jx_main, status_number};
use std::alloc::Global;
use std::process::Abort;
use std::sync::Wait;
use std::test::Fail;
use std::thread::Threads;
use test_files::{
    ALLOCATES, DIVIDES, EXITS, EXITS_ABOVE, EXITS_AT_0, EXITS_BELOW, GOES_ROUND, GOES_TOO_DEEP,
    HELLO_TEXT, OTHER_POPS, POPS, PRINTS_ON, RETURNS, YIELDS,
};

// A description, the assembler text of its class, the number, the line, and what is put.
#[derive(Clone, Copy)]
struct Run {
    plan: &'static str,
    text: &'static [u8],
    number: u8,
    said: &'static str,
    put: &'static str,
}

const ONE_DOMAIN: &str =
    "granules = 64\n[[domain]]\nname = 'a'\nmain = 'Main'\nclasses = ['Main']\nheap = 64\nfuel = 1000\n";

const TWO_DOMAINS: &str =
    "granules = 64\n[[domain]]\nname = 'a'\nmain = 'Main'\nclasses = ['Main']\nheap = 64\nfuel = 1000\n[[domain]]\nname = 'w'\nmain = 'Main'\nclasses = ['Main']\nheap = 64\nfuel = 1000\nboot = false\n[[domain]]\nname = 'b'\nmain = 'Main'\nclasses = ['Main']\nheap = 64\nfuel = 1000\n";

const NO_ROOM: &str =
    "granules = 8\n[[domain]]\nname = 'a'\nmain = 'Main'\nclasses = ['Main']\nheap = 64\nfuel = 1000\n[[domain]]\nname = 'b'\nmain = 'Main'\nclasses = ['Main']\nheap = 64\nfuel = 1000\n";

const FUEL_2: &str =
    "granules = 16384\n[[domain]]\nname = 'main'\nmain = 'Hello'\nclasses = ['Hello']\nheap = 1024\nfuel = 2\n";

const FUEL_3: &str =
    "granules = 16384\n[[domain]]\nname = 'main'\nmain = 'Hello'\nclasses = ['Hello']\nheap = 1024\nfuel = 3\n";

const SMALL_JOURNAL: &str =
    "granules = 64\njournal = 8208\n[[domain]]\nname = 'a'\nmain = 'Main'\nclasses = ['Main']\nheap = 64\nfuel = 100000\n";

const SMALL_JOURNAL_LARGE_HEAP: &str =
    "granules = 1024\njournal = 8208\n[[domain]]\nname = 'a'\nmain = 'Main'\nclasses = ['Main']\nheap = 8192\nfuel = 1000\n";

const THREE_DOMAINS: &str =
    "granules = 64\n[[domain]]\nname = 'a'\nmain = 'Main'\nclasses = ['Main']\nheap = 64\nfuel = 1000\n[[domain]]\nname = 'b'\nmain = 'Main'\nclasses = ['Main']\nheap = 64\nfuel = 1000\n[[domain]]\nname = 'c'\nmain = 'Main'\nclasses = ['Main']\nheap = 64\nfuel = 1000\n";

const BAD_BETWEEN: &str =
    "granules = 64\n[[domain]]\nname = 'a'\nmain = 'Main'\nclasses = ['Main']\nheap = 64\nfuel = 1000\n[[domain]]\nname = 'b'\nmain = 'Other'\nclasses = ['Other']\nheap = 64\nfuel = 1000\n[[domain]]\nname = 'c'\nmain = 'Main'\nclasses = ['Main']\nheap = 64\nfuel = 1000\n";

const TWO_CLASSES: &str =
    "granules = 64\n[[domain]]\nname = 'a'\nmain = 'Main'\nclasses = ['Main', 'Other']\nheap = 64\nfuel = 1000\n";

static RUNS: [Run; 19] = [
    Run {
        plan: "granules = 1\n",
        text: HELLO_TEXT,
        number: 0,
        said: "",
        put: "jx audit 1\n1 0 0 quiet -> done\nconsole\ndomains\ncalls\nmemory 0 of 1\nwords 0 of 1048576\nend quiet\n",
    },
    Run {
        plan: FUEL_2,
        text: HELLO_TEXT,
        number: 0,
        said: "",
        put: "jx audit 1\n1 0 0 create \"main\" -> domain 1 at 0\n2 1 0 print \"hi\" -> done\n3 1 0 end fuel -> done\n4 0 0 quiet -> done\nconsole\n1 \"hi\"\ndomains\n1 \"main\" by 0 ended fuel\ncalls\nmemory 0 of 16384\nwords 26 of 1048576\nend quiet\n",
    },
    Run {
        plan: FUEL_3,
        text: HELLO_TEXT,
        number: 0,
        said: "",
        put: FIRST_AUDIT,
    },
    // each in turn up to its yield, and what goes on after it; the domain that isn't made at the
    // start is never made
    Run {
        plan: TWO_DOMAINS,
        text: YIELDS,
        number: 0,
        said: "",
        put: "jx audit 1\n1 0 0 create \"a\" -> domain 1 at 0\n2 0 0 create \"b\" -> domain 2 at 8\n3 1 0 print \"x\" -> done\n4 1 0 yield -> done\n5 2 0 print \"x\" -> done\n6 2 0 yield -> done\n7 1 0 go -> done\n8 1 0 print \"y\" -> done\n9 1 0 end-thread -> done\n10 2 0 go -> done\n11 2 0 print \"y\" -> done\n12 2 0 end-thread -> done\n13 0 0 quiet -> done\nconsole\n1 \"x\"\n2 \"x\"\n1 \"y\"\n2 \"y\"\ndomains\n1 \"a\" by 0 live\n2 \"b\" by 0 live\ncalls\nmemory 16 of 64\nwords 100 of 1048576\nend quiet\n",
    },
    Run {
        plan: NO_ROOM,
        text: YIELDS,
        number: 0,
        said: "",
        put: "jx audit 1\n1 0 0 create \"a\" -> domain 1 at 0\n2 0 0 create \"b\" -> noroom\n3 1 0 print \"x\" -> done\n4 1 0 yield -> done\n5 1 0 go -> done\n6 1 0 print \"y\" -> done\n7 1 0 end-thread -> done\n8 0 0 quiet -> done\nconsole\n1 \"x\"\n1 \"y\"\ndomains\n1 \"a\" by 0 live\ncalls\nmemory 8 of 8\nwords 58 of 1048576\nend quiet\n",
    },
    Run {
        plan: ONE_DOMAIN,
        text: EXITS,
        number: 0,
        said: "",
        put: "jx audit 1\n1 0 0 create \"a\" -> domain 1 at 0\n2 1 0 exit -7 -> done\n3 0 0 quiet -> done\nconsole\ndomains\n1 \"a\" by 0 ended exit -7\ncalls\nmemory 0 of 64\nwords 16 of 1048576\nend quiet\n",
    },
    Run {
        plan: ONE_DOMAIN,
        text: DIVIDES,
        number: 0,
        said: "",
        put: "jx audit 1\n1 0 0 create \"a\" -> domain 1 at 0\n2 1 0 end-thread \"java/lang/ArithmeticException\" -> done\n3 0 0 quiet -> done\nconsole\ndomains\n1 \"a\" by 0 live\ncalls\nmemory 8 of 64\nwords 16 of 1048576\nend quiet\n",
    },
    Run {
        plan: ONE_DOMAIN,
        text: POPS,
        number: 0,
        said: "",
        put: "jx audit 1\n1 0 0 create \"a\" -> domain 1 at 0\n2 1 0 end badcode -> done\n3 0 0 quiet -> done\nconsole\ndomains\n1 \"a\" by 0 ended badcode\ncalls\nmemory 0 of 64\nwords 16 of 1048576\nend quiet\n",
    },
    // an act without code, and one that no run comes to
    Run {
        plan: ONE_DOMAIN,
        text: ALLOCATES,
        number: 99,
        said: "jx: not yet Main\n",
        put: "",
    },
    Run {
        plan: ONE_DOMAIN,
        text: RETURNS,
        number: 0,
        said: "",
        put: "jx audit 1\n1 0 0 create \"a\" -> domain 1 at 0\n2 1 0 end-thread -> done\n3 0 0 quiet -> done\nconsole\ndomains\n1 \"a\" by 0 live\ncalls\nmemory 8 of 64\nwords 16 of 1048576\nend quiet\n",
    },
    Run {
        plan: ONE_DOMAIN,
        text: HELLO_TEXT,
        number: 4,
        said: "jx: missing Main.class\n",
        put: "",
    },
    // three domains pause in turn
    Run {
        plan: THREE_DOMAINS,
        text: YIELDS,
        number: 0,
        said: "",
        put: "jx audit 1\n1 0 0 create \"a\" -> domain 1 at 0\n2 0 0 create \"b\" -> domain 2 at 8\n3 0 0 create \"c\" -> domain 3 at 16\n4 1 0 print \"x\" -> done\n5 1 0 yield -> done\n6 2 0 print \"x\" -> done\n7 2 0 yield -> done\n8 3 0 print \"x\" -> done\n9 3 0 yield -> done\n10 1 0 go -> done\n11 1 0 print \"y\" -> done\n12 1 0 end-thread -> done\n13 2 0 go -> done\n14 2 0 print \"y\" -> done\n15 2 0 end-thread -> done\n16 3 0 go -> done\n17 3 0 print \"y\" -> done\n18 3 0 end-thread -> done\n19 0 0 quiet -> done\nconsole\n1 \"x\"\n2 \"x\"\n3 \"x\"\n1 \"y\"\n2 \"y\"\n3 \"y\"\ndomains\n1 \"a\" by 0 live\n2 \"b\" by 0 live\n3 \"c\" by 0 live\ncalls\nmemory 24 of 64\nwords 150 of 1048576\nend quiet\n",
    },
    Run {
        plan: ONE_DOMAIN,
        text: EXITS_BELOW,
        number: 0,
        said: "",
        put: "jx audit 1\n1 0 0 create \"a\" -> domain 1 at 0\n2 1 0 exit -1 -> done\n3 0 0 quiet -> done\nconsole\ndomains\n1 \"a\" by 0 ended exit -1\ncalls\nmemory 0 of 64\nwords 16 of 1048576\nend quiet\n",
    },
    Run {
        plan: ONE_DOMAIN,
        text: EXITS_AT_0,
        number: 0,
        said: "",
        put: "jx audit 1\n1 0 0 create \"a\" -> domain 1 at 0\n2 1 0 exit 0 -> done\n3 0 0 quiet -> done\nconsole\ndomains\n1 \"a\" by 0 ended exit 0\ncalls\nmemory 0 of 64\nwords 16 of 1048576\nend quiet\n",
    },
    Run {
        plan: ONE_DOMAIN,
        text: EXITS_ABOVE,
        number: 0,
        said: "",
        put: "jx audit 1\n1 0 0 create \"a\" -> domain 1 at 0\n2 1 0 exit 2147483647 -> done\n3 0 0 quiet -> done\nconsole\ndomains\n1 \"a\" by 0 ended exit 2147483647\ncalls\nmemory 0 of 64\nwords 16 of 1048576\nend quiet\n",
    },
    // a loop without an act ends by fuel, one that deepens its stack by bad code
    Run {
        plan: ONE_DOMAIN,
        text: GOES_ROUND,
        number: 0,
        said: "",
        put: "jx audit 1\n1 0 0 create \"a\" -> domain 1 at 0\n2 1 0 end fuel -> done\n3 0 0 quiet -> done\nconsole\ndomains\n1 \"a\" by 0 ended fuel\ncalls\nmemory 0 of 64\nwords 16 of 1048576\nend quiet\n",
    },
    Run {
        plan: ONE_DOMAIN,
        text: GOES_TOO_DEEP,
        number: 0,
        said: "",
        put: "jx audit 1\n1 0 0 create \"a\" -> domain 1 at 0\n2 1 0 end badcode -> done\n3 0 0 quiet -> done\nconsole\ndomains\n1 \"a\" by 0 ended badcode\ncalls\nmemory 0 of 64\nwords 16 of 1048576\nend quiet\n",
    },
    // a domain ends by bad code beside two that go on
    Run {
        plan: BAD_BETWEEN,
        text: YIELDS,
        number: 0,
        said: "",
        put: "jx audit 1\n1 0 0 create \"a\" -> domain 1 at 0\n2 0 0 create \"b\" -> domain 2 at 8\n3 0 0 create \"c\" -> domain 3 at 16\n4 1 0 print \"x\" -> done\n5 1 0 yield -> done\n6 2 0 end badcode -> done\n7 3 0 print \"x\" -> done\n8 3 0 yield -> done\n9 1 0 go -> done\n10 1 0 print \"y\" -> done\n11 1 0 end-thread -> done\n12 3 0 go -> done\n13 3 0 print \"y\" -> done\n14 3 0 end-thread -> done\n15 0 0 quiet -> done\nconsole\n1 \"x\"\n3 \"x\"\n1 \"y\"\n3 \"y\"\ndomains\n1 \"a\" by 0 live\n2 \"b\" by 0 ended badcode\n3 \"c\" by 0 live\ncalls\nmemory 16 of 64\nwords 116 of 1048576\nend quiet\n",
    },
    // a class that no code names
    Run {
        plan: TWO_CLASSES,
        text: YIELDS,
        number: 0,
        said: "",
        put: "jx audit 1\n1 0 0 create \"a\" -> domain 1 at 0\n2 1 0 print \"x\" -> done\n3 1 0 yield -> done\n4 1 0 go -> done\n5 1 0 print \"y\" -> done\n6 1 0 end-thread -> done\n7 0 0 quiet -> done\nconsole\n1 \"x\"\n1 \"y\"\ndomains\n1 \"a\" by 0 live\ncalls\nmemory 8 of 64\nwords 50 of 1048576\nend quiet\n",
    },
];

// The class file that the text says.
fn assembled<R: Threads + Wait + Sync>(
    rt: &R,
    alloc: Global,
    text: &[u8],
) -> Result<Vec<u8>, OutOfMemory> {
    let file = (
        String::from_str(alloc, "text")?,
        Vec::from_slice(alloc, text)?,
    );
    let mut shelf = MemoryShelf::new(vec![in alloc; file]?, Vec::new(alloc));
    let mut sink = MemorySink::open(alloc, 20000, Vec::new(alloc))?;
    let words = strings(alloc, &["asm", "text"])?;
    let _ = jx_main(rt, alloc, &words, &mut shelf, &mut sink, &OpenGate);
    Vec::from_slice(alloc, sink.bytes())
}

// A shelf of the plan, of the class that the text says, and of a class Other.
fn shelf_of<R: Threads + Wait + Sync>(
    rt: &R,
    alloc: Global,
    plan: &str,
    text: &[u8],
) -> Result<MemoryShelf, OutOfMemory> {
    let name = if text == HELLO_TEXT {
        "Hello.class"
    } else {
        "Main.class"
    };
    let class = (String::from_str(alloc, name)?, assembled(rt, alloc, text)?);
    let other = (
        String::from_str(alloc, "Other.class")?,
        assembled(rt, alloc, OTHER_POPS)?,
    );
    let plan = (
        String::from_str(alloc, "plan")?,
        Vec::from_slice(alloc, plan.as_bytes())?,
    );
    Ok(MemoryShelf::new(vec![in alloc; plan, class, other]?, Vec::new(alloc)))
}

// Whether the run of the plan with that text ends with that number, that line, and that put.
fn try_text<R: Threads + Wait + Sync + Abort>(
    rt: &R,
    alloc: Global,
    run: Run,
    text: &[u8],
    put: &str,
) -> Result<(), Fail> {
    let mut shelf = shelf_of(rt, alloc, run.plan, text)?;
    let mut sink = MemorySink::open(alloc, 20000, Vec::new(alloc))?;
    let words = strings(alloc, &["run", "plan"])?;
    let status = jx_main(rt, alloc, &words, &mut shelf, &mut sink, &OpenGate);
    let line = line(alloc, &status)?;
    assert_eq!(rt;
        (status_number(&status), line.as_slice(), sink.bytes()),
        (run.number, run.said.as_bytes(), put.as_bytes()),
        "{:?}",
        text
    );
    Ok(())
}

fn try_run<R: Threads + Wait + Sync + Abort>(
    rt: &R,
    alloc: Global,
    run: Run,
    put: &str,
) -> Result<(), Fail> {
    try_text(rt, alloc, run, run.text, put)
}

#[test]
fn described_systems_run_to_their_end_or_to_an_act_without_code(
    rt: HostRuntime,
) -> Result<(), Fail> {
    let alloc = rt.alloc();
    for run in &RUNS {
        try_run(&rt, alloc, *run, run.put)?;
    }
    Ok(())
}

#[test]
fn a_full_journal_halts_the_run_and_its_audit_is_put(rt: HostRuntime) -> Result<(), Fail> {
    let alloc = rt.alloc();
    let mut audit = String::from_str(alloc, "jx audit 1\n1 0 0 create \"a\" -> domain 1 at 0\n")?;
    for entry in 2..412 {
        audit.push_str(format!(in alloc; "{entry} 1 0 print \"hi\" -> done\n")?.as_str())?;
    }
    audit.push_str("412 0 0 halt -> done\nconsole\n")?;
    for _ in 2..412 {
        audit.push_str("1 \"hi\"\n")?;
    }
    audit.push_str(
        "domains\n1 \"a\" by 0 live\ncalls\nmemory 8 of 64\nwords 4108 of 8208\nend halt\n",
    )?;
    let run = Run {
        plan: SMALL_JOURNAL,
        text: PRINTS_ON,
        number: 9,
        said: "jx: halted\n",
        put: "",
    };
    try_run(&rt, alloc, run, audit.as_str())
}

#[test]
fn one_text_fills_a_journal(rt: HostRuntime) -> Result<(), Fail> {
    let alloc = rt.alloc();
    let mut units = String::new(alloc);
    for _ in 0..4096 {
        units.push_str("a")?;
    }
    let text = format!(in alloc;
        "class 0x0021 Main java/lang/Object\nmethod 0x0009 main ([Ljava/lang/String;)V 1 1\nagain:\nldc string \"{}\"\ninvokestatic jx/Zero print (Ljava/lang/String;)V\ngoto again\nend\n",
        units.as_str()
    )?;
    let audit = format!(in alloc;
        "jx audit 1\n1 0 0 create \"a\" -> domain 1 at 0\n2 1 0 print \"{}\" -> done\n3 0 0 halt -> done\nconsole\n1 \"{}\"\ndomains\n1 \"a\" by 0 live\ncalls\nmemory 1024 of 1024\nwords 4112 of 8208\nend halt\n",
        units.as_str(),
        units.as_str()
    )?;
    let run = Run {
        plan: SMALL_JOURNAL_LARGE_HEAP,
        text: b"",
        number: 9,
        said: "jx: halted\n",
        put: "",
    };
    try_text(&rt, alloc, run, text.as_bytes(), audit.as_str())
}
