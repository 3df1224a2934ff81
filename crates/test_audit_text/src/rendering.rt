//! The audit of a history that is made by hand.
ghost use Rattle.std.specs.Prelude.{◌≡◌, IfOk};
ghost use Rattle.test_audit_text.specs.HandMade.{small_template, small_system, plain_entry};
ghost use Rattle.test_audit_text.specs.HandMade.{odd_text, hand_made};

use audit_text::render;
use jx_base::{
    Act, DomainId, Entry, History, Listed, MemorySink, OutOfMemory, Plan, Program, Reason, Reply,
    System, Template, Text, ThreadId, text_of,
};
use std::alloc::Global;
use std::test::Fail;

const WANTED: &str =
    "jx audit 1\n1 0 0 create \"a\" -> domain 1 at 0\n2 0 0 create \"b\" -> domain 2 at 8\n3 1 0 print \"a\\u0022\\u005c\\u001f ~\\u007f\\uabcd\\ud800\" -> done\n4 1 0 yield -> done\n5 1 0 go -> done\n6 1 0 exit -5 -> done\n7 2 0 end fuel -> done\n8 0 0 quiet -> done\nconsole\n1 \"a\\u0022\\u005c\\u001f ~\\u007f\\uabcd\\ud800\"\ndomains\n1 \"a\" by 0 ended exit -5\n2 \"b\" by 0 ended fuel\ncalls\nmemory 0 of 64\nwords 65 of 9000\nend quiet\n";

#[tactic(auto, unfolding(crate::specs::HandMade::small_template))]
pub fn template(alloc: Global, name: &str) -> Result<Template, OutOfMemory>
    ensures { IfOk result (λ template. template ≡ small_template name.now) }
{
    Ok(Template {
        name: text_of(alloc, name)?,
        main: 0,
        classes: Listed::from_vec(Vec::new(alloc)),
        heap: 64,
        fuel: 9,
        boot: true,
    })
}

#[tactic(auto, unfolding(crate::specs::HandMade::small_system))]
fn system(alloc: Global) -> Result<System, OutOfMemory>
    ensures { IfOk result (λ system. system ≡ small_system) }
{
    let templates = vec![in alloc; template(alloc, "a")?, template(alloc, "b")?]?;
    Ok(System {
        plan: Plan {
            granules: 64,
            journal: 9000,
            templates: Listed::from_vec(templates),
            classes: Listed::from_vec(Vec::new(alloc)),
        },
        program: Program {
            classes: Listed::from_vec(Vec::new(alloc)),
            methods: Listed::from_vec(Vec::new(alloc)),
            selectors: Listed::from_vec(Vec::new(alloc)),
        },
    })
}

#[tactic(auto, unfolding(crate::specs::HandMade::plain_entry))]
pub fn entry(domain: u32, act: Act, reply: Reply) -> Entry
    ensures { result ≡ plain_entry domain act reply }
{
    Entry {
        domain: DomainId(domain),
        thread: ThreadId(0),
        act,
        reply,
    }
}

#[tactic(auto, unfolding(crate::specs::HandMade::odd_text))]
pub fn odd_text(alloc: Global) -> Result<Text, OutOfMemory>
    ensures { IfOk result (λ text. text ≡ odd_text) }
{
    let units = vec![in alloc; 0x61, 0x22, 0x5c, 0x1f, 0x20, 0x7e, 0x7f, 0xabcd, 0xd800]?;
    Ok(Listed::from_vec(units))
}

#[tactic(auto, unfolding(crate::specs::HandMade::hand_made))]
fn history(alloc: Global) -> Result<History, OutOfMemory>
    ensures { IfOk result (λ history. history.entries ≡ hand_made) }
{
    let text = odd_text(alloc)?;
    let entries = vec![in alloc;
        entry(0, Act::Create(0), Reply::Domain(DomainId(1), 0)),
        entry(0, Act::Create(1), Reply::Domain(DomainId(2), 8)),
        entry(1, Act::Print(text), Reply::Done),
        entry(1, Act::Yield, Reply::Done),
        entry(1, Act::Go(ThreadId(0)), Reply::Done),
        entry(1, Act::Exit(-5), Reply::Done),
        entry(2, Act::End(Reason::Fuel), Reply::Done),
        entry(0, Act::Quiet, Reply::Done),
    ]?;
    Ok(History {
        entries: Listed::from_vec(entries),
    })
}

#[test]
fn history_made_by_hand_has_its_audit(rt: HostRuntime) -> Result<(), Fail> {
    let alloc = rt.alloc();
    let system = system(alloc)?;
    let history = history(alloc)?;
    let mut sink = MemorySink::open(alloc, 1000, Vec::new(alloc))?;
    assert!(rt; render(&system, &history, &mut sink).is_ok());
    assert_eq!(rt; sink.bytes(), WANTED.as_bytes());
    Ok(())
}
