//! The lines of the calls of a history that is made by hand.
ghost use Rattle.std.specs.Prelude.{◌≡◌, IfOk};
ghost use Rattle.test_audit_text.specs.CallsMade.{ask, asked_class, asking_system};
ghost use Rattle.test_audit_text.specs.CallsMade.{call_entry, calls_made, found_entry};
ghost use Rattle.test_audit_text.specs.CallsMade.{served_entry, take_entry};

use crate::odd_names::nothing;
use crate::rendering::{entry, template};
use audit_text::write_calls;
use jx_base::{
    Act, CallId, Class, ClassId, Declared, DomainId, Entry, Listed, MemorySink, MethodId,
    OutOfMemory, Plan, Program, Reply, Selector, ServiceId, System, ThreadId, text_of,
};
use page_text::Page;
use std::alloc::Global;
use std::test::Fail;

const WANTED: &str = "2 running\n3 queued\n";

const SERVICE: ServiceId = ServiceId(1);

const METHOD: MethodId = MethodId(0);

const INTERFACE: ClassId = ClassId(0);

#[tactic(auto, unfolding(crate::specs::CallsMade::ask))]
fn ask(alloc: Global) -> Result<Selector, OutOfMemory>
    ensures { IfOk result (λ selector. selector ≡ ask) }
{
    Ok(Selector {
        name: text_of(alloc, "ask")?,
        descriptor: text_of(alloc, "()V")?,
    })
}

#[tactic(auto, unfolding(crate::specs::CallsMade::asked_class))]
fn asked_class(alloc: Global) -> Result<Class, OutOfMemory>
    ensures { IfOk result (λ class. class ≡ asked_class) }
{
    let selector = ask(alloc)?;
    let methods = vec![in alloc;
        Declared {
            flags: 1025,
            selector
        },
    ]?;
    Ok(Class {
        name: text_of(alloc, "I")?,
        parent: None,
        interfaces: Listed::from_vec(Vec::new(alloc)),
        component: None,
        fields: Listed::from_vec(Vec::new(alloc)),
        statics: Listed::from_vec(Vec::new(alloc)),
        methods: Listed::from_vec(methods),
        flags: 1537,
        constants: Listed::from_vec(Vec::new(alloc)),
    })
}

#[tactic(auto, unfolding(crate::specs::CallsMade::asking_system))]
fn system(alloc: Global) -> Result<System, OutOfMemory>
    ensures { IfOk result (λ system. system ≡ asking_system) }
{
    let templates = vec![in alloc;
        template(alloc, "a")?,
        template(alloc, "b")?,
        template(alloc, "c")?,
    ]?;
    Ok(System {
        plan: Plan {
            granules: 64,
            journal: 9000,
            templates: Listed::from_vec(templates),
            classes: Listed::from_vec(Vec::new(alloc)),
        },
        program: Program {
            classes: Listed::from_vec(vec![in alloc; asked_class(alloc)?]?),
            methods: Listed::from_vec(Vec::new(alloc)),
            selectors: Listed::from_vec(vec![in alloc; ask(alloc)?]?),
        },
    })
}

#[tactic(auto, unfolding(crate::specs::CallsMade::served_entry))]
fn served(act: Act, reply: Reply) -> Entry
    ensures { result ≡ served_entry act reply }
{
    Entry {
        domain: DomainId(1),
        thread: ThreadId(1),
        act,
        reply,
    }
}

#[tactic(auto, unfolding(crate::specs::CallsMade::call_entry))]
fn call(alloc: Global, domain: u32, call: u32) -> Entry
    ensures { result ≡ call_entry domain call }
{
    let act = Act::Call {
        service: SERVICE,
        method: METHOD,
        parcel: nothing(alloc),
    };
    entry(domain, act, Reply::Queued(CallId(call)))
}

#[tactic(auto, unfolding(crate::specs::CallsMade::take_entry))]
fn take(alloc: Global, call: u32) -> Entry
    ensures { result ≡ take_entry call }
{
    let job = Reply::Job {
        service: SERVICE,
        method: METHOD,
        parcel: nothing(alloc),
    };
    served(Act::Take(CallId(call)), job)
}

#[tactic(auto, unfolding(crate::specs::CallsMade::found_entry))]
fn found(alloc: Global, domain: u32) -> Result<Entry, OutOfMemory>
    ensures { IfOk result (λ entry. entry ≡ found_entry domain) }
{
    let act = Act::Lookup {
        name: text_of(alloc, "s")?,
    };
    Ok(entry(domain, act, Reply::Service(SERVICE, INTERFACE)))
}

#[tactic(auto, unfolding(crate::specs::CallsMade::calls_made))]
fn entries(alloc: Global) -> Result<Vec<Entry>, OutOfMemory>
    ensures { IfOk result (λ entries. entries.items ≡ calls_made) }
{
    let export = Act::Export {
        iface: INTERFACE,
        threads: 1,
    };
    let bind = Act::Bind {
        name: text_of(alloc, "s")?,
        service: SERVICE,
    };
    let answer = Act::Return {
        call: CallId(1),
        parcel: nothing(alloc),
    };
    let resume = Act::Resume(CallId(1));
    Ok(vec![in alloc;
        entry(0, Act::Create(0), Reply::Domain(DomainId(1), 0)),
        entry(0, Act::Create(1), Reply::Domain(DomainId(2), 8)),
        entry(0, Act::Create(2), Reply::Domain(DomainId(3), 16)),
        entry(1, export, Reply::Service(SERVICE, INTERFACE)),
        entry(1, bind, Reply::Done),
        entry(1, Act::Yield, Reply::Done),
        found(alloc, 2)?,
        call(alloc, 2, 1),
        take(alloc, 1),
        served(answer, Reply::Done),
        entry(2, resume, Reply::Value(nothing(alloc))),
        call(alloc, 2, 2),
        take(alloc, 2),
        found(alloc, 3)?,
        call(alloc, 3, 3),
    ]?)
}

#[test]
fn running_and_queued_calls_have_their_lines(rt: HostRuntime) -> Result<(), Fail> {
    let alloc = rt.alloc();
    let system = system(alloc)?;
    let entries = entries(alloc)?;
    let mut sink = MemorySink::open(alloc, 1000, Vec::new(alloc))?;
    let mut page = Page::new();
    assert!(rt; write_calls(&system, entries.as_slice(), &mut page, &mut sink).is_ok());
    assert!(rt; page.flush(&mut sink).is_ok());
    assert_eq!(rt; sink.bytes(), WANTED.as_bytes());
    Ok(())
}
