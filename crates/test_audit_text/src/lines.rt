//! The lines of each act and of each reply.

use crate::odd_names::{every_word, exception, nothing, parcel, system};
use crate::rendering::odd_text;
use audit_lines::write_entries;
use jx_base::{
    Act, CallId, ClassId, DomainId, Entry, MemorySink, MethodId, ObjectId, OutOfMemory, Reason,
    Refusal, Reply, ServiceId, ThreadId, Word, text_of,
};
use page_text::Page;
use std::alloc::Global;
use std::test::Fail;

// Entries, and the lines that they must have.
#[derive(Drop)]
struct Table {
    entries: Vec<Entry>,
    wanted: String,
}

impl Table {
    fn add(&mut self, domain: u32, act: Act, reply: Reply, line: &str) -> Result<(), OutOfMemory> {
        self.entries.push(Entry {
            domain: DomainId(domain),
            thread: ThreadId(3),
            act,
            reply,
        })?;
        self.wanted.push_str(line)?;
        self.wanted.push_str("\n")
    }
}

fn add_services(alloc: Global, table: &mut Table) -> Result<(), OutOfMemory> {
    let made = Reply::Domain(DomainId(1), 0);
    table.add(
        0,
        Act::Create(0),
        made,
        "1 0 3 create \"a\" -> domain 1 at 0",
    )?;
    let refused = Reply::Refused(Refusal::NoRoom);
    table.add(
        0,
        Act::Create(1),
        refused,
        "2 0 3 create \"b\\u000a\" -> noroom",
    )?;
    let line = "3 1 3 print \"a\\u0022\\u005c\\u001f ~\\u007f\\uabcd\\ud800\" -> done";
    table.add(1, Act::Print(odd_text(alloc)?), Reply::Done, line)?;
    let act = Act::Export {
        iface: ClassId(0),
        threads: 4,
    };
    let reply = Reply::Service(ServiceId(1), ClassId(0));
    table.add(1, act, reply, "4 1 3 export \"a/I\" 4 -> service 1")?;
    let act = Act::Export {
        iface: ClassId(2),
        threads: 255,
    };
    let refused = Reply::Refused(Refusal::TooMany);
    table.add(1, act, refused, "5 1 3 export \"E\\u0022\" 255 -> toomany")
}

fn add_names(alloc: Global, table: &mut Table) -> Result<(), OutOfMemory> {
    let act = Act::Bind {
        name: text_of(alloc, "my \"I\"")?,
        service: ServiceId(1),
    };
    let refused = Reply::Refused(Refusal::Taken);
    table.add(
        1,
        act,
        refused,
        "6 1 3 bind \"my \\u0022I\\u0022\" 1 -> taken",
    )?;
    let act = Act::Lookup {
        name: text_of(alloc, "")?,
    };
    table.add(2, act, Reply::NoName, "7 2 3 lookup \"\" -> none")
}

fn add_calls(alloc: Global, table: &mut Table) -> Result<(), OutOfMemory> {
    let act = Act::Call {
        service: ServiceId(1),
        method: MethodId(0),
        parcel: every_word(alloc)?,
    };
    let line =
        "8 2 3 call 1 \"ask\" \"([I)V\" [i-5 l-9223372036854775808 n #1 p7 m9|\"[I\"(i1 i2147483647) \"E\\u0022\"(n #0 p4294967295)] -> queued 1";
    table.add(2, act, Reply::Queued(CallId(1)), line)?;
    let act = Act::Call {
        service: ServiceId(2),
        method: MethodId(1),
        parcel: nothing(alloc),
    };
    let refused = Reply::Refused(Refusal::Gone);
    let line = "9 2 3 call 2 \"s\\u005c\" \"()\\u0022\" [|] -> gone";
    table.add(2, act, refused, line)?;
    let act = Act::Call {
        service: ServiceId(3),
        method: MethodId(1),
        parcel: exception(alloc)?,
    };
    let refused = Reply::Refused(Refusal::NoMethod);
    let line = "10 2 3 call 3 \"s\\u005c\" \"()\\u0022\" [#0|\"E\\u0022\"()] -> nomethod";
    table.add(2, act, refused, line)?;
    let job = Reply::Job {
        service: ServiceId(1),
        method: MethodId(0),
        parcel: every_word(alloc)?,
    };
    let line =
        "11 1 3 take 1 -> job 1 \"ask\" \"([I)V\" [i-5 l-9223372036854775808 n #1 p7 m9|\"[I\"(i1 i2147483647) \"E\\u0022\"(n #0 p4294967295)]";
    table.add(1, Act::Take(CallId(1)), job, line)
}

fn add_answers(alloc: Global, table: &mut Table) -> Result<(), OutOfMemory> {
    let act = Act::Return {
        call: CallId(1),
        parcel: exception(alloc)?,
    };
    let refused = Reply::Refused(Refusal::Unfit);
    table.add(
        1,
        act,
        refused,
        "12 1 3 return 1 [#0|\"E\\u0022\"()] -> unfit",
    )?;
    let act = Act::Throw {
        call: CallId(2),
        parcel: nothing(alloc),
    };
    table.add(
        1,
        act,
        Reply::CopyFailed,
        "13 1 3 throw 2 [|] -> copyfailed",
    )?;
    table.add(1, Act::Go(ThreadId(9)), Reply::Done, "14 1 3 go -> done")
}

fn add_resumes(alloc: Global, table: &mut Table) -> Result<(), OutOfMemory> {
    let value = Reply::Value(parcel(vec![in alloc; Word::Int(7)]?, Vec::new(alloc)));
    table.add(
        2,
        Act::Resume(CallId(1)),
        value,
        "15 2 3 resume 1 -> value [i7|]",
    )?;
    let thrown = Reply::Thrown(exception(alloc)?);
    let line = "16 2 3 resume 2 -> thrown [#0|\"E\\u0022\"()]";
    table.add(2, Act::Resume(CallId(2)), thrown, line)?;
    table.add(
        2,
        Act::Resume(CallId(3)),
        Reply::Ended,
        "17 2 3 resume 3 -> ended",
    )?;
    let refused = Reply::Refused(Refusal::Discarded);
    table.add(
        2,
        Act::Resume(CallId(4)),
        refused,
        "18 2 3 resume 4 -> discarded",
    )
}

fn add_objects(table: &mut Table) -> Result<(), OutOfMemory> {
    let object = ObjectId(1);
    table.add(
        1,
        Act::Alloc(64),
        Reply::Made(object, 8),
        "19 1 3 alloc 64 -> made 1 at 8",
    )?;
    table.add(
        1,
        Act::Size(object),
        Reply::Number(64),
        "20 1 3 size 1 -> number 64",
    )?;
    let act = Act::Sub {
        object,
        at: 8,
        count: 16,
    };
    table.add(
        1,
        act,
        Reply::Object(ObjectId(2)),
        "21 1 3 sub 1 8 16 -> object 2",
    )?;
    let act = Act::Split { object, at: 32 };
    let pair = Reply::Pair(ObjectId(3), ObjectId(4));
    table.add(1, act, pair, "22 1 3 split 1 32 -> pair 3 4")
}

fn add_losses(table: &mut Table) -> Result<(), OutOfMemory> {
    table.add(
        1,
        Act::Revoke(ObjectId(3)),
        Reply::Done,
        "23 1 3 revoke 3 -> done",
    )?;
    table.add(
        1,
        Act::Release(ObjectId(4)),
        Reply::Done,
        "24 1 3 drop 4 -> done",
    )
}

fn add_accesses(table: &mut Table) -> Result<(), OutOfMemory> {
    let object = ObjectId(1);
    let act = Act::Get {
        object,
        at: 60,
        width: 4,
    };
    let least = Reply::Number(-2_147_483_648);
    table.add(1, act, least, "25 1 3 get 1 60 4 -> number -2147483648")?;
    let act = Act::Set {
        object,
        at: 61,
        width: 2,
        value: -1,
    };
    let refused = Reply::Refused(Refusal::Revoked);
    table.add(1, act, refused, "26 1 3 set 1 61 2 -1 -> revoked")?;
    let act = Act::Fill {
        object,
        at: -8,
        count: 16,
        byte: 255,
    };
    let refused = Reply::Refused(Refusal::Range);
    table.add(1, act, refused, "27 1 3 fill 1 -8 16 255 -> range")?;
    let act = Act::Copy {
        source: object,
        at: 1,
        target: ObjectId(2),
        target_at: 3,
        count: 4,
    };
    let refused = Reply::Refused(Refusal::NotHeld);
    table.add(1, act, refused, "28 1 3 copy 1 1 2 3 4 -> notheld")
}

fn add_domains(alloc: Global, table: &mut Table) -> Result<(), OutOfMemory> {
    let act = Act::Spawn {
        name: text_of(alloc, "b\n")?,
    };
    let made = Reply::Domain(DomainId(2), 16);
    table.add(1, act, made, "29 1 3 spawn \"b\\u000a\" -> domain 2 at 16")?;
    let act = Act::Spawn {
        name: text_of(alloc, "c")?,
    };
    let refused = Reply::Refused(Refusal::Unknown);
    table.add(1, act, refused, "30 1 3 spawn \"c\" -> unknown")?;
    let refused = Reply::Refused(Refusal::NotYours);
    table.add(1, Act::Kill(2), refused, "31 1 3 kill 2 -> notyours")?;
    let refused = Reply::Refused(Refusal::NotLive);
    table.add(1, Act::Kill(-2), refused, "32 1 3 kill -2 -> notlive")?;
    table.add(1, Act::Exit(-5), Reply::Done, "33 1 3 exit -5 -> done")
}

fn add_ends(table: &mut Table) -> Result<(), OutOfMemory> {
    table.add(2, Act::Yield, Reply::Done, "34 2 3 yield -> done")?;
    table.add(
        2,
        Act::EndThread(None),
        Reply::Done,
        "35 2 3 end-thread -> done",
    )?;
    let act = Act::EndThread(Some(ClassId(2)));
    table.add(
        2,
        act,
        Reply::Done,
        "36 2 3 end-thread \"E\\u0022\" -> done",
    )?;
    table.add(
        2,
        Act::End(Reason::Fuel),
        Reply::Done,
        "37 2 3 end fuel -> done",
    )?;
    table.add(
        2,
        Act::End(Reason::BadCode),
        Reply::Done,
        "38 2 3 end badcode -> done",
    )?;
    table.add(0, Act::Quiet, Reply::Done, "39 0 3 quiet -> done")?;
    table.add(0, Act::Halt, Reply::Done, "40 0 3 halt -> done")
}

fn whole_table(alloc: Global) -> Result<Table, OutOfMemory> {
    let mut table = Table {
        entries: Vec::new(alloc),
        wanted: String::new(alloc),
    };
    add_services(alloc, &mut table)?;
    add_names(alloc, &mut table)?;
    add_calls(alloc, &mut table)?;
    add_answers(alloc, &mut table)?;
    add_resumes(alloc, &mut table)?;
    add_objects(&mut table)?;
    add_losses(&mut table)?;
    add_accesses(&mut table)?;
    add_domains(alloc, &mut table)?;
    add_ends(&mut table)?;
    Ok(table)
}

#[test]
fn each_act_and_each_reply_has_its_line(rt: HostRuntime) -> Result<(), Fail> {
    let alloc = rt.alloc();
    let system = system(alloc)?;
    let table = whole_table(alloc)?;
    let mut sink = MemorySink::open(alloc, 10_000, Vec::new(alloc))?;
    let mut page = Page::new();
    assert!(rt; write_entries(&system, table.entries.as_slice(), &mut page, &mut sink).is_ok());
    assert!(rt; page.flush(&mut sink).is_ok());
    assert_eq!(rt; sink.bytes(), table.wanted.as_bytes());
    Ok(())
}
