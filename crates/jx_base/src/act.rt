//! Acts, their replies, and histories.

use crate::ids::{CallId, ClassId, DomainId, MethodId, ObjectId, ServiceId, ThreadId};
use crate::listed::{Entries, Text};
use crate::value::Parcel;

/// Why a domain ended.
#[derive(Clone, Copy)]
pub enum Reason {
    Exit(i32),
    Killed,
    Fuel,
    BadCode,
}

/// What a domain asks of the nucleus, a choice of the nucleus (`Take`, `Resume`, `Go`), or an act
/// of Domain Zero (`Create`, `Quiet`, `Halt`). `Create` has the place of a template in the plan.
/// Texts have at most 4,096 units. Offsets and counts of memory objects are in bytes; a width is 1,
/// 2 or 4.
#[derive(Drop)]
pub enum Act {
    Create(u32),
    Print(Text),
    Export {
        iface: ClassId,
        threads: u8,
    },
    Bind {
        name: Text,
        service: ServiceId,
    },
    Lookup {
        name: Text,
    },
    Call {
        service: ServiceId,
        method: MethodId,
        parcel: Parcel,
    },
    Take(CallId),
    Return {
        call: CallId,
        parcel: Parcel,
    },
    Throw {
        call: CallId,
        parcel: Parcel,
    },
    Resume(CallId),
    Go(ThreadId),
    Alloc(i32),
    Size(ObjectId),
    Get {
        object: ObjectId,
        at: i32,
        width: u8,
    },
    Set {
        object: ObjectId,
        at: i32,
        width: u8,
        value: i32,
    },
    Fill {
        object: ObjectId,
        at: i32,
        count: i32,
        byte: u8,
    },
    Copy {
        source: ObjectId,
        at: i32,
        target: ObjectId,
        target_at: i32,
        count: i32,
    },
    Sub {
        object: ObjectId,
        at: i32,
        count: i32,
    },
    Split {
        object: ObjectId,
        at: i32,
    },
    Revoke(ObjectId),
    Release(ObjectId),
    Spawn {
        name: Text,
    },
    Kill(i32),
    Exit(i32),
    Yield,
    EndThread(Option<ClassId>),
    End(Reason),
    Quiet,
    Halt,
}

/// Why an act was refused.
#[derive(Clone, Copy)]
pub enum Refusal {
    NotHeld,
    Taken,
    Gone,
    NoMethod,
    Unfit,
    Discarded,
    Range,
    Revoked,
    TooMany,
    NoRoom,
    Unknown,
    NotYours,
    NotLive,
}

/// What the nucleus answers. `Made` and `Domain` carry the first granule of the extent or of the
/// heap.
#[derive(Drop)]
pub enum Reply {
    Done,
    Service(ServiceId, ClassId),
    NoName,
    Queued(CallId),
    Job {
        service: ServiceId,
        method: MethodId,
        parcel: Parcel,
    },
    Value(Parcel),
    Thrown(Parcel),
    CopyFailed,
    Ended,
    Number(i32),
    Made(ObjectId, u32),
    Object(ObjectId),
    Pair(ObjectId, ObjectId),
    Domain(DomainId, u32),
    Refused(Refusal),
}

/// One step of the nucleus: who acted, and what came of it.
#[derive(Drop)]
pub struct Entry {
    pub domain: DomainId,
    pub thread: ThreadId,
    pub act: Act,
    pub reply: Reply,
}

/// All steps of a run, the first one first.
#[derive(Drop)]
pub struct History {
    pub entries: Entries,
}
