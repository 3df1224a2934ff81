//! Entries that are put behind the others, with the reply that the step gives.
ghost use Rattle.std.specs.Prelude.{◌≡◌};
ghost use Rattle.journal.specs.Journals.{HasRoomFor};
ghost use Rattle.table_threads.specs.CallChanges.{entry};
ghost use Rattle.nucleus_tables.specs.Inner.{with_put};
ghost use Rattle.nucleus_tables.specs.Portals.{HasNoParcel};
ghost use Rattle.nucleus_tables.specs.declared.step.Step.TheVariants.{Replied};

use crate::step::Step;
use crate::tables::Tables;
use jx_base::{Act, DomainId, Entry, Reply, ThreadId};

// The same reply once more.
fn repeated(reply: &Reply) -> Reply
    requires { HasNoParcel reply.now }
    ensures { result ≡ reply.now }
{
    match reply {
        Reply::Service(service, iface) => Reply::Service(*service, *iface),
        Reply::Queued(call) => Reply::Queued(*call),
        Reply::Refused(refusal) => Reply::Refused(*refusal),
        Reply::NoName => Reply::NoName,
        Reply::Number(number) => Reply::Number(*number),
        Reply::Made(object, at) => Reply::Made(*object, *at),
        Reply::Object(object) => Reply::Object(*object),
        Reply::Pair(first, second) => Reply::Pair(*first, *second),
        Reply::Domain(domain, at) => Reply::Domain(*domain, *at),
        Reply::CopyFailed => Reply::CopyFailed,
        Reply::Ended => Reply::Ended,
        _ => Reply::Done,
    }
}

impl Tables {
    /// Puts the entry of the act behind the others, and replies with a copy of its reply.
    pub fn put_copied(
        &mut self,
        domain: DomainId,
        thread: ThreadId,
        act: Act,
        reply: Reply,
        copy: Reply,
    ) -> Step
        requires room { HasRoomFor self.old.journal (entry domain.0 thread.0 act reply) }
        requires same { copy ≡ reply }
        ensures after { self.new ≡ with_put self.old (entry domain.0 thread.0 act reply) }
        ensures step { result ≡ Replied thread reply }
    {
        self.journal.push(Entry {
            domain,
            thread,
            act,
            reply,
        });
        Step::Replied(thread, copy)
    }

    /// Puts the entry of the act behind the others, and replies.
    pub fn put(&mut self, domain: DomainId, thread: ThreadId, act: Act, reply: Reply) -> Step
        requires room { HasRoomFor self.old.journal (entry domain.0 thread.0 act reply) }
        requires reply { HasNoParcel reply }
        ensures after { self.new ≡ with_put self.old (entry domain.0 thread.0 act reply) }
        ensures step { result ≡ Replied thread reply }
    {
        let copy = repeated(&reply);
        self.put_copied(domain, thread, act, reply, copy)
    }
}
