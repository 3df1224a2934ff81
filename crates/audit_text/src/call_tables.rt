//! What the lines of unanswered calls need of a history, found in one pass over its entries.
ghost use Rattle.std.specs.Prelude.{◌≡◌, ◌+◌, ◌<◌, ◌^◌, [], get_or, if◌then◌else◌, reverse, set};
ghost use Rattle.jx_base.specs.Basics.{contains_number};
ghost use Rattle.jx_model.specs.Portals.{is_export};
ghost use Rattle.audit_text.specs.CallTables.{HasCallTables, ended_domain, ended_noted, near};
ghost use Rattle.audit_text.specs.CallTables.{numbers_noted, served_noted, served_then};
ghost use Rattle.audit_text.specs.CallTables.{standing_in, taken_call, taken_service};

use crate::reasons::ended_by;
use jx_base::{Act, Entry, Reply};

// The number of a domain, of a service and of a thread is its place, so that there is one more than
// of those ever.
const DOMAINS: usize = 65;

const SERVICES: usize = 257;

const THREADS: usize = 2049;

// A service has at most so many threads, and they lie together.
const THREADS_OF_SERVICE: usize = 8;

/// How a call stands: answered, or in its queue, or served.
#[derive(Clone, Copy)]
pub enum Standing {
    Answered,
    Queued,
    Running,
}

/// How many services were made, and who owns each, by its number.
#[derive(Drop)]
pub struct Owners {
    pub made: usize,
    pub by_number: [u32; SERVICES],
}

/// What each thread serves, which call of each service was taken last and by which thread, who owns
/// the service, and which domains ended. A number is 0 where there is none.
#[derive(Drop)]
pub struct CallTables {
    pub served: [[u32; THREADS]; DOMAINS],
    pub taken: [u32; SERVICES],
    pub taker: [u32; SERVICES],
    pub owners: Owners,
    pub ended: [bool; DOMAINS],
}

// The call that the acting thread serves after its act, where the act changes that.
#[tactic(auto, unfolding(crate::specs::CallTables::served_then))]
fn served_then(act: &Act) -> Option<u32>
    ensures { result ≡ served_then act.now }
{
    match act {
        Act::Take(call) => Some(call.0),
        Act::Return { .. } => Some(0),
        Act::Throw { .. } => Some(0),
        _ => None,
    }
}

// The service of the call that an entry takes.
#[tactic(auto, unfolding(crate::specs::CallTables::taken_service))]
fn taken_service(entry: &Entry) -> Option<u32>
    ensures { result ≡ taken_service entry.now.act entry.now.reply }
{
    match (&entry.act, &entry.reply) {
        (Act::Take(_), Reply::Job { service, .. }) => Some(service.0),
        _ => None,
    }
}

// The call that an act takes.
#[tactic(auto, unfolding(crate::specs::CallTables::taken_call))]
fn taken_call(act: &Act) -> u32
    ensures { result ≡ taken_call act.now }
{
    match act {
        Act::Take(call) => call.0,
        _ => 0,
    }
}

// Whether the entry makes a service.
#[tactic(auto, unfolding(jx_model::specs::Portals::is_export, jx_model::specs::Portals::exported_interface))]
fn is_export(entry: &Entry) -> bool
    ensures { result ≡ is_export entry.now }
{
    matches!(
        (&entry.act, &entry.reply),
        (Act::Export { .. }, Reply::Service(..))
    )
}

// The domain that an entry ends.
#[tactic(auto, unfolding(crate::specs::CallTables::ended_domain))]
fn ended_domain(entry: &Entry) -> Option<u32>
    ensures { result ≡ ended_domain entry.now }
{
    let (domain, _) = ended_by(entry)?;
    Some(domain)
}

// Puts a number at a place, where there is such a place.
fn put_number(numbers: &mut [u32], place: usize, number: u32)
    ensures { numbers.new ≡ set numbers.old place number }
{
    if place < numbers.len() {
        numbers[place] = number;
    }
}

// Notes what the thread of the entry serves then.
#[tactic(auto, unfolding(crate::specs::CallTables::served_noted))]
fn note_served(served: &mut [[u32; THREADS]; DOMAINS], entry: &Entry)
    ensures { served.new ≡ served_noted entry.now served.old }
{
    if let Some(call) = served_then(&entry.act) {
        let domain = entry.domain.0 as usize;
        if domain < DOMAINS {
            put_number(&mut served[domain], entry.thread.0 as usize, call);
        }
    }
}

// Notes a number for a service, where there is a service.
#[tactic(auto, unfolding(crate::specs::CallTables::numbers_noted))]
fn note_number(numbers: &mut [u32; SERVICES], service: Option<u32>, number: u32)
    ensures { numbers.new ≡ numbers_noted service number numbers.old }
{
    if let Some(place) = service {
        put_number(numbers, place as usize, number);
    }
}

// Notes which domain the entry ends.
#[tactic(auto, unfolding(crate::specs::CallTables::ended_noted))]
fn note_ended(ended: &mut [bool; DOMAINS], entry: &Entry)
    ensures { ended.new ≡ ended_noted (ended_domain entry.now) ended.old }
{
    if let Some(domain) = ended_domain(entry) {
        let place = domain as usize;
        if place < DOMAINS {
            ended[place] = true;
        }
    }
}

fn number_at(numbers: &[u32], place: usize) -> u32
    ensures { result ≡ get_or numbers.now place 0 }
{
    if place < numbers.len() {
        numbers[place]
    } else {
        0
    }
}

// Whether the number stands in the row not far from the place.
#[tactic(auto, unfolding(crate::specs::CallTables::near, jx_base::specs::Basics::contains_number))]
fn stands_near(row: &[u32], place: usize, number: u32) -> bool
    ensures { result ≡ contains_number (near row.now place) number }
{
    row.iter()
        .skip(place.saturating_sub(THREADS_OF_SERVICE))
        .take(2 * THREADS_OF_SERVICE + 1)
        .any(|n| *n == number)
}

impl Owners {
    // Notes who owns the service that the entry makes, if it does.
    fn note(&mut self, entry: &Entry)
        requires { self.old.made + 1 < 2 ^ 64 }
        ensures made { self.new.made
            ≡ (if is_export entry.now then self.old.made + 1 else self.old.made) }
        ensures owners { self.new.by_number ≡ (if is_export entry.now
            then set self.old.by_number (self.old.made + 1) entry.now.domain.0
            else self.old.by_number) }
    {
        if is_export(entry) {
            self.made += 1;
            put_number(&mut self.by_number, self.made, entry.domain.0);
        }
    }
}

impl CallTables {
    /// The tables before any entry.
    pub fn new() -> CallTables
        ensures { HasCallTables result [] }
    {
        CallTables {
            served: [[0; THREADS]; DOMAINS],
            taken: [0; SERVICES],
            taker: [0; SERVICES],
            owners: Owners {
                made: 0,
                by_number: [0; SERVICES],
            },
            ended: [false; DOMAINS],
        }
    }

    /// Notes these entries, the first ones of a history. The tables are large, so that they are
    /// filled where they stand.
    pub fn note_all(&mut self, entries: &[Entry])
        requires { HasCallTables self.old [] }
        ensures { HasCallTables self.new (reverse entries.now) }
    {
        for entry in entries {
            self.note(entry);
        }
    }

    // Notes what the entry changes.
    fn note(&mut self, entry: &Entry)
        requires { self.old.owners.made + 1 < 2 ^ 64 }
        ensures served { self.new.served ≡ served_noted entry.now self.old.served }
        ensures taken { self.new.taken ≡ numbers_noted
            (taken_service entry.now.act entry.now.reply) (taken_call entry.now.act) self.old.taken }
        ensures taker { self.new.taker ≡ numbers_noted
            (taken_service entry.now.act entry.now.reply) entry.now.thread.0 self.old.taker }
        ensures made { self.new.owners.made
            ≡ (if is_export entry.now then self.old.owners.made + 1 else self.old.owners.made) }
        ensures owners { self.new.owners.by_number ≡ (if is_export entry.now
            then set self.old.owners.by_number (self.old.owners.made + 1) entry.now.domain.0
            else self.old.owners.by_number) }
        ensures ended { self.new.ended ≡ ended_noted (ended_domain entry.now) self.old.ended }
    {
        note_served(&mut self.served, entry);
        let service = taken_service(entry);
        note_number(&mut self.taken, service, taken_call(&entry.act));
        note_number(&mut self.taker, service, entry.thread.0);
        self.owners.note(entry);
        note_ended(&mut self.ended, entry);
    }

    /// How a call of the service stands.
    #[tactic(auto, unfolding(crate::specs::CallTables::standing_in))]
    pub fn standing(&self, call: u32, service: u32) -> Standing
        ensures { result ≡ standing_in self.now call service }
    {
        let place = service as usize;
        let owner = number_at(&self.owners.by_number, place) as usize;
        if owner >= DOMAINS || self.ended[owner] {
            return Standing::Answered;
        }
        if number_at(&self.taken, place) < call {
            return Standing::Queued;
        }
        let taker = number_at(&self.taker, place) as usize;
        if stands_near(&self.served[owner], taker, call) {
            Standing::Running
        } else {
            Standing::Answered
        }
    }
}
