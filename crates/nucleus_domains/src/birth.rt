//! Entries that make a domain.
ghost use Rattle.std.specs.Prelude.{◌≡◌, IsSome};
ghost use Rattle.jx_base.specs.declared.act.Act.TheVariants.{Create};
ghost use Rattle.nucleus_domains.specs.Births.{IsBorn};
ghost use Rattle.program_model.specs.Lookup.{template_at};
ghost use Rattle.table_threads.specs.CallChanges.{entry};
ghost use Rattle.nucleus_tables.specs.Inner.{IsOf, IsPermittedIn, state_of};
ghost use Rattle.nucleus_tables.specs.Stepping.{IsStepped};

use extent_pool::heap_granules;
use jx_base::{Act, DomainId, Entry, Refusal, Reply, System, ThreadId};
use nucleus_tables::{Step, Tables};

/// A domain that was made: its number, and the first granule of its heap.
#[derive(Clone, Copy)]
pub struct Newborn {
    pub domain: DomainId,
    pub at: u32,
}

// The entry of a create.
fn create_entry(template: u32, reply: Reply) -> Entry
    ensures { result ≡ entry 0 0 (Create template) reply }
{
    Entry {
        domain: DomainId(0),
        thread: ThreadId(0),
        act: Act::Create(template),
        reply,
    }
}

// Makes a domain of the template, and finds room for its heap.
fn make_domain(tables: &mut Tables, system: &System, template: u32) -> Result<Newborn, Refusal>
    requires tables { IsOf system.now tables.old }
    requires template { IsSome (template_at system.now template) }
    ensures { IsBorn system.now tables.old tables.new template result }
{
    if !tables.domains.has_room() {
        return Err(Refusal::TooMany);
    }
    match tables.space.take(heap_granules(system, template)) {
        Some(at) => {
            let domain = tables.domains.add(template, DomainId(0), at).unwrap();
            Ok(Newborn { domain, at })
        }
        None => Err(Refusal::NoRoom),
    }
}

/// Enters a create.
pub fn enter_create(tables: &mut Tables, system: &System, template: u32) -> Step
    requires permitted { IsPermittedIn system.now tables.old 0 0 (Create template) }
    ensures { IsStepped system.now (state_of tables.old) (state_of tables.new) 0
        (Create template) result }
{
    let made = make_domain(tables, system, template);
    tables.creates += 1;
    match made {
        Ok(Newborn { domain, at }) => {
            tables
                .journal
                .push(create_entry(template, Reply::Domain(domain, at)));
            Step::Born(ThreadId(0), Reply::Domain(domain, at), domain)
        }
        Err(refusal) => {
            tables
                .journal
                .push(create_entry(template, Reply::Refused(refusal)));
            Step::Replied(ThreadId(0), Reply::Refused(refusal))
        }
    }
}
