//! Entries that end their domain.
ghost use Rattle.std.specs.Prelude.{◌≡◌, ◌≤◌, length, map, true};
ghost use Rattle.jx_model.specs.Domains.{is_live};
ghost use Rattle.nucleus_domains.specs.Ends.{IsEndingAct, lost_call, with_ended, with_tables_ended};
ghost use Rattle.nucleus_tables.specs.Inner.{IsOf, IsPermittedIn, past_in, state_of};
ghost use Rattle.nucleus_tables.specs.Stepping.{IsStepped};
ghost use Rattle.table_steps.specs.Steps.{owns};

use crate::entering::done;
use extent_pool::heap_granules;
use jx_base::{Act, DomainId, Reason, Reply, ServiceId, System, ThreadId};
use nucleus_tables::{Step, Tables};

// Services are numbered from 1.
const MOST_SERVICES: u32 = 256;

// Answers each call to a service of the domain that is queued or runs: the domain ended.
fn end_calls(tables: &mut Tables, domain: DomainId)
    requires { length tables.old.services.services ≤ 256 }
    ensures { tables.new ≡ record tables.old {
      calls = record tables.old.calls {
        calls = map (lost_call tables.old.services.services domain.0) tables.old.calls.calls;
      };
    } }
{
    for number in 1..MOST_SERVICES + 1 {
        if tables.owns(domain, ServiceId(number)) {
            tables.calls.end_service(ServiceId(number));
        }
    }
}

// Ends a live domain: it holds no portals, and its heap's granules are free.
fn end_tables(tables: &mut Tables, system: &System, domain: DomainId, reason: Reason)
    requires tables { IsOf system.now tables.old }
    requires live { is_live (past_in tables.old) domain.0 ≡ true }
    ensures { tables.new ≡ with_tables_ended system.now tables.old domain.0 reason }
{
    let ended = tables.domains.state(domain).unwrap();
    tables.domains.end(domain, reason);
    tables
        .space
        .give(ended.at, heap_granules(system, ended.template));
    tables.services.end_domain(domain);
}

// Ends a live domain, and answers the calls to its services.
fn end_domain(tables: &mut Tables, system: &System, domain: DomainId, reason: Reason)
    requires tables { IsOf system.now tables.old }
    requires live { is_live (past_in tables.old) domain.0 ≡ true }
    ensures { tables.new ≡ with_ended system.now tables.old domain.0 reason }
{
    end_tables(tables, system, domain, reason);
    end_calls(tables, domain);
}

/// Enters an exit, or the end of a domain, for that reason.
pub fn enter_end(
    tables: &mut Tables,
    system: &System,
    domain: DomainId,
    thread: ThreadId,
    act: Act,
    reason: Reason,
) -> Step
    requires permitted { IsPermittedIn system.now tables.old domain.0 thread.0 act }
    requires act { IsEndingAct act reason }
    ensures { IsStepped system.now (state_of tables.old) (state_of tables.new) domain.0 act result }
{
    end_domain(tables, system, domain, reason);
    tables.journal.push(done(domain, thread, act));
    Step::Replied(thread, Reply::Done)
}
