//! Entries of acts that change no table or their thread alone.
ghost use Rattle.std.specs.Prelude.{◌≡◌, Some, true};
ghost use Rattle.jx_model.specs.Permits as Permits;
ghost use Rattle.nucleus_tables.specs.Entering.{IsPlain, IsThreadAct, done_entry, thread_state_after};
ghost use Rattle.nucleus_tables.specs.Inner.{IsPermittedIn, state_of};
ghost use Rattle.nucleus_tables.specs.Stepping.{IsStepped};

use jx_base::{Act, DomainId, Entry, Reply, System, ThreadId, ThreadState};
use nucleus_tables::{Step, Tables};

/// The entry of a done act.
pub fn done(domain: DomainId, thread: ThreadId, act: Act) -> Entry
    ensures { result ≡ done_entry domain.0 thread.0 act }
{
    Entry {
        domain,
        thread,
        act,
        reply: Reply::Done,
    }
}

/// Enters a print.
pub fn enter_plain(
    tables: &mut Tables,
    system: &System,
    domain: DomainId,
    thread: ThreadId,
    act: Act,
) -> Step
    requires permitted { IsPermittedIn system.now tables.old domain.0 thread.0 act }
    requires plain { IsPlain act }
    ensures { IsStepped system.now (state_of tables.old) (state_of tables.new) domain.0 act result }
{
    let _ = system;
    tables.journal.push(done(domain, thread, act));
    Step::Replied(thread, Reply::Done)
}

/// Enters a quiet or a halt: the run is over.
pub fn enter_ending(tables: &mut Tables, system: &System, act: Act) -> Step
    requires permitted { IsPermittedIn system.now tables.old 0 0 act }
    requires ending { Permits.is_ending act ≡ true }
    ensures { IsStepped system.now (state_of tables.old) (state_of tables.new) 0 act result }
{
    let _ = system;
    tables.over = true;
    tables.journal.push(done(DomainId(0), ThreadId(0), act));
    Step::Replied(ThreadId(0), Reply::Done)
}

/// Enters a go, a yield or an end-thread, which put their thread into that state.
pub fn enter_thread(
    tables: &mut Tables,
    system: &System,
    domain: DomainId,
    thread: ThreadId,
    act: Act,
    state: ThreadState,
) -> Step
    requires permitted { IsPermittedIn system.now tables.old domain.0 thread.0 act }
    requires act { IsThreadAct act }
    requires state { state ≡ thread_state_after tables.old domain.0 thread.0 act }
    ensures { IsStepped system.now (state_of tables.old) (state_of tables.new) domain.0 act result }
{
    let _ = system;
    tables.domains.set_thread(domain, thread, state);
    tables.journal.push(done(domain, thread, act));
    Step::Replied(thread, Reply::Done)
}
