//! Each function answers nothing and promises the law.

ghost use Rattle.jx_base.specs.Histories.{past_of};
ghost use Rattle.jx_model.specs.Legal.{IsAdmitted};
ghost use Rattle.thread_laws.specs.Acting.{CallsAgree, EntriesAreOfTheirThread, NoneAfterEnd};
ghost use Rattle.thread_laws.specs.Acting.{NoneAfterExit, RunningThreadsMayPerform, StatesAgree};

use jx_base::{History, System};

/// What a history says of a domain's threads is so in each state that stands for the domain.
pub fn states_agree_on_threads(system: &System, history: &History)
    requires { IsAdmitted system.now history.now }
    ensures { StatesAgree system.now (past_of history.now) }
{}

/// While a domain is live, each thread of its machine serves the call that its history says.
pub fn threads_serve_their_calls(system: &System, history: &History)
    requires { IsAdmitted system.now history.now }
    ensures { CallsAgree system.now (past_of history.now) }
{}

/// The act that a domain's code performs next is one that its running thread may perform.
pub fn running_threads_may_perform(system: &System, history: &History)
    requires { IsAdmitted system.now history.now }
    ensures { RunningThreadsMayPerform system.now (past_of history.now) }
{}

/// The thread of an entry is the one that runs in the state that the entry meets, or with a choice
/// one that goes on where none runs.
pub fn entries_are_of_their_thread(system: &System, history: &History)
    requires { IsAdmitted system.now history.now }
    ensures { EntriesAreOfTheirThread system.now (past_of history.now) }
{}

/// Nothing of a domain comes after its end or its exit.
pub fn nothing_follows_an_end(system: &System, history: &History)
    requires { IsAdmitted system.now history.now }
    ensures end { NoneAfterEnd (past_of history.now) }
    ensures exit { NoneAfterExit (past_of history.now) }
{}
