//! The threads of a machine.
ghost use Rattle.std.specs.Prelude.{◌≡◌, ◌<◌, ◌++◌, [], Some, None, OnOk, length, map, replicate};
ghost use Rattle.std.specs.Prelude.{slice_get, slice_set};
ghost use Rattle.interp_core.specs.Cores.{store_of};
ghost use Rattle.machine_model.specs.MachineThreads.{idle_thread};
ghost use Rattle.machine_model.specs.State.{Going};
ghost use Rattle.domain_machine.specs.Works.{thread_of};
ghost use Rattle.domain_machine.specs.declared.threads.Thread.{Thread as OneThread};

use interp_core::Core;
use jx_base::{CallId, Frame, OutOfMemory};
use machine_replies::Stage;
use std::alloc::Global;
use std::mem;

/// A thread: the call that it serves, its frames, the running one last, how far it has come, and
/// the methods that it runs after this one, the next one last.
#[derive(Drop)]
pub struct Thread {
    pub call: Option<CallId>,
    pub frames: Vec<Frame>,
    pub stage: Stage,
    pub waiting: Vec<u32>,
}

/// A thread without frames.
#[tactic(auto, unfolding(machine_model::specs::MachineThreads::idle_thread))]
pub fn new_thread(alloc: Global) -> Thread
    ensures { thread_of result ≡ idle_thread }
{
    Thread {
        call: None,
        frames: Vec::new(alloc),
        stage: Stage::Going,
        waiting: Vec::new(alloc),
    }
}

/// Adds so many threads without frames.
pub fn add_threads(alloc: Global, threads: &mut Vec<Thread>, count: u8) -> Result<(), OutOfMemory>
    ensures { OnOk result (map thread_of threads.new.items
        ≡ map thread_of threads.old.items ++ replicate count idle_thread) }
{
    for _ in 0..count {
        threads.push(new_thread(alloc))?;
    }
    Ok(())
}

/// Takes the thread of that place out. Until it is put back, an idle one stands there.
pub fn take_thread(alloc: Global, threads: &mut Vec<Thread>, place: usize) -> Thread
    requires { place < length threads.old.items }
    ensures thread { slice_get threads.old.items place ≡ Some result }
    ensures others { (y : OneThread) → slice_set threads.new.items place y
        ≡ slice_set threads.old.items place y }
    ensures count { length threads.new.items ≡ length threads.old.items }
{
    mem::replace(&mut threads[place], new_thread(alloc))
}

/// Puts a thread to that place.
pub fn put_thread(threads: &mut Vec<Thread>, place: usize, thread: Thread)
    requires { place < length threads.old.items }
    ensures { threads.new.items ≡ slice_set threads.old.items place thread }
{
    threads[place] = thread;
}

/// The frames of the core and those of the thread change places.
pub fn exchange_frames(core: &mut Core, thread: &mut Thread)
    ensures core { core.new.frames ≡ thread.old.frames }
    ensures thread { thread.new ≡ record thread.old { frames = core.old.frames } }
    ensures store { store_of core.new ≡ store_of core.old }
{
    mem::swap(&mut core.frames, &mut thread.frames);
}

/// The thread has no frames, and serves no call.
pub fn end_code(thread: &mut Thread)
    ensures { thread_of thread.new
        ≡ record (thread_of thread.old) { call = None; frames = []; stage = Going } }
{
    thread.call = None;
    thread.frames.clear();
    thread.stage = Stage::Going;
}
