//! What an entry makes of its thread.
ghost use Rattle.std.specs.Prelude.{◌≡◌, IfOk, OnOk, None, reverse, false};
ghost use Rattle.domain_machine.specs.Entering.{IsSetTo, Settles, own_core};
ghost use Rattle.domain_machine.specs.Works.{thread_of};
ghost use Rattle.interp_core.specs.Cores.{store_of};
ghost use Rattle.machine_calls.specs.Calling.{IsHandedTo};
ghost use Rattle.machine_model.specs.AfterEntry.{after_reply, after_result, after_resume};
ghost use Rattle.machine_replies.specs.Leaving.{CanRun, HasPast, IsRepliedTo, exported_by};
ghost use Rattle.machine_replies.specs.Leaving.{with_exported};
ghost use Rattle.domain_machine.specs.Taking.{taken_by};

use crate::threads::{Thread, exchange_frames};
use interp_core::Core;
use jx_base::{CallId, ClassId, MethodId, OutOfMemory, Parcel, Reply, ServiceId, System};
use machine_calls::{resume, take_call};
use machine_replies::{Stage, add_export, give_reply, go_behind};
use std::alloc::Global;

/// The thread has come to the stage, if there is one. Whether that is bad code.
pub fn settle(thread: &mut Thread, stage: Option<Stage>) -> bool
    ensures { IsSetTo thread.old stage thread.new result }
{
    match stage {
        None => false,
        Some(Stage::Bad) => true,
        Some(stage) => {
            thread.stage = stage;
            false
        }
    }
}

/// The thread, which performed an act, goes on with the reply. Whether it met bad code.
pub fn reply_to(
    alloc: Global,
    system: &System,
    core: &mut Core,
    thread: &mut Thread,
    reply: &Reply,
) -> Result<bool, OutOfMemory>
    requires system { CanRun system.now }
    requires reply { IsRepliedTo system.now (own_core core.old thread.old) reply.now }
    ensures { IfOk result (Settles (store_of core.old) (thread_of thread.old) (store_of core.new)
        (thread_of thread.new) (λ st t x. after_reply system.now st t x reply.now)) }
{
    exchange_frames(core, thread);
    let stage = give_reply(alloc, system, core, reply)?;
    exchange_frames(core, thread);
    Ok(settle(thread, stage))
}

/// The thread, which waits for the answer to a call, goes on with it. Whether it met bad code.
pub fn answer_to(
    alloc: Global,
    system: &System,
    core: &mut Core,
    thread: &mut Thread,
    answer: &Reply,
) -> Result<bool, OutOfMemory>
    requires system { CanRun system.now }
    requires reply { IsRepliedTo system.now (own_core core.old thread.old) answer.now }
    ensures { IfOk result (Settles (store_of core.old) (thread_of thread.old) (store_of core.new)
        (thread_of thread.new) (λ st t x. after_resume system.now st t x answer.now)) }
{
    exchange_frames(core, thread);
    let stage = resume(alloc, system, core, answer)?;
    exchange_frames(core, thread);
    Ok(settle(thread, stage))
}

/// The thread, which has nothing to do, takes the call. Whether it met bad code.
pub fn take_in(
    alloc: Global,
    system: &System,
    core: &mut Core,
    thread: &mut Thread,
    call: CallId,
    service: ServiceId,
    method: MethodId,
    parcel: &Parcel,
) -> Result<bool, OutOfMemory>
    requires system { CanRun system.now }
    requires parcel { IsHandedTo system.now (own_core core.old thread.old) parcel.now }
    ensures { IfOk result (Settles (store_of core.old) (thread_of thread.old) (store_of core.new)
        (thread_of thread.new) (taken_by system.now call service method parcel.now)) }
{
    exchange_frames(core, thread);
    let stage = take_call(alloc, system, core, service, method, parcel)?;
    exchange_frames(core, thread);
    thread.call = Some(call);
    Ok(settle(thread, Some(stage)))
}

/// The object that the thread exports is that of the service.
pub fn export_by(
    core: &mut Core,
    thread: &mut Thread,
    service: ServiceId,
    iface: ClassId,
) -> Result<(), OutOfMemory>
    ensures store { OnOk result (store_of core.new ≡ with_exported (store_of core.old)
        (exported_by (reverse thread.old.frames.items)) service iface) }
    ensures thread { OnOk result (thread.new ≡ thread.old) }
{
    exchange_frames(core, thread);
    add_export(core, service, iface)?;
    exchange_frames(core, thread);
    Ok(())
}

/// The thread is behind the call that it performed, which has no result.
pub fn go_on(system: &System, core: &mut Core, thread: &mut Thread)
    requires system { CanRun system.now }
    requires core { HasPast system.now (own_core core.old thread.old) }
    ensures { Settles (store_of core.old) (thread_of thread.old) (store_of core.new)
        (thread_of thread.new) (λ st t x. after_result system.now st t x None) false }
{
    exchange_frames(core, thread);
    let stage = go_behind(system, core);
    exchange_frames(core, thread);
    settle(thread, stage);
}
