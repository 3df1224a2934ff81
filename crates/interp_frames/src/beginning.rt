//! How a method begins in a thread without frames (JVMS 2.6).
ghost use Rattle.std.specs.Prelude.{◌≡◌, [], IfOk};
ghost use Rattle.interp_core.specs.Cores.{core_state};
ghost use Rattle.interp_frames.specs.Beginnings.{Begins};

use interp_core::Core;
use interp_obj::{frame_of, is_overflow};
use jx_base::{OutOfMemory, System, Value};
use std::alloc::Global;

/// How a method begins.
#[derive(Clone, Copy)]
pub enum Begun {
    /// Its frame is there.
    Going,
    /// A frame of it would be one too many, or fill too many slots.
    Overflow,
    /// It has no code, or its arguments no room in its locals.
    NoPlace,
}

/// A method begins in a thread without frames. Unless it is going, all is as before.
pub fn begin(
    alloc: Global,
    core: &mut Core,
    system: &System,
    method: u32,
    arguments: &[Value],
) -> Result<Begun, OutOfMemory>
    requires empty { (core_state core.old).frames ≡ [] }
    ensures { IfOk result (λ begun. Begins system.now method arguments.now begun
        (core_state core.old) (core_state core.new)) }
{
    if is_overflow(system, method, &[]) {
        return Ok(Begun::Overflow);
    }
    let Some(frame) = frame_of(alloc, system, method, arguments)? else {
        return Ok(Begun::NoPlace);
    };
    core.frames.push(frame)?;
    Ok(Begun::Going)
}
