//! A parcel that a domain is handed.
ghost use Rattle.std.specs.Prelude.{◌≡◌, IfOk, option_map};
ghost use Rattle.std.specs.Option.{option_map};
ghost use Rattle.interp_core.specs.Cores.{store_of};
ghost use Rattle.machine_calls.specs.Calling.{IsUnpackedAs};
ghost use Rattle.param_copy.specs.Copies.{ArePlaced};

use interp_core::Core;
use jx_base::{OutOfMemory, Parcel, Value};
use param_copy::{UnpackFault, unpack};
use std::alloc::{AllocError, Global};

// The object that is thrown for want of room.
pub(crate) const OUT_OF_MEMORY_ERROR: u32 = 0;

/// Makes an object for each node of the parcel, and gives the roots. `None` where the nodes have no
/// room: then all is as it was.
pub fn unpack_roots(
    alloc: Global,
    core: &mut Core,
    parcel: &Parcel,
) -> Result<Option<Vec<Value>>, OutOfMemory>
    requires { ArePlaced parcel.now }
    ensures roots { IfOk result (λ roots. IsUnpackedAs (store_of core.old) parcel.now
        (option_map (λ v. v.items) roots) (store_of core.new)) }
    ensures frames { core.new.frames ≡ core.old.frames }
{
    match unpack(alloc, &mut core.heap, parcel) {
        Ok(roots) => Ok(Some(roots)),
        Err(UnpackFault::NoRoom) => Ok(None),
        Err(UnpackFault::OutOfMemory) => Err(AllocError),
    }
}
