//! Copies of replies that carry parcels.
ghost use Rattle.std.specs.Prelude.{◌≡◌, IfOk};
ghost use Rattle.nucleus_tables.specs.Portals.{IsReceivedReply};

use jx_base::{OutOfMemory, Reply};
use parcel_carriage::copy_parcel;
use std::alloc::Global;

/// A copy of a reply to a take or a resume.
pub fn copy_reply(alloc: Global, reply: &Reply) -> Result<Reply, OutOfMemory>
    requires { IsReceivedReply reply.now }
    ensures { IfOk result (λ copy. copy ≡ reply.now) }
{
    match reply {
        Reply::Job {
            service,
            method,
            parcel,
        } => Ok(Reply::Job {
            service: *service,
            method: *method,
            parcel: copy_parcel(alloc, parcel)?,
        }),
        Reply::Value(parcel) => Ok(Reply::Value(copy_parcel(alloc, parcel)?)),
        Reply::Thrown(parcel) => Ok(Reply::Thrown(copy_parcel(alloc, parcel)?)),
        Reply::CopyFailed => Ok(Reply::CopyFailed),
        Reply::Ended => Ok(Reply::Ended),
        _ => Ok(Reply::Done),
    }
}
