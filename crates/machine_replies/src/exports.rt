//! The objects that a domain has exported.
ghost use Rattle.std.specs.Prelude.{◌≡◌, OnOk};
ghost use Rattle.interp_core.specs.Cores.{core_state, store_of};
ghost use Rattle.machine_model.specs.AfterEntry.{object_of_value};
ghost use Rattle.machine_replies.specs.Leaving.{exported_by, with_exported};

use interp_core::{Core, peek};
use jx_base::{ClassId, Exported, OutOfMemory, ServiceId, Value};

// How many arguments of an export are above its object.
const ABOVE_OBJECT: usize = 2;

// The object that the value is, or object 0.
#[tactic(auto, unfolding(machine_model::specs::AfterEntry::object_of_value))]
fn object_of_value(value: Value) -> u32
    ensures { result ≡ object_of_value value }
{
    match value {
        Value::Ref(object) => object,
        _ => 0,
    }
}

// The object that the running frame exports.
fn exported_by(core: &Core) -> u32
    ensures { result ≡ exported_by (core_state core.now).frames }
{
    match peek(core, ABOVE_OBJECT) {
        Some(value) => object_of_value(value),
        None => 0,
    }
}

/// The object that the running frame exports is that of the service.
pub fn add_export(core: &mut Core, service: ServiceId, iface: ClassId) -> Result<(), OutOfMemory>
    ensures store { OnOk result (store_of core.new ≡ with_exported (store_of core.old)
        (exported_by (core_state core.old).frames) service iface) }
    ensures frames { OnOk result (core.new.frames ≡ core.old.frames) }
{
    let object = exported_by(core);
    core.exports.push(Exported {
        object,
        service,
        iface,
    })?;
    Ok(())
}
