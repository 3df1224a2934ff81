//! Exceptions that the machine makes.
ghost use Rattle.std.specs.Prelude.{◌≡◌};
ghost use Rattle.machine_model.specs.State.{default_cells, new_exception};
ghost use Rattle.interp_core.specs.Cores.{store_of};
ghost use Rattle.interp_core.specs.Making.{contents_cells};

use interp_core::{Contents, Core, make_object};
use jx_base::{ClassId, System};

// The object that stands for an exception that has no room.
const OUT_OF_MEMORY_ERROR: u32 = 0;

// The cells of an object of the class in which no field was set.
#[tactic(auto, unfolding(machine_model::specs::State::default_cells, program_model::specs::Lookup::class_at))]
fn contents_of(system: &System, class: u32) -> Contents<'_>
    ensures { contents_cells result ≡ default_cells system.now class }
{
    match system.program.classes.as_slice().get(class as usize) {
        Some(found) => Contents::Defaults(found.fields.as_slice()),
        None => Contents::Defaults(&[]),
    }
}

/// Makes an exception of that class with no message, and gives its place. Object 0 stands for it
/// where it has no room. Takes no memory.
#[tactic(auto, unfolding(machine_model::specs::State::new_exception))]
pub fn make_exception(core: &mut Core, system: &System, class: ClassId) -> u32
    ensures made { new_exception system.now (store_of core.old) class.0
        ≡ (store_of core.new, result) }
    ensures frames { core.new.frames ≡ core.old.frames }
{
    match make_object(core, class, contents_of(system, class.0)) {
        Some(object) => object,
        None => OUT_OF_MEMORY_ERROR,
    }
}
