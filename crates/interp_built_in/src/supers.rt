//! What a class extends and implements.
ghost use Rattle.std.specs.Prelude.{◌≡◌, ◌&&◌, Some, None, if◌then◌else◌};
ghost use Rattle.std.specs.Option.{option_map, option_and_then};
ghost use Rattle.jx_base.specs.Basics.{contains_number};
ghost use Rattle.machine_model.specs.BuiltInMethods.{interface_named};
ghost use Rattle.program_model.specs.Lookup.{supers_within, is_below};

use jx_base::{ClassId, System};
use program_types::{class_named, is_interface};

// The class of that place, where so many steps at most lead to it from a class over what it extends
// and implements.
fn found_above(system: &System, steps: usize, class: ClassId, above: usize) -> Option<ClassId>
    ensures { option_map (λ c. c.0) result
        ≡ (if contains_number (supers_within system.now steps class.0) above
        then Some above else None) }
{
    if steps == 0 {
        return None;
    }
    let Some(found) = system.program.classes.as_slice().get(class.0 as usize) else {
        return None;
    };
    if class.0 as usize == above {
        return Some(class);
    }
    let interfaces = found.interfaces.as_slice();
    for interface in interfaces {
        let reached = found_above(system, steps - 1, *interface, above);
        if reached.is_some() {
            return reached;
        }
    }
    match found.parent {
        Some(parent) => found_above(system, steps - 1, parent, above),
        None => None,
    }
}

// The class of that place, where the class is it or extends or implements it.
#[tactic(auto, unfolding(program_model::specs::Lookup::is_below, program_model::specs::Lookup::supers_of, program_model::specs::Lookup::class_count))]
fn super_at(system: &System, class: ClassId, above: usize) -> Option<ClassId>
    ensures { option_map (λ c. c.0) result
        ≡ (if is_below system.now class.0 above then Some above else None) }
{
    found_above(
        system,
        system.program.classes.as_slice().len(),
        class,
        above,
    )
}

/// The interface of that name, where the class implements it.
#[tactic(auto, unfolding(machine_model::specs::BuiltInMethods::interface_named))]
pub fn interface_named(system: &System, class: ClassId, name: &[u16]) -> Option<ClassId>
    ensures { option_map (λ c. c.0) result ≡ interface_named system.now class.0 name.now }
{
    let place = class_named(system, name)?;
    if is_interface(system, place) {
        super_at(system, class, place)
    } else {
        None
    }
}
