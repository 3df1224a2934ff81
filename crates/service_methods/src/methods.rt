//! Whether an interface has a method.
ghost use Rattle.std.specs.Prelude.{◌≡◌, ◌||◌, ◌==◌, length};
ghost use Rattle.std.specs.List.{list_any, range_with_len};
ghost use Rattle.jx_base.specs.Basics.{passes};
ghost use Rattle.program_model.specs.Lookup.{class_at, has_method, has_own_method, is_interface, same_selector};
ghost use Rattle.service_methods.specs.Methods.{offers};

use jx_base::{Class, Selector, System};
use program_types::{is_below, is_interface};

#[tactic(auto, unfolding(program_model::specs::Lookup::same_selector))]
fn is_same_selector(selector: &Selector, other: &Selector) -> bool
    ensures { result ≡ same_selector selector.now other.now }
{
    selector.name == other.name && selector.descriptor == other.descriptor
}

// Whether the class declares a method of the selector.
#[tactic(auto, unfolding(program_model::specs::Lookup::has_own_method))]
fn declares(class: &Class, selector: &Selector) -> bool
    ensures { result ≡ has_own_method selector.now class.now }
{
    let methods = class.methods.as_slice();
    methods
        .iter()
        .any(|method| is_same_selector(selector, &method.selector))
}

// Whether the class of that number declares a method of the selector.
#[tactic(auto, unfolding(program_model::specs::Lookup::class_at, jx_base::specs::Basics::passes))]
fn declares_at(system: &System, selector: &Selector, class: usize) -> bool
    ensures { result ≡ passes (has_own_method selector.now) (class_at system.now class) }
{
    match system.program.classes.as_slice().get(class) {
        Some(found) => declares(found, selector),
        None => false,
    }
}

// Whether the class is the interface, or another interface.
fn is_like(system: &System, interface: usize, class: usize) -> bool
    ensures { result ≡ ((class == interface) || is_interface system.now class) }
{
    class == interface || is_interface(system, class)
}

// Whether the class is the interface or one above it, and declares a method of the selector.
fn is_offered(system: &System, interface: usize, selector: &Selector, class: usize) -> bool
    ensures { result ≡ offers system.now interface selector.now class }
{
    declares_at(system, selector, class)
        && is_like(system, interface, class)
        && is_below(system, interface, class)
}

// Whether a class offers the interface a method of the selector.
fn has_selector(system: &System, interface: usize, selector: &Selector) -> bool
    ensures { result ≡ list_any (offers system.now interface selector.now)
        (range_with_len 0 (length system.now.program.classes)) }
{
    let classes = system.program.classes.as_slice().len();
    for class in 0..classes {
        if is_offered(system, interface, selector, class) {
            return true;
        }
    }
    false
}

/// Whether the selector is a method that the class declares, or that an interface above it does.
/// Takes no memory.
pub fn has_method(system: &System, interface: usize, method: usize) -> bool
    ensures { result ≡ has_method system.now interface method }
{
    let Some(selector) = system.program.selectors.as_slice().get(method) else {
        return false;
    };
    has_selector(system, interface, selector)
}
