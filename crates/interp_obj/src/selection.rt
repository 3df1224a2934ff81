//! Which method a call of a selector runs at an object (JVMS 5.4.6).
ghost use Rattle.std.specs.Prelude.{◌≡◌};
ghost use Rattle.program_model.specs.Lookup.{instance_method, is_instance_method_of};
ghost use Rattle.program_model.specs.Lookup.{selected_method};

use class_grammar::is_static;
use jx_base::{Method, System};

#[tactic(auto, unfolding(program_model::specs::Lookup::is_instance_method_of))]
fn is_instance_method(selector: u32, class: u32, method: &Method) -> bool
    ensures { result ≡ is_instance_method_of selector class method.now }
{
    method.class.0 == class && method.selector.0 == selector && !is_static(method.flags)
}

// The place of the class's own instance method of that selector.
#[tactic(auto, unfolding(program_model::specs::Lookup::instance_method))]
fn instance_method(system: &System, selector: u32, class: u32) -> Option<usize>
    ensures { result ≡ instance_method system.now selector class }
{
    let methods = system.program.methods.as_slice();
    methods
        .iter()
        .position(|method| is_instance_method(selector, class, method))
}

/// The place of the instance method that a call of the selector runs at an object of that class: the
/// nearest one on the way from the class over its supers.
pub fn selected_method(system: &System, class: u32, selector: u32) -> Option<usize>
    ensures { result ≡ selected_method system.now class selector }
{
    let classes = system.program.classes.as_slice();
    let mut next = class;
    for _ in 0..classes.len() {
        let found = classes.get(next as usize)?;
        if let Some(method) = instance_method(system, selector, next) {
            return Some(method);
        }
        next = found.parent?.0;
    }
    None
}
