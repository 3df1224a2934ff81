//! Which classes a class may extend and implement.
ghost use Rattle.std.specs.Prelude.{◌≡◌, map, not};
ghost use Rattle.std.specs.List.{find};
ghost use Rattle.std.specs.Option.{option_map};
ghost use Rattle.jx_base.specs.Basics.{has_text};
ghost use Rattle.link_model.specs.ClassFiles.{interface_names};
ghost use Rattle.link_model.specs.LinkFaults.{may_extend, may_implement};
ghost use Rattle.linker_faults.specs.Relations.{lists_interface};
ghost use Rattle.program_model.specs.BuiltIn.{throwable_classes};

use crate::ascii::{is_among, is_text};
use crate::hierarchy::Hierarchy;
use class_grammar::is_interface_flag;
use jx_base::ClassFile;
use linker_lists::TemplateClasses;
use linker_names::class_name_in;

// The names of the built-in classes of objects that can be thrown.
const THROWABLES: [&str; 21] = [
    "java/lang/Throwable",
    "java/lang/Exception",
    "java/lang/RuntimeException",
    "java/lang/ArithmeticException",
    "java/lang/NullPointerException",
    "java/lang/IndexOutOfBoundsException",
    "java/lang/ArrayIndexOutOfBoundsException",
    "java/lang/StringIndexOutOfBoundsException",
    "java/lang/NegativeArraySizeException",
    "java/lang/ClassCastException",
    "java/lang/ArrayStoreException",
    "java/lang/Error",
    "java/lang/VirtualMachineError",
    "java/lang/OutOfMemoryError",
    "java/lang/StackOverflowError",
    "jx/CopyException",
    "jx/EndedException",
    "jx/RevokedException",
    "jx/DroppedException",
    "jx/RangeException",
    "jx/RefusedException",
];

// Whether a built-in class of objects that can be thrown has that name.
fn is_throwable(name: &[u16]) -> bool
    ensures { result ≡ has_text (map (λ k. k.name) throwable_classes) name.now }
{
    is_among(name, &THROWABLES)
}

/// Whether a class of the template may have that super.
#[tactic(auto, unfolding(link_model::specs::LinkFaults::may_extend, link_model::specs::LinkFaults::is_object_name))]
pub fn may_extend(classes: &TemplateClasses<'_>, file: &ClassFile, name: &[u16]) -> bool
    ensures { result ≡ may_extend classes.now.plan classes.now.template file.now name.now }
{
    is_text(name, "java/lang/Object")
        || !is_interface_flag(file.flags) && (classes.lists(name) || is_throwable(name))
}

// Whether the template lists an interface of that name.
#[tactic(auto, unfolding(jx_base::specs::Basics::passes))]
fn lists_interface(hierarchy: &Hierarchy<'_>, name: &[u16]) -> bool
    ensures { result ≡ lists_interface hierarchy.now name.now }
{
    let Some(place) = hierarchy.classes().place(name) else {
        return false;
    };
    match hierarchy.files().get(place as usize) {
        Some(class) => is_interface_flag(class.file().flags),
        None => false,
    }
}

// Whether a class of the template may have that interface.
#[tactic(auto, unfolding(link_model::specs::LinkFaults::may_implement))]
fn may_implement(hierarchy: &Hierarchy<'_>, name: &[u16]) -> bool
    ensures { result ≡ may_implement hierarchy.now.plan hierarchy.now.files
        hierarchy.now.template name.now }
{
    is_text(name, "jx/Portal") || lists_interface(hierarchy, name)
}

/// The name of the first interface of a file that a class of the template may not have.
pub fn first_no_interface<'a>(hierarchy: &Hierarchy<'_>, file: &'a ClassFile) -> Option<&'a [u16]>
    ensures { option_map (λ name. name.now) result ≡ find (λ name. not (may_implement
        hierarchy.now.plan hierarchy.now.files hierarchy.now.template name))
        (interface_names file.now) }
{
    for index in file.interfaces.as_slice() {
        let name = class_name_in(file, *index);
        if !may_implement(hierarchy, name) {
            return Some(name);
        }
    }
    None
}
