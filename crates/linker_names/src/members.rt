//! The class and the member that a constant names.
ghost use Rattle.std.specs.Prelude.{◌≡◌, None, Some, MatchOption};
ghost use Rattle.link_model.specs.ClassFiles.{class_of_constant, member_of_constant};
ghost use Rattle.linker_names.specs.Names.{selector_of};

use crate::names::{NameAndType, class_name_in, selector_in, text_in};
use jx_base::{ClassFile, Constant};

/// The name of the class that a constant names: itself, or that of a field or a method.
#[tactic(auto, unfolding(link_model::specs::ClassFiles::class_of_constant))]
pub fn class_of_constant<'a>(file: &'a ClassFile, constant: &Constant) -> Option<&'a [u16]>
    ensures { MatchOption result (class_of_constant file.now constant.now ≡ None)
        (λ name. class_of_constant file.now constant.now ≡ Some name.now) }
{
    match constant {
        Constant::Class(name) => Some(text_in(file, *name)),
        Constant::Field(class, _)
        | Constant::Method(class, _)
        | Constant::InterfaceMethod(class, _) => Some(class_name_in(file, *class)),
        _ => None,
    }
}

/// The name and the descriptor of the field or method that a constant names, empty where it names
/// none.
#[tactic(auto, unfolding(link_model::specs::ClassFiles::member_of_constant))]
pub fn member_of_constant<'a>(file: &'a ClassFile, constant: &Constant) -> NameAndType<'a>
    ensures { selector_of result ≡ member_of_constant file.now constant.now }
{
    match constant {
        Constant::Field(_, member)
        | Constant::Method(_, member)
        | Constant::InterfaceMethod(_, member) => selector_in(file, *member),
        _ => NameAndType {
            name: &[],
            descriptor: &[],
        },
    }
}
