//! Names that a class file has at the indices of its constants. Where there is none, it is empty.
ghost use Rattle.std.specs.Prelude.{◌≡◌, MatchOption};
ghost use Rattle.link_model.specs.ClassFiles.{class_name_in, constant_in, selector_in};
ghost use Rattle.link_model.specs.ClassFiles.{super_name, text_in, this_name};
ghost use Rattle.linker_names.specs.Names.{selector_of};

use jx_base::{ClassFile, Constant};

/// A name with a descriptor.
#[derive(Clone, Copy, PartialEq, Eq, Hash)]
pub struct NameAndType<'a> {
    pub name: &'a [u16],
    pub descriptor: &'a [u16],
}

/// The constant at the index.
#[tactic(auto, unfolding(link_model::specs::ClassFiles::constant_in))]
pub fn constant_in(file: &ClassFile, index: u32) -> Option<&Constant>
    ensures { MatchOption result (constant_in file.now index ≡ Constant.Unusable)
        (λ constant. constant_in file.now index ≡ constant.now) }
{
    file.constants.as_slice().get(index as usize)
}

/// The text at the index.
#[tactic(auto, unfolding(link_model::specs::ClassFiles::text_in, link_model::specs::ClassFiles::text_of_constant, link_model::specs::ClassFiles::constant_in))]
pub fn text_in(file: &ClassFile, index: u16) -> &[u16]
    ensures { result.now ≡ text_in file.now index }
{
    match file.constants.as_slice().get(usize::from(index)) {
        Some(Constant::Utf8(text)) => text.as_slice(),
        _ => &[],
    }
}

/// The name of the class at the index.
#[tactic(auto, unfolding(link_model::specs::ClassFiles::class_name_in, link_model::specs::ClassFiles::name_of_constant, link_model::specs::ClassFiles::constant_in))]
pub fn class_name_in(file: &ClassFile, index: u16) -> &[u16]
    ensures { result.now ≡ class_name_in file.now index }
{
    match file.constants.as_slice().get(usize::from(index)) {
        Some(Constant::Class(name)) => text_in(file, *name),
        _ => &[],
    }
}

/// The class's own name.
#[tactic(auto, unfolding(link_model::specs::ClassFiles::this_name))]
pub fn this_name(file: &ClassFile) -> &[u16]
    ensures { result.now ≡ this_name file.now }
{
    class_name_in(file, file.this_class)
}

/// Its super's name.
#[tactic(auto, unfolding(link_model::specs::ClassFiles::super_name))]
pub fn super_name(file: &ClassFile) -> &[u16]
    ensures { result.now ≡ super_name file.now }
{
    class_name_in(file, file.super_class)
}

/// The name and the descriptor at the index.
#[tactic(auto, unfolding(link_model::specs::ClassFiles::selector_in, link_model::specs::ClassFiles::selector_of_constant, link_model::specs::ClassFiles::constant_in))]
pub fn selector_in(file: &ClassFile, index: u16) -> NameAndType<'_>
    ensures { selector_of result ≡ selector_in file.now index }
{
    match file.constants.as_slice().get(usize::from(index)) {
        Some(Constant::NameAndType(name, descriptor)) => NameAndType {
            name: text_in(file, *name),
            descriptor: text_in(file, *descriptor),
        },
        _ => NameAndType {
            name: &[],
            descriptor: &[],
        },
    }
}
