//! What stands at the indices of constants (JVMS 4.4).
ghost use Rattle.std.specs.Prelude.{◌≡◌, option_map, slice_get};
ghost use Rattle.class_grammar.specs.Constants as Spec;

use jx_base::Constant;

/// The text at an index, if a Utf8 is there.
#[tactic(auto, unfolding(crate::specs::Constants::text_at, crate::specs::Constants::text_of_constant))]
pub fn text_at(constants: &[Constant], index: u16) -> Option<&[u16]>
    ensures { option_map (λ text. text.now) result ≡ Spec.text_at constants.now index }
{
    match constants.get(usize::from(index)) {
        Some(Constant::Utf8(text)) => Some(text.as_slice()),
        _ => None,
    }
}

/// Whether a Utf8 is at the index.
#[tactic(auto, unfolding(crate::specs::Constants::names_text, crate::specs::Constants::is_text))]
pub fn names_text(constants: &[Constant], index: u16) -> bool
    ensures { result ≡ Spec.names_text constants.now index }
{
    matches!(constants.get(usize::from(index)), Some(Constant::Utf8(_)))
}

/// Whether a Class is at the index.
#[tactic(auto, unfolding(crate::specs::Constants::names_class, crate::specs::Constants::is_class))]
pub fn names_class(constants: &[Constant], index: u16) -> bool
    ensures { result ≡ Spec.names_class constants.now index }
{
    matches!(constants.get(usize::from(index)), Some(Constant::Class(_)))
}

#[tactic(auto, unfolding(crate::specs::Constants::is_name_and_type))]
fn names_selector(constants: &[Constant], index: u16) -> bool
    ensures { result ≡ Spec.is_name_and_type (slice_get constants.now index) }
{
    matches!(
        constants.get(usize::from(index)),
        Some(Constant::NameAndType(_, _))
    )
}

/// Whether a Class and a NameAndType are at the two indices.
#[tactic(auto, unfolding(crate::specs::Constants::names_member))]
pub fn names_member(constants: &[Constant], class: u16, selector: u16) -> bool
    ensures { result ≡ Spec.names_member constants.now class selector }
{
    names_class(constants, class) && names_selector(constants, selector)
}
