//! Descriptors of fields and methods (JVMS 4.3): whether a text is one, whether a float or a double
//! stands in it, and the slots that a method's arguments take up.
ghost use Rattle.std.specs.Prelude.{◌≡◌, [], ℕ, length, option_map, is_some};
ghost use Rattle.class_texts.specs.Shapes.{joined, number_type, object_tally, of_base, of_type};
ghost use Rattle.class_texts.specs.Shapes.{of_types, tally_of, tally_of_method, after_closing};
ghost use Rattle.class_texts.specs.Shapes.{signature_of, TellsOf};
ghost use Rattle.class_texts.specs.Slots.{slots_of, argument_slots, capped};
ghost use Rattle.class_grammar.specs.Descriptors.{is_number_letter, is_floating};
ghost use Rattle.class_grammar.specs.Descriptors.{is_floating_result, has_floating, object_at};
ghost use Rattle.class_grammar.specs.Descriptors.{base_at, type_at, types_at, result_of};
ghost use Rattle.class_grammar.specs.Descriptors.{field_type_of, method_type_of};

const SEMICOLON: u16 = 0x3b;

const LETTER_L: u16 = 0x4c;

const BRACKET: u16 = 0x5b;

const OPENING: u16 = 0x28;

const CLOSING: u16 = 0x29;

const LETTER_V: u16 = 0x56;

const FLOAT: u16 = 0x46;

const DOUBLE: u16 = 0x44;

const LONG: u16 = 0x4a;

// Whether a float or a double stands in some types, and the slots that their values take up.
#[derive(Clone, Copy)]
struct Tally {
    floating: bool,
    slots: u16,
}

impl Tally {
    const NOTHING: Self = Tally {
        floating: false,
        slots: 0,
    };

    const OBJECT: Self = Tally {
        floating: false,
        slots: 1,
    };

    // That of both, where 65535 stands for more slots too.
    fn joined(self, other: Self) -> Self
        ensures { result ≡ joined self other }
    {
        Tally {
            floating: self.floating | other.floating,
            slots: self.slots.saturating_add(other.slots),
        }
    }
}

// Whether a letter is one of `BCDFIJSZ`.
#[tactic(auto, unfolding(class_grammar::specs::Descriptors::is_number_letter))]
fn is_number(letter: u16) -> bool
    ensures { result ≡ is_number_letter letter }
{
    matches!(
        letter,
        0x42 | 0x43 | 0x44 | 0x46 | 0x49 | 0x4a | 0x53 | 0x5a
    )
}

// The slots of a number under so many dimensions of arrays.
#[tactic(auto, unfolding(crate::specs::Slots::slots_of))]
fn number_slots(dimensions: usize, letter: u16) -> u16
    ensures { result ≡ slots_of (number_type dimensions letter) }
{
    if dimensions == 0 && (letter == LONG || letter == DOUBLE) {
        2
    } else {
        1
    }
}

#[tactic(auto, unfolding(class_grammar::specs::Descriptors::is_floating, class_grammar::specs::Descriptors::is_floating_base))]
fn number_tally(dimensions: usize, letter: u16) -> Tally
    ensures { result ≡ tally_of (number_type dimensions letter) }
{
    Tally {
        floating: letter == FLOAT || letter == DOUBLE,
        slots: number_slots(dimensions, letter),
    }
}

// What stands behind a class name, which takes up one unit or more, and its semicolon.
fn after_object(text: &[u16]) -> Option<&[u16]>
    ensures { (n : ℕ) → option_map (λ rest. (object_tally, rest.now)) result
        ≡ of_base n (object_at [] text.now) }
{
    for (i, unit) in text.iter().enumerate() {
        if *unit == SEMICOLON {
            return if i == 0 { None } else { Some(&text[i + 1..]) };
        }
    }
    None
}

// What is told of the base at the front, under so many dimensions, and what stands behind it.
#[tactic(auto, unfolding(class_grammar::specs::Descriptors::base_at))]
fn base_at(dimensions: usize, letter: u16, rest: &[u16]) -> Option<(Tally, &[u16])>
    ensures { option_map (λ x. (x.0, x.1.now)) result
        ≡ of_base dimensions (base_at letter rest.now) }
{
    if is_number(letter) {
        Some((number_tally(dimensions, letter), rest))
    } else if letter == LETTER_L {
        match after_object(rest) {
            Some(rest) => Some((Tally::OBJECT, rest)),
            None => None,
        }
    } else {
        None
    }
}

// The same of the type at the front.
fn type_at(text: &[u16]) -> Option<(Tally, &[u16])>
    ensures { option_map (λ x. (x.0, x.1.now)) result ≡ of_type (type_at 0 text.now) }
{
    for (i, unit) in text.iter().enumerate() {
        if *unit != BRACKET {
            return base_at(i, *unit, &text[i + 1..]);
        }
    }
    None
}

#[tactic(auto, unfolding(crate::specs::Shapes::after_closing))]
fn after_closing(text: &[u16]) -> Option<&[u16]>
    ensures { option_map (λ rest. rest.now) result ≡ after_closing text.now }
{
    match text {
        [] => None,
        [first, rest @ ..] => { if *first == CLOSING { Some(rest) } else { None } }
    }
}

// The same of the types up to the closing parenthesis.
fn types_at(text: &[u16]) -> Option<(Tally, &[u16])>
    ensures { option_map (λ x. (x.0, x.1.now)) result
        ≡ of_types (types_at (length text.now) text.now) }
{
    let mut tally = Tally::NOTHING;
    let mut rest = text;
    for _ in 0..text.len() {
        match after_closing(rest) {
            Some(after) => return Some((tally, after)),
            None => match type_at(rest) {
                Some((one, after)) => {
                    tally = tally.joined(one);
                    rest = after;
                }
                None => return None,
            },
        }
    }
    match after_closing(rest) {
        Some(after) => Some((tally, after)),
        None => None,
    }
}

// Whether the text is a field's descriptor, and then whether it is that of floats or doubles.
#[tactic(auto, using(crate::proofs::Shapes::fields))]
fn field_floats(text: &[u16]) -> Option<bool>
    ensures { result ≡ option_map is_floating (field_type_of text.now) }
{
    match type_at(text) {
        Some((tally, rest)) => {
            if rest.is_empty() {
                Some(tally.floating)
            } else {
                None
            }
        }
        None => None,
    }
}

// The same of a method's result, of which `V` has no type.
#[tactic(auto, unfolding(class_grammar::specs::Descriptors::result_of, class_grammar::specs::Descriptors::is_floating_result))]
fn result_floats(text: &[u16]) -> Option<bool>
    ensures { result ≡ option_map is_floating_result (result_of text.now) }
{
    match text {
        [] => None,
        [first, rest @ ..] => {
            if *first == LETTER_V && rest.is_empty() {
                Some(false)
            } else {
                field_floats(text)
            }
        }
    }
}

// Parameters, a closing parenthesis and a result.
#[tactic(auto, using(crate::proofs::Shapes::signatures))]
fn signature_tally(text: &[u16]) -> Option<Tally>
    ensures { result ≡ option_map tally_of_method (signature_of text.now) }
{
    match types_at(text) {
        Some((tally, rest)) => match result_floats(rest) {
            Some(floating) => Some(Tally {
                floating: tally.floating | floating,
                ..tally
            }),
            None => None,
        },
        None => None,
    }
}

// Whether the text is a method's descriptor, and then what is told of it.
#[tactic(auto, unfolding(class_grammar::specs::Descriptors::method_type_of))]
fn method_tally(text: &[u16]) -> Option<Tally>
    ensures { result ≡ option_map tally_of_method (method_type_of text.now) }
{
    match text {
        [] => None,
        [first, rest @ ..] => {
            if *first == OPENING {
                signature_tally(rest)
            } else {
                None
            }
        }
    }
}

/// Whether the text is a field's descriptor.
#[tactic(auto, using(crate::proofs::Shapes::is_some_of))]
pub fn is_field_descriptor(text: &[u16]) -> bool
    ensures { result ≡ is_some (field_type_of text.now) }
{
    field_floats(text).is_some()
}

/// Whether the text is a field's descriptor, and then whether the profile lacks its type.
#[tactic(auto, using(crate::proofs::Shapes::tells_of))]
pub fn is_floating_field(text: &[u16]) -> Option<bool>
    ensures { TellsOf is_floating (field_type_of text.now) result }
{
    field_floats(text)
}

/// Whether the text is a method's descriptor, and then whether the profile lacks one of its types.
#[tactic(auto, using(crate::proofs::Shapes::methods))]
pub fn is_floating_method(text: &[u16]) -> Option<bool>
    ensures { TellsOf has_floating (method_type_of text.now) result }
{
    match method_tally(text) {
        Some(tally) => Some(tally.floating),
        None => None,
    }
}

/// The slots of a method descriptor's arguments, two for a long or a double, at most 65535.
#[tactic(auto, using(crate::proofs::Shapes::methods))]
pub fn argument_slots(text: &[u16]) -> Option<u16>
    ensures { result ≡ option_map (λ m. capped (argument_slots m)) (method_type_of text.now) }
{
    match method_tally(text) {
        Some(tally) => Some(tally.slots),
        None => None,
    }
}
