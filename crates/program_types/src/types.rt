//! Descriptors of types.
ghost use Rattle.std.specs.Prelude.{◌≡◌};
ghost use Rattle.program_model.specs.Types.{is_int_type, is_long_type, is_reference_type};
ghost use Rattle.program_model.specs.Types.{cut_to_type, element_type, is_void, lies_in_type};
ghost use Rattle.program_model.specs.Arithmetic.{low_bits};
ghost use Rattle.std.specs.Int.{w8, w16};
ghost use Rattle.program_model.specs.Parcels.{base_type, is_primitive_type};
ghost use Rattle.program_model.specs.Lookup.{class_name_of_type};

/// What an array's descriptor begins with.
pub const ARRAY_MARK: u16 = b'[' as u16;

/// What a class's descriptor begins with.
pub const CLASS_MARK: u16 = b'L' as u16;

const BYTE: u16 = b'B' as u16;

const SHORT: u16 = b'S' as u16;

const INT: u16 = b'I' as u16;

const LONG: u16 = b'J' as u16;

const BOOLEAN: u16 = b'Z' as u16;

const VOID: u16 = b'V' as u16;

/// A char, whose type the cells of a String have.
pub const CHAR: u16 = b'C' as u16;

/// A type whose values are ints.
#[tactic(auto, unfolding(program_model::specs::Types::is_int_type, jx_base::specs::Basics::contains_number))]
pub fn is_int_type(kind: &[u16]) -> bool
    ensures { result ≡ is_int_type kind.now }
{
    match kind {
        [unit] => [BYTE, CHAR, INT, SHORT, BOOLEAN].contains(unit),
        _ => false,
    }
}

/// A type that is neither a class's nor an array's.
#[tactic(auto, unfolding(program_model::specs::Parcels::is_primitive_type, jx_base::specs::Basics::contains_number))]
pub fn is_primitive_type(kind: &[u16]) -> bool
    ensures { result ≡ is_primitive_type kind.now }
{
    match kind {
        [unit] => [BYTE, CHAR, INT, LONG, SHORT, BOOLEAN].contains(unit),
        _ => false,
    }
}

#[tactic(auto, unfolding(program_model::specs::Types::is_long_type))]
pub fn is_long_type(kind: &[u16]) -> bool
    ensures { result ≡ is_long_type kind.now }
{
    kind == [LONG].as_slice()
}

/// A class's type or an array's.
#[tactic(auto, unfolding(program_model::specs::Types::is_reference_type))]
pub fn is_reference_type(kind: &[u16]) -> bool
    ensures { result ≡ is_reference_type kind.now }
{
    match kind {
        [_, _, ..] => true,
        _ => false,
    }
}

/// Whether an int lies in the range of the type.
#[tactic(auto, unfolding(program_model::specs::Types::lies_in_type))]
pub fn lies_in_type(number: i32, kind: &[u16]) -> bool
    ensures { result ≡ lies_in_type number kind.now }
{
    if kind == [BYTE].as_slice() {
        -128 <= number && number <= 127
    } else if kind == [CHAR].as_slice() {
        0 <= number && number <= 65_535
    } else if kind == [SHORT].as_slice() {
        -32_768 <= number && number <= 32_767
    } else if kind == [BOOLEAN].as_slice() {
        0 <= number && number <= 1
    } else {
        true
    }
}

// The low 8 bits, with their sign.
#[tactic(auto, unfolding(program_model::specs::Arithmetic::low_bits))]
fn low_byte(number: i32) -> i32
    ensures { result ≡ low_bits w8 8 number }
{
    i32::from((number.rem_euclid(1 << 8) as u8).cast_signed())
}

// The low 16 bits, with their sign.
#[tactic(auto, unfolding(program_model::specs::Arithmetic::low_bits))]
fn low_short(number: i32) -> i32
    ensures { result ≡ low_bits w16 16 number }
{
    i32::from((number.rem_euclid(1 << 16) as u16).cast_signed())
}

/// What a store of an int leaves of it in a cell of the type: the bits that the type has.
#[tactic(auto, unfolding(program_model::specs::Types::cut_to_type, program_model::specs::Arithmetic::low_char))]
pub fn cut_to_type(kind: &[u16], number: i32) -> i32
    ensures { result ≡ cut_to_type kind.now number }
{
    if kind == [BYTE].as_slice() {
        low_byte(number)
    } else if kind == [CHAR].as_slice() {
        number.rem_euclid(1 << 16)
    } else if kind == [SHORT].as_slice() {
        low_short(number)
    } else if kind == [BOOLEAN].as_slice() {
        number.rem_euclid(2)
    } else {
        number
    }
}

/// The type of the elements that newarray's operand names.
#[tactic(auto, unfolding(program_model::specs::Types::element_type))]
pub fn element_type(code: u32) -> &'static [u16]
    ensures { result.now ≡ element_type code }
{
    match code {
        4 => &[BOOLEAN],
        5 => &[CHAR],
        8 => &[BYTE],
        9 => &[SHORT],
        10 => &[INT],
        _ => &[LONG],
    }
}

/// The result of a method without one.
#[tactic(auto, unfolding(program_model::specs::Types::is_void))]
pub fn is_void(kind: &[u16]) -> bool
    ensures { result ≡ is_void kind.now }
{
    kind == [VOID].as_slice()
}

/// The type without its dimensions.
#[tactic(auto, unfolding(program_model::specs::Parcels::base_type))]
pub fn base_type(kind: &[u16]) -> &[u16]
    ensures { result.now ≡ base_type kind.now }
{
    match kind {
        [first, rest @ ..] if *first == ARRAY_MARK => base_type(rest),
        _ => kind,
    }
}

/// The name of the class that a class's or an array's type names.
#[tactic(auto, unfolding(program_model::specs::Lookup::class_name_of_type))]
pub fn class_name_of_type(kind: &[u16]) -> &[u16]
    ensures { result.now ≡ class_name_of_type kind.now }
{
    match kind {
        [first, rest @ ..] if *first == CLASS_MARK => &rest[..rest.len().saturating_sub(1)],
        _ => kind,
    }
}
