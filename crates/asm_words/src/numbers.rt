//! Numbers and flags, as words say them.
ghost use Rattle.std.specs.Prelude.{◌≡◌, ◌^◌, ◌-◌, ◌<◌, min, pos, ◌-ℤ◌, option_map, IfSome};
ghost use Rattle.asm_words.specs.Numbers.{is_digit, natural_of, number_of, within, digit_value};
ghost use Rattle.asm_words.specs.Numbers.{four_digits, flags_of};
ghost use Rattle.asm_words.specs.Readings.{capped};

const ZERO: u16 = 0x30;

const MINUS: u16 = 0x2d;

const LETTER_X: u16 = 0x78;

#[tactic(auto, unfolding(crate::specs::Numbers::is_digit))]
fn is_digit(unit: u16) -> bool
    ensures { result ≡ is_digit unit }
{
    unit >= 0x30 && unit <= 0x39
}

// The number of the digits, or the largest one where that is too large.
fn magnitude(digits: &[u16]) -> Option<u64>
    ensures { result ≡ option_map (λ n. min n (2 ^ 64 - 1)) (natural_of digits.now) }
{
    if digits.is_empty() {
        return None;
    }
    let mut total: u64 = 0;
    for unit in digits {
        if !is_digit(*unit) {
            return None;
        }
        total = total
            .saturating_mul(10)
            .saturating_add(u64::from(*unit - 0x30));
    }
    Some(total)
}

// The number that the digits say behind a minus, or the nearest one of 64 bits and a sign.
fn negative(digits: &[u16]) -> Option<i128>
    ensures { result ≡ option_map capped
        (option_map (λ n. pos 0 -ℤ pos n) (natural_of digits.now)) }
{
    Some(-i128::from(magnitude(digits)?))
}

// The number that the digits say, or the nearest one of 64 bits.
fn positive(digits: &[u16]) -> Option<i128>
    ensures { result ≡ option_map capped (option_map pos (natural_of digits.now)) }
{
    Some(i128::from(magnitude(digits)?))
}

// The number that the word says, or the nearest one of 64 bits and a sign.
#[tactic(auto, unfolding(crate::specs::Numbers::number_of, crate::specs::Numbers::natural_of))]
fn capped_number(word: &[u16]) -> Option<i128>
    ensures { result ≡ option_map capped (number_of word.now) }
{
    match word {
        [MINUS, digits @ ..] => negative(digits),
        _ => positive(word),
    }
}

#[tactic(auto, using(std::proofs::lemmas::Int::ints), unfolding(crate::specs::Numbers::within))]
fn narrowed(value: i128, low: i64, high: i64) -> Option<i64>
    ensures { result ≡ within low high (Some value) }
{
    if value >= i128::from(low) && value <= i128::from(high) {
        Some(value as i64)
    } else {
        None
    }
}

/// The number that the word says, in units of UTF-16, where it lies between the two, both included.
pub fn number(word: &[u16], low: i64, high: i64) -> Option<i64>
    ensures { result ≡ within low high (number_of word.now) }
{
    match capped_number(word) {
        Some(value) => narrowed(value, low, high),
        None => None,
    }
}

#[tactic(auto, unfolding(crate::specs::Numbers::digit_value))]
fn digit_value(unit: u16) -> Option<u16>
    ensures value { result ≡ digit_value unit }
    ensures digit { IfSome result (λ value. value < 16) }
{
    match unit {
        0x30..=0x39 => Some(unit - 0x30),
        0x41..=0x46 => Some(unit - 0x37),
        0x61..=0x66 => Some(unit - 0x57),
        _ => None,
    }
}

/// The number of four hexadecimal digits of either case.
#[tactic(auto, unfolding(crate::specs::Numbers::four_digits, crate::specs::Numbers::with_digit))]
pub(crate) fn four_digits(a: u16, b: u16, c: u16, d: u16) -> Option<u16>
    ensures { result ≡ four_digits a b c d }
{
    let first = digit_value(a)?;
    let second = digit_value(b)?;
    let third = digit_value(c)?;
    let fourth = digit_value(d)?;
    Some(((first * 16 + second) * 16 + third) * 16 + fourth)
}

/// The flags that the word says, in units of UTF-16: 0x, and four hexadecimal digits of either
/// case.
#[tactic(auto, unfolding(crate::specs::Numbers::flags_of))]
pub fn flags(word: &[u16]) -> Option<u16>
    ensures { result ≡ flags_of word.now }
{
    match word {
        [ZERO, LETTER_X, a, b, c, d] => four_digits(*a, *b, *c, *d),
        _ => None,
    }
}
