//! Arithmetic on numbers of 32 and 64 bits, which wrap (JVMS 2.11.3, 2.11.4).
ghost use Rattle.std.specs.Prelude.{◌≡◌};
ghost use Rattle.std.specs.Int.{w8, w16, w32, w64};
ghost use Rattle.program_model.specs.Arithmetic.{operation_result, negation, quotient_or_none};
ghost use Rattle.program_model.specs.Arithmetic.{int_shift_result, long_shift_result};
ghost use Rattle.program_model.specs.Arithmetic.{low_bits, low_char, order_of};
ghost use Rattle.program_model.specs.Arithmetic as Spec;

use jx_base::{Comparison, Division, Operator, Shift};

#[tactic(auto, using(std::proofs::lemmas::Int::wraps), unfolding(program_model::specs::Arithmetic::operation_result))]
pub(crate) fn int_operation(operator: Operator, a: i32, b: i32) -> i32
    ensures { result ≡ operation_result w32 operator a b }
{
    match operator {
        Operator::Add => a.wrapping_add(b),
        Operator::Subtract => a.wrapping_sub(b),
        Operator::Multiply => a.wrapping_mul(b),
        Operator::And => a & b,
        Operator::Or => a | b,
        Operator::Xor => a ^ b,
    }
}

#[tactic(auto, using(std::proofs::lemmas::Int::wraps), unfolding(program_model::specs::Arithmetic::operation_result))]
pub(crate) fn long_operation(operator: Operator, a: i64, b: i64) -> i64
    ensures { result ≡ operation_result w64 operator a b }
{
    match operator {
        Operator::Add => a.wrapping_add(b),
        Operator::Subtract => a.wrapping_sub(b),
        Operator::Multiply => a.wrapping_mul(b),
        Operator::And => a & b,
        Operator::Or => a | b,
        Operator::Xor => a ^ b,
    }
}

#[tactic(auto, using(std::proofs::lemmas::Int::wraps), unfolding(program_model::specs::Arithmetic::negation))]
pub(crate) fn int_negation(a: i32) -> i32
    ensures { result ≡ negation w32 a }
{
    a.wrapping_neg()
}

#[tactic(auto, using(std::proofs::lemmas::Int::wraps), unfolding(program_model::specs::Arithmetic::negation))]
pub(crate) fn long_negation(a: i64) -> i64
    ensures { result ≡ negation w64 a }
{
    a.wrapping_neg()
}

// `None` where the divisor is 0.
#[tactic(auto, unfolding(program_model::specs::Arithmetic::quotient_or_none, program_model::specs::Arithmetic::division_result))]
pub(crate) fn int_quotient(division: Division, a: i32, b: i32) -> Option<i32>
    ensures { result ≡ quotient_or_none w32 division a b }
{
    if b == 0 {
        return None;
    }
    Some(match division {
        Division::Quotient => a.wrapping_div(b),
        Division::Remainder => a.wrapping_rem(b),
    })
}

// `None` where the divisor is 0.
#[tactic(auto, unfolding(program_model::specs::Arithmetic::quotient_or_none, program_model::specs::Arithmetic::division_result))]
pub(crate) fn long_quotient(division: Division, a: i64, b: i64) -> Option<i64>
    ensures { result ≡ quotient_or_none w64 division a b }
{
    if b == 0 {
        return None;
    }
    Some(match division {
        Division::Quotient => a.wrapping_div(b),
        Division::Remainder => a.wrapping_rem(b),
    })
}

// By the low five bits of the count.
#[tactic(auto, unfolding(program_model::specs::Arithmetic::int_shift_result, program_model::specs::Arithmetic::shift_result))]
pub(crate) fn int_shift(shift: Shift, a: i32, count: i32) -> i32
    ensures { result ≡ int_shift_result shift a count }
{
    let count = count.cast_unsigned();
    match shift {
        Shift::Left => a.wrapping_shl(count),
        Shift::Right => a.wrapping_shr(count),
        Shift::UnsignedRight => a.cast_unsigned().wrapping_shr(count).cast_signed(),
    }
}

// By the low six bits of the count.
#[tactic(auto, unfolding(program_model::specs::Arithmetic::long_shift_result, program_model::specs::Arithmetic::shift_result))]
pub(crate) fn long_shift(shift: Shift, a: i64, count: i32) -> i64
    ensures { result ≡ long_shift_result shift a count }
{
    let count = count.cast_unsigned();
    match shift {
        Shift::Left => a.wrapping_shl(count),
        Shift::Right => a.wrapping_shr(count),
        Shift::UnsignedRight => a.cast_unsigned().wrapping_shr(count).cast_signed(),
    }
}

// The low 32 bits, with their sign.
#[tactic(auto, unfolding(program_model::specs::Arithmetic::low_bits))]
pub(crate) fn long_to_int(n: i64) -> i32
    ensures { result ≡ low_bits w32 32 n }
{
    (n.rem_euclid(1 << 32) as u32).cast_signed()
}

// The low 8 bits, with their sign.
#[tactic(auto, unfolding(program_model::specs::Arithmetic::low_bits))]
pub(crate) fn int_to_byte(n: i32) -> i32
    ensures { result ≡ low_bits w8 8 n }
{
    i32::from((n.rem_euclid(1 << 8) as u8).cast_signed())
}

// The low 16 bits, with their sign.
#[tactic(auto, unfolding(program_model::specs::Arithmetic::low_bits))]
pub(crate) fn int_to_short(n: i32) -> i32
    ensures { result ≡ low_bits w16 16 n }
{
    i32::from((n.rem_euclid(1 << 16) as u16).cast_signed())
}

// The low 16 bits, without a sign.
#[tactic(auto, unfolding(program_model::specs::Arithmetic::low_char))]
pub(crate) fn int_to_char(n: i32) -> i32
    ensures { result ≡ low_char n }
{
    n.rem_euclid(1 << 16)
}

// -1 where the first is less, 1 where the second is, else 0.
#[tactic(auto, unfolding(program_model::specs::Arithmetic::order_of))]
pub(crate) fn order(a: i64, b: i64) -> i32
    ensures { result ≡ order_of a b }
{
    if a < b {
        -1
    } else if b < a {
        1
    } else {
        0
    }
}

// Whether a comparison holds.
#[tactic(auto, unfolding(program_model::specs::Arithmetic::is_met))]
pub(crate) fn is_met(comparison: Comparison, a: i32, b: i32) -> bool
    ensures { result ≡ Spec.is_met comparison a b }
{
    match comparison {
        Comparison::Equal => a == b,
        Comparison::NotEqual => a != b,
        Comparison::Less => a < b,
        Comparison::AtLeast => a >= b,
        Comparison::Greater => a > b,
        Comparison::AtMost => a <= b,
    }
}
