//! Numbers and bytes at the front of a text, the highest byte first. `cut` is the fault where bytes
//! are missing.
ghost use Rattle.std.specs.Prelude.{◌≡◌, ◌≤◌, ◌+◌, ◌-◌, length, IfOk};
ghost use Rattle.std.specs.Int.{w8, w16, w32, w64};
ghost use Rattle.jx_base.specs.Answers.{Gives};
ghost use Rattle.class_grammar.specs.Parts.{bytes_of, number};

use jx_base::Error;

/// What stands at the front of bytes, and the bytes behind it.
pub type Front<'b, T, F> = Result<(T, &'b [u8]), Error<F>>;

/// The place in a text of that size, where these bytes are left.
pub fn place(size: u32, bytes: &[u8]) -> u32
    requires { length bytes.now ≤ size }
    ensures { result ≡ size - length bytes.now }
{
    size - bytes.len() as u32
}

/// The first `n` bytes.
#[tactic(auto, unfolding(crate::specs::Parts::bytes_of))]
pub fn bytes_at<F: Copy>(cut: F, n: usize, bytes: &[u8]) -> Front<'_, &[u8], F>
    ensures read { Gives (λ x. (x.0.now, x.1.now)) result ((bytes_of cut n).reads bytes.now) }
    ensures front { IfOk result (λ x. length x.0.now ≡ n) }
    ensures rest { IfOk result (λ x. length bytes.now ≡ n + length x.1.now) }
{
    if bytes.len() < n {
        return Err(Error::Bad(cut));
    }
    Ok(bytes.split_at(n))
}

#[tactic(auto, unfolding(crate::specs::Parts::number))]
pub fn u8_at<F: Copy>(cut: F, bytes: &[u8]) -> Front<'_, u8, F>
    ensures read { Gives (λ x. (x.0, x.1.now)) result ((number cut w8).reads bytes.now) }
    ensures rest { IfOk result (λ x. length bytes.now ≡ 1 + length x.1.now) }
{
    match bytes {
        [] => Err(Error::Bad(cut)),
        [byte, rest @ ..] => Ok((*byte, rest)),
    }
}

#[tactic(auto, unfolding(crate::specs::Parts::number))]
pub fn u16_at<F: Copy>(cut: F, bytes: &[u8]) -> Front<'_, u16, F>
    ensures read { Gives (λ x. (x.0, x.1.now)) result ((number cut w16).reads bytes.now) }
    ensures rest { IfOk result (λ x. length bytes.now ≡ 2 + length x.1.now) }
{
    match bytes.split_first_chunk::<2>() {
        Some((front, rest)) => Ok((u16::from_be_bytes(*front), rest)),
        None => Err(Error::Bad(cut)),
    }
}

#[tactic(auto, unfolding(crate::specs::Parts::number))]
pub fn u32_at<F: Copy>(cut: F, bytes: &[u8]) -> Front<'_, u32, F>
    ensures read { Gives (λ x. (x.0, x.1.now)) result ((number cut w32).reads bytes.now) }
    ensures rest { IfOk result (λ x. length bytes.now ≡ 4 + length x.1.now) }
{
    match bytes.split_first_chunk::<4>() {
        Some((front, rest)) => Ok((u32::from_be_bytes(*front), rest)),
        None => Err(Error::Bad(cut)),
    }
}

#[tactic(auto, unfolding(crate::specs::Parts::number))]
pub fn u64_at<F: Copy>(cut: F, bytes: &[u8]) -> Front<'_, u64, F>
    ensures read { Gives (λ x. (x.0, x.1.now)) result ((number cut w64).reads bytes.now) }
    ensures rest { IfOk result (λ x. length bytes.now ≡ 8 + length x.1.now) }
{
    match bytes.split_first_chunk::<8>() {
        Some((front, rest)) => Ok((u64::from_be_bytes(*front), rest)),
        None => Err(Error::Bad(cut)),
    }
}
