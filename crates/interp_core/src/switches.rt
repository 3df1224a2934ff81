//! The bytes behind a tableswitch or a lookupswitch (JVMS 6.5).
ghost use Rattle.std.specs.Prelude.{◌≡◌, ◌≤◌, ◌^◌, ◌≤ℤ◌, ◌-ℤ◌, ◌+◌, unsigned_abs, option_map};
ghost use Rattle.class_grammar.specs.CodeGrammar.{padding_length};
ghost use Rattle.interp_core.specs.Behind as Spec;
ghost use Rattle.interp_core.specs.Behind.{is_above_last};

/// The bytes behind the first n.
#[tactic(auto, unfolding(crate::specs::Behind::behind_bytes))]
pub fn behind_bytes(n: usize, bytes: &[u8]) -> Option<&[u8]>
    ensures { option_map (λ x. x.now) result ≡ Spec.behind_bytes n bytes.now }
{
    if bytes.len() < n {
        return None;
    }
    Some(&bytes[n..])
}

// The number of four bytes at the front, and the bytes behind it.
#[tactic(auto, unfolding(crate::specs::Behind::number_front))]
fn number_front(bytes: &[u8]) -> Option<(i32, &[u8])>
    ensures { option_map (λ x. (x.0, x.1.now)) result ≡ Spec.number_front bytes.now }
{
    match bytes.split_first_chunk::<4>() {
        Some((front, rest)) => Some((u32::from_be_bytes(*front).cast_signed(), rest)),
        None => None,
    }
}

// How many bytes stand before the keys: up to the next multiple of 4 in the code, and the default.
#[tactic(auto, unfolding(class_grammar::specs::CodeGrammar::padding_length))]
fn before_keys(pc: u32) -> usize
    ensures { result ≡ padding_length pc + 4 }
{
    7 - pc as usize % 4
}

// How many keys lie from the least to the greatest.
fn span(low: i32, high: i32) -> usize
    requires { low ≤ℤ high }
    ensures span { result ≡ unsigned_abs (high -ℤ low) + 1 }
    ensures small { result ≤ 2 ^ 32 }
{
    (i64::from(high) - i64::from(low)) as usize + 1
}

// The bytes behind the targets of the keys from the least to the greatest.
#[tactic(auto, unfolding(crate::specs::Behind::behind_range))]
fn behind_range(low: i32, high: i32, bytes: &[u8]) -> Option<&[u8]>
    ensures { option_map (λ x. x.now) result ≡ Spec.behind_range low high bytes.now }
{
    if low > high {
        None
    } else {
        behind_bytes(4 * span(low, high), bytes)
    }
}

/// The bytes behind the operands of a tableswitch.
#[tactic(auto, unfolding(crate::specs::Behind::behind_table))]
pub fn behind_table(pc: u32, bytes: &[u8]) -> Option<&[u8]>
    ensures { option_map (λ x. x.now) result ≡ Spec.behind_table pc bytes.now }
{
    let rest = behind_bytes(before_keys(pc), bytes)?;
    let (low, rest) = number_front(rest)?;
    let (high, rest) = number_front(rest)?;
    behind_range(low, high, rest)
}

// Whether the key is above the one before it, if there is one.
#[tactic(auto, unfolding(crate::specs::Behind::is_above_last))]
fn is_above_last(last: Option<i32>, key: i32) -> bool
    ensures { result ≡ is_above_last last key }
{
    match last {
        Some(last) => last < key,
        None => true,
    }
}

// The key at the front, where it is above the last one, and the bytes behind its target.
#[tactic(auto, unfolding(crate::specs::Behind::key_front))]
fn key_front(last: Option<i32>, bytes: &[u8]) -> Option<(i32, &[u8])>
    ensures { option_map (λ x. (x.0, x.1.now)) result ≡ Spec.key_front last bytes.now }
{
    let (key, rest) = number_front(bytes)?;
    if !is_above_last(last, key) {
        return None;
    }
    let rest = behind_bytes(4, rest)?;
    Some((key, rest))
}

// The bytes behind so many rising keys, each with its target.
fn behind_keys(count: u32, bytes: &[u8]) -> Option<&[u8]>
    ensures { option_map (λ x. x.now) result ≡ Spec.behind_keys None count bytes.now }
{
    let mut rest = bytes;
    let mut last = None;
    for _ in 0..count {
        let (key, after) = key_front(last, rest)?;
        last = Some(key);
        rest = after;
    }
    Some(rest)
}

/// The bytes behind the operands of a lookupswitch.
#[tactic(auto, unfolding(crate::specs::Behind::behind_lookup))]
pub fn behind_lookup(pc: u32, bytes: &[u8]) -> Option<&[u8]>
    ensures { option_map (λ x. x.now) result ≡ Spec.behind_lookup pc bytes.now }
{
    let rest = behind_bytes(before_keys(pc), bytes)?;
    let (count, rest) = number_front(rest)?;
    if count < 0 {
        return None;
    }
    behind_keys(count.unsigned_abs(), rest)
}
