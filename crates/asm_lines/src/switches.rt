//! The operands of tableswitch and lookupswitch.
ghost use Rattle.std.specs.Prelude.{◌≡◌, [], ◌∷◌, ◌++◌, ◌+ℤ◌, pos, Some, None, option_map, map};
ghost use Rattle.std.specs.Prelude.{if◌then◌else◌};
ghost use Rattle.std.specs.List.{list_all};
ghost use Rattle.asm_words.specs.Numbers.{within};
ghost use Rattle.asm_lines.specs.Operands.{table, table_operands, lookup, keys_above, is_above};
ghost use Rattle.asm_lines.specs.Operands.{is_name, least_int, greatest_int};
ghost use Rattle.asm_lines.specs.Readings.{Tells, texts};
ghost use Rattle.asm_lines.specs.declared.line.Operand.TheVariants.{FarTarget, Padding};

use crate::error::{LineError, Malformed};
use crate::line::Operand;
use crate::operands::Operands;
use crate::words::{int, name};
use std::alloc::Global;

// Pushes the labels, each of which is a name.
fn push_targets(
    alloc: Global,
    operands: &mut Vec<Operand>,
    labels: &[&[u16]],
) -> Result<(), LineError>
    ensures { Tells (λ _. operands.new.items) result
        (if list_all is_name (texts labels.now)
        then Some (operands.old.items ++ map FarTarget (texts labels.now)) else None) }
{
    for label in labels {
        operands.push(Operand::FarTarget(name(alloc, label)?))?;
    }
    Ok(())
}

// The greatest key, so many behind the least one.
#[tactic(auto, using(std::proofs::lemmas::Int::ints), unfolding(asm_words::specs::Numbers::within))]
fn greatest_key(low: i32, more: usize) -> Result<i32, LineError>
    ensures { Tells (λ z. z) result (within least_int greatest_int (Some (low +ℤ pos more))) }
{
    let Ok(more) = u32::try_from(more) else {
        return Err(LineError::Bad(Malformed));
    };
    low.checked_add_unsigned(more)
        .ok_or(LineError::Bad(Malformed))
}

// The padding, and the default.
fn switch_front(alloc: Global, default: &[u16]) -> Operands
    ensures { Tells (λ v. v.items) result
        (if is_name default.now then Some (Padding ∷ FarTarget default.now ∷ []) else None) }
{
    let mut operands = Vec::new(alloc);
    operands.push(Operand::Padding)?;
    operands.push(Operand::FarTarget(name(alloc, default)?))?;
    Ok(operands)
}

// The padding, the default, and the least and the greatest key.
#[tactic(auto, unfolding(crate::specs::Operands::table_operands))]
fn table_front(alloc: Global, default: &[u16], low: i32, high: i32) -> Operands
    ensures { Tells (λ v. v.items) result
        (if is_name default.now then Some (table_operands default.now [] low high) else None) }
{
    let mut operands = switch_front(alloc, default)?;
    operands.push(Operand::Int(low))?;
    operands.push(Operand::Int(high))?;
    Ok(operands)
}

/// The least key, the default, and the labels of the keys from that one on.
#[tactic(auto, unfolding(crate::specs::Operands::table, crate::specs::Operands::table_operands))]
pub fn table(alloc: Global, words: &[&[u16]]) -> Operands
    ensures { Tells (λ v. v.items) result (table (texts words.now)) }
{
    match words {
        [word, default, first, labels @ ..] => {
            let low = int(word)?;
            let high = greatest_key(low, labels.len())?;
            let mut operands = table_front(alloc, default, low, high)?;
            operands.push(Operand::FarTarget(name(alloc, first)?))?;
            push_targets(alloc, &mut operands, labels)?;
            Ok(operands)
        }
        _ => Err(LineError::Bad(Malformed)),
    }
}

// Pushes keys that rise, and their labels.
fn push_keys(alloc: Global, operands: &mut Vec<Operand>, pairs: &[&[u16]]) -> Result<(), LineError>
    ensures { Tells (λ _. operands.new.items) result
        (option_map (λ keys. operands.old.items ++ keys) (keys_above None (texts pairs.now))) }
{
    let mut before = None;
    let mut rest = pairs;
    while let [word, label, behind @ ..] = rest {
        let key = int(word)?;
        if !is_above(before, key) {
            return Err(LineError::Bad(Malformed));
        }
        operands.push(Operand::Int(key))?;
        operands.push(Operand::FarTarget(name(alloc, label)?))?;
        before = Some(key);
        rest = behind;
    }
    if rest.is_empty() {
        Ok(())
    } else {
        Err(LineError::Bad(Malformed))
    }
}

// Whether a key is above the one before it.
#[tactic(auto, unfolding(crate::specs::Operands::is_above))]
fn is_above(before: Option<i32>, key: i32) -> bool
    ensures { result ≡ is_above before key }
{
    match before {
        Some(before) => before < key,
        None => true,
    }
}

/// The default, and keys with their labels.
#[tactic(auto, using(std::proofs::lemmas::Int::ints), unfolding(crate::specs::Operands::lookup, crate::specs::Operands::lookup_behind, crate::specs::Operands::lookup_operands, asm_words::specs::Numbers::within))]
pub fn lookup(alloc: Global, words: &[&[u16]]) -> Operands
    ensures { Tells (λ v. v.items) result (lookup (texts words.now)) }
{
    match words {
        [default, pairs @ ..] => {
            let Ok(count) = i32::try_from(pairs.len() / 2) else {
                return Err(LineError::Bad(Malformed));
            };
            let mut operands = switch_front(alloc, default)?;
            operands.push(Operand::Int(count))?;
            push_keys(alloc, &mut operands, pairs)?;
            Ok(operands)
        }
        _ => Err(LineError::Bad(Malformed)),
    }
}
