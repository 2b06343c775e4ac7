//! The two switches (JVM Specification SE 8, 6.5.tableswitch and 6.5.lookupswitch).
ghost use Rattle.std.specs.Prelude.{◌≡◌, ◌+◌, ◌^◌, ◌≤◌, length, map, IfOk};
ghost use Rattle.class_model.specs.Answers.{Gives};
ghost use Rattle.class_model.specs.Instructions.{table_switch_at, lookup_switch_at, pad_of, span, keys_increase};
ghost use Rattle.code_bytes.specs.Inner.Operands.{target_in, pair_in};

use crate::instruction::Form;
use crate::source::Source;
use class_model::{ClassFault, Instr, ListOf, NoMemory, Pair, PairList, TargetList};
use std::alloc::Global;

/// A switch with a target for each key from the lowest to the highest.
pub(crate) fn table_switch(alloc: Global, source: &Source) -> Result<Form, ClassFault>
    ensures { Gives (table_switch_at source.now.at source.now.bytes.now) result }
{
    let start = first_operand(source.at);
    let other = source.target4(start)?;
    let low = source.s4(start + 4)?;
    let high = source.s4(start + 8)?;
    if high < low {
        return Err(source.bad_operand());
    }
    let count = span(low, high);
    let words = source.parts::<4>(start + 12, count)?;
    let targets = targets_of(alloc, source.at, words)?;
    Ok((
        Instr::Table {
            low,
            other,
            targets,
        },
        start + 12 + 4 * count,
    ))
}

/// A switch with pairs of a key and a target, whose keys increase.
pub(crate) fn lookup_switch(alloc: Global, source: &Source) -> Result<Form, ClassFault>
    ensures { Gives (lookup_switch_at source.now.at source.now.bytes.now) result }
{
    let start = first_operand(source.at);
    let other = source.target4(start)?;
    let Ok(count) = usize::try_from(source.s4(start + 4)?) else {
        return Err(source.bad_operand());
    };
    let parts = source.parts::<8>(start + 8, count)?;
    let pairs = pairs_of(alloc, source.at, parts)?;
    if !keys_increase(pairs.as_slice()) {
        return Err(source.bad_operand());
    }
    Ok((Instr::Lookup { other, pairs }, start + 8 + 8 * count))
}

// Where the operands of a switch at an offset begin, behind the opcode and the pad bytes.
fn first_operand(at: u32) -> usize
    ensures value { result ≡ 1 + pad_of at }
    ensures small { result ≤ 4 }
{
    4 - at as usize % 4
}

// How many numbers there are from the lowest to the highest.
fn span(low: i32, high: i32) -> usize
    ensures value { result ≡ span low high }
    ensures fits { result ≤ 2 ^ 32 }
{
    high.cast_unsigned().wrapping_sub(low.cast_unsigned()) as usize + 1
}

// The targets that words are, for a switch at an offset.
fn targets_of(alloc: Global, at: u32, words: &[[u8; 4]]) -> Result<TargetList, NoMemory>
    ensures { IfOk result (λ targets. targets ≡ map (target_in at) words.now) }
{
    let mut targets = Vec::with_capacity(alloc, words.len())?;
    for word in words {
        targets.push(target_of(at, *word))?;
    }
    Ok(ListOf::from_vec(targets))
}

// The target that a word is.
fn target_of(at: u32, word: [u8; 4]) -> u32
    ensures { result ≡ target_in at word }
{
    at.wrapping_add_signed(i32::from_be_bytes(word))
}

// The pairs of a key and a target that parts of eight bytes are.
fn pairs_of(alloc: Global, at: u32, parts: &[[u8; 8]]) -> Result<PairList, NoMemory>
    ensures { IfOk result (λ pairs. pairs ≡ map (pair_in at) parts.now) }
{
    let mut pairs = Vec::with_capacity(alloc, parts.len())?;
    for part in parts {
        pairs.push(pair_of(at, *part))?;
    }
    Ok(ListOf::from_vec(pairs))
}

// The pair that eight bytes are.
fn pair_of(at: u32, part: [u8; 8]) -> Pair
    ensures { result ≡ pair_in at part }
{
    let [a, b, c, d, e, f, g, h] = part;
    Pair {
        key: i32::from_be_bytes([a, b, c, d]),
        to: target_of(at, [e, f, g, h]),
    }
}

// Whether each key is below the next.
fn keys_increase(pairs: &[Pair]) -> bool
    ensures { result ≡ keys_increase pairs.now }
{
    pairs.is_sorted_by(|pair, next| pair.key < next.key)
}
