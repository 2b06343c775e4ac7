//! Instructions whose targets are numbers.
ghost use Rattle.std.specs.Prelude.{◌≡◌, map, IfOk};
ghost use Rattle.inline_expand.specs.Inner.Numbers.{number_by};
ghost use Rattle.member_link.specs.Targets.{pair_to, with_targets};

use crate::numbers::Numbers;
use class_model::{Instr, ListOf, NoMemory, Pair};
use std::alloc::Global;

/// An instruction of a method, whose targets are the numbers of the instructions at its targets.
///
/// # Errors
/// `NoMemory`, where memory runs out.
pub(crate) fn renumbered(
    alloc: Global,
    numbers: &Numbers<'_, '_>,
    instr: &Instr,
) -> Result<Instr, NoMemory>
    ensures { IfOk result (λ copy. copy ≡ with_targets (number_by numbers.now) instr.now) }
{
    Ok(match instr {
        Instr::If(opcode, to) => Instr::If(*opcode, numbers.number(*to)),
        Instr::If2(opcode, to) => Instr::If2(*opcode, numbers.number(*to)),
        Instr::IfSame(opcode, to) => Instr::IfSame(*opcode, numbers.number(*to)),
        Instr::IfNull(opcode, to) => Instr::IfNull(*opcode, numbers.number(*to)),
        Instr::Goto(to) => Instr::Goto(numbers.number(*to)),
        Instr::Table {
            low,
            other,
            targets,
        } => Instr::Table {
            low: *low,
            other: numbers.number(*other),
            targets: ListOf::from_vec(numbers_of(alloc, numbers, targets.as_slice())?),
        },
        Instr::Lookup { other, pairs } => Instr::Lookup {
            other: numbers.number(*other),
            pairs: ListOf::from_vec(numbered_pairs(alloc, numbers, pairs.as_slice())?),
        },
        _ => instr.copy(alloc)?,
    })
}

// The numbers of the instructions at these targets.
fn numbers_of(
    alloc: Global,
    numbers: &Numbers<'_, '_>,
    targets: &[u32],
) -> Result<Vec<u32>, NoMemory>
    ensures { IfOk result (λ list. list.items ≡ map (number_by numbers.now) targets.now) }
{
    let mut list = Vec::with_capacity(alloc, targets.len())?;
    for to in targets {
        list.push(numbers.number(*to))?;
    }
    Ok(list)
}

// Keys with the numbers of the instructions at their targets.
fn numbered_pairs(
    alloc: Global,
    numbers: &Numbers<'_, '_>,
    pairs: &[Pair],
) -> Result<Vec<Pair>, NoMemory>
    ensures { IfOk result (λ list. list.items ≡ map (pair_to (number_by numbers.now)) pairs.now) }
{
    let mut list = Vec::with_capacity(alloc, pairs.len())?;
    for pair in pairs {
        list.push(Pair {
            key: pair.key,
            to: numbers.number(pair.to),
        })?;
    }
    Ok(list)
}
