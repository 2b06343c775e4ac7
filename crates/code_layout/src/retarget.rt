//! Instructions whose targets are offsets.
ghost use Rattle.std.specs.Prelude.{◌≡◌, map, IfOk, MatchOption};
ghost use Rattle.member_link.specs.Targets.{pair_to, with_targets};
ghost use Rattle.code_layout.specs.Layout.{start_in};

use crate::places::start_of;
use class_model::{Instr, ListOf, NoMemory, Pair};
use std::alloc::Global;

/// An instruction whose targets are the offsets of the items that they are the numbers of. None: it has no targets.
pub(crate) fn retargeted(
    alloc: Global,
    instr: &Instr,
    starts: &[u32],
) -> Result<Option<Instr>, NoMemory>
    ensures { IfOk result (λ found.
        MatchOption found (with_targets (start_in starts.now) instr.now ≡ instr.now)
        (λ placed. placed ≡ with_targets (start_in starts.now) instr.now)) }
{
    Ok(Some(match instr {
        Instr::If(opcode, to) => Instr::If(*opcode, start_of(starts, *to)),
        Instr::If2(opcode, to) => Instr::If2(*opcode, start_of(starts, *to)),
        Instr::IfSame(opcode, to) => Instr::IfSame(*opcode, start_of(starts, *to)),
        Instr::IfNull(opcode, to) => Instr::IfNull(*opcode, start_of(starts, *to)),
        Instr::Goto(to) => Instr::Goto(start_of(starts, *to)),
        Instr::Table {
            low,
            other,
            targets,
        } => Instr::Table {
            low: *low,
            other: start_of(starts, *other),
            targets: ListOf::from_vec(starts_of(alloc, targets.as_slice(), starts)?),
        },
        Instr::Lookup { other, pairs } => Instr::Lookup {
            other: start_of(starts, *other),
            pairs: ListOf::from_vec(pairs_at(alloc, pairs.as_slice(), starts)?),
        },
        _ => return Ok(None),
    }))
}

// Where the items of these numbers start.
fn starts_of(alloc: Global, targets: &[u32], starts: &[u32]) -> Result<Vec<u32>, NoMemory>
    ensures { IfOk result (λ placed. placed.items ≡ map (start_in starts.now) targets.now) }
{
    let mut placed = Vec::with_capacity(alloc, targets.len())?;
    for to in targets {
        placed.push(start_of(starts, *to))?;
    }
    Ok(placed)
}

// Keys with the offsets of the items that they go to.
fn pairs_at(alloc: Global, pairs: &[Pair], starts: &[u32]) -> Result<Vec<Pair>, NoMemory>
    ensures { IfOk result (λ placed. placed.items ≡ map (pair_to (start_in starts.now)) pairs.now) }
{
    let mut placed = Vec::with_capacity(alloc, pairs.len())?;
    for pair in pairs {
        placed.push(Pair {
            key: pair.key,
            to: start_of(starts, pair.to),
        })?;
    }
    Ok(placed)
}
