//! Switches (JVM Specification SE 8, 6.5: tableswitch and lookupswitch).
ghost use Rattle.std.specs.Prelude.{◌≡◌, IfOk, map};
ghost use Rattle.class_tree.specs.Headers.{Classes};
ghost use Rattle.machine_code.specs.Inner.Translating.{OpIsResolved, numbered, number_of};
ghost use Rattle.member_link.specs.RunOps.{op_of};
ghost use Rattle.member_link.specs.Machine.Ops.{lookup_switch, table_switch};

use crate::translating::numbers::Numbers;
use class_model::{NoMemory, Pair, PairList, TargetList};
use member_link::{LookupOp, RunOp, TableOp};
use std::alloc::Global;

/// A `tableswitch`, by the numbers of its targets.
///
/// # Errors
/// `NoMemory`, where memory runs out.
pub(crate) fn table_op(
    alloc: Global,
    numbers: &Numbers<'_>,
    low: i32,
    other: u32,
    targets: &TargetList,
) -> Result<RunOp, NoMemory>
    ensures is { IfOk result (λ op. op_of op
        ≡ table_switch low (number_of numbers.now other)
        (map (number_of numbers.now) targets.now)) }
    ensures resolved { IfOk result (λ op. (classes : Classes) → OpIsResolved classes op) }
{
    let targets = numbered_targets(alloc, numbers, targets.as_slice())?;
    let other = numbers.of(other);
    let table = Box::new(
        alloc,
        TableOp {
            low,
            other,
            targets,
        },
    )?;
    Ok(RunOp::Table(table))
}

// The numbers of these targets.
fn numbered_targets(
    alloc: Global,
    numbers: &Numbers<'_>,
    targets: &[u32],
) -> Result<TargetList, NoMemory>
    ensures { IfOk result (λ list. list ≡ map (number_of numbers.now) targets.now) }
{
    let list = targets
        .iter()
        .map(|target| numbers.of(*target))
        .collect(alloc)?;
    Ok(TargetList::from_vec(list))
}

/// A `lookupswitch`, by the numbers of its targets.
///
/// # Errors
/// `NoMemory`, where memory runs out.
pub(crate) fn lookup_op(
    alloc: Global,
    numbers: &Numbers<'_>,
    other: u32,
    pairs: &PairList,
) -> Result<RunOp, NoMemory>
    ensures is { IfOk result (λ op. op_of op
        ≡ lookup_switch (number_of numbers.now other)
        (map (numbered (number_of numbers.now)) pairs.now)) }
    ensures resolved { IfOk result (λ op. (classes : Classes) → OpIsResolved classes op) }
{
    let pairs = numbered_pairs(alloc, numbers, pairs.as_slice())?;
    let other = numbers.of(other);
    let lookup = Box::new(alloc, LookupOp { other, pairs })?;
    Ok(RunOp::Lookup(lookup))
}

// These pairs with the numbers of their targets.
fn numbered_pairs(
    alloc: Global,
    numbers: &Numbers<'_>,
    pairs: &[Pair],
) -> Result<PairList, NoMemory>
    ensures { IfOk result (λ list. list ≡ map (numbered (number_of numbers.now)) pairs.now) }
{
    let mut list = PairList::new(alloc);
    for pair in pairs {
        list.push(numbered(numbers, *pair))?;
    }
    Ok(list)
}

// A pair with the number of its target.
fn numbered(numbers: &Numbers<'_>, pair: Pair) -> Pair
    ensures { result ≡ numbered (number_of numbers.now) pair }
{
    Pair {
        key: pair.key,
        to: numbers.of(pair.to),
    }
}
