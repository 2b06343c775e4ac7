//! The monitor counts of known references.
ghost use Rattle.std.specs.Prelude.{◌≡◌, map, IfOk};
ghost use Rattle.std.specs.BTreeMap.{IsOrdered};
ghost use Rattle.std.specs.Ordering.{nat_cmp};
ghost use Rattle.machine_values.specs.Heaps.{monitor_count};
ghost use Rattle.machine_step.specs.Inner.Counting.{Collects, held_of};
ghost use Rattle.machine_step.specs.Inner.Monitors.{AreHeld};

use crate::known::KnownRefs;
use class_model::NoMemory;
use machine_heap::Heap;
use machine_values::{CountList, HeldCount, Ref};
use std::alloc::Global;
use std::collections::BTreeMap;

/// The counts above zero of these references, where they are known, by their numbers.
pub(crate) fn collect_counts(
    alloc: Global,
    heap: &Heap,
    known: &KnownRefs,
    references: &[u64],
) -> Result<BTreeMap<usize, u64>, NoMemory>
    ensures { IfOk result (Collects heap.now known.now references.now) }
{
    let mut counts = BTreeMap::new(alloc);
    for number in references {
        let reference = Ref { number: *number };
        let count = heap.monitor_count(reference);
        if count > 0 {
            if let Some(place) = known.number_of(reference) {
                counts.insert(place as usize, count)?;
            }
        }
    }
    Ok(counts)
}

/// Collected counts one after the other, in the order of their numbers.
pub(crate) fn held_counts(
    alloc: Global,
    counts: &BTreeMap<usize, u64>,
) -> Result<Vec<HeldCount>, NoMemory>
    ensures ordered { IsOrdered nat_cmp counts.now }
    ensures same { IfOk result (λ held. held.items ≡ map held_of counts.now.entries) }
{
    let held = counts
        .iter()
        .map(|(number, count)| HeldCount {
            number: *number,
            count: *count,
        })
        .collect(alloc)?;
    Ok(held)
}

/// The monitor counts of all known references, of which these have the ones whose monitors are entered.
pub(crate) fn known_counts(
    alloc: Global,
    heap: &Heap,
    known: &KnownRefs,
    references: &[u64],
) -> Result<CountList, NoMemory>
    requires { AreHeld heap.now references.now }
    ensures { IfOk result (λ counts. counts ≡ map (monitor_count heap.now) known.now) }
{
    let counts = collect_counts(alloc, heap, known, references)?;
    let held = held_counts(alloc, &counts)?;
    Ok(CountList::of_held(known.len(), held))
}
