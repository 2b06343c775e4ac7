//! Slots of which it is noted where they are not plain.
ghost use Rattle.std.specs.Prelude.{◌≡◌, IfOk, map};
ghost use Rattle.std.specs.List.{filter};
ghost use Rattle.virtual_state.specs.Gaps.{true_from};
ghost use Rattle.virtual_state.specs.Inner.Listed.{holds_object};
ghost use Rattle.virtual_state.specs.States.{is_unusable};

use crate::slot::{Slot, SlotList};
use class_model::NoMemory;
use std::alloc::Global;
use std::marker::Model;

/// Slots, with those of them that hold virtual objects, and with the indices of those that are unusable: most are plain, so that
/// these are few. Contracts see the slots.
#[derive(Drop)]
pub(crate) struct ListedSlots {
    slots: SlotList,
    held: Vec<Slot>,
    gaps: Vec<usize>,
}

impl Model for ListedSlots {
    ghost use Rattle.std.specs.Prelude.{List};
    ghost use Rattle.virtual_state.specs.Inner.Listed.{AreNoted};
    ghost use Rattle.virtual_state.specs.declared.slot.Slot.{Slot};

    ghost Value = { List Slot };

    ghost view = { λ listed. listed.slots };

    ghost invariant = { λ listed. AreNoted listed.slots listed.held.items listed.gaps.items };
}

impl ListedSlots {
    /// These slots.
    pub(crate) fn of(alloc: Global, slots: SlotList) -> Result<Self, NoMemory>
        ensures { IfOk result (λ listed. listed ≡ slots) }
    {
        let held = held_among(alloc, slots.as_slice())?;
        let gaps = gaps_among(alloc, slots.as_slice())?;
        Ok(ListedSlots { slots, held, gaps })
    }

    /// The slots.
    pub(crate) fn as_slice(&self) -> &[Slot]
        ensures { result.now ≡ self.now }
    {
        self.slots.as_slice()
    }

    /// Those that hold virtual objects.
    pub(crate) fn held(&self) -> &[Slot]
        ensures { result.now ≡ filter holds_object self.now }
    {
        self.held.as_slice()
    }

    /// The indices of those that are unusable, in order.
    pub(crate) fn gaps(&self) -> &[usize]
        ensures { result.now ≡ true_from 0 (map is_unusable self.now) }
    {
        self.gaps.as_slice()
    }
}

// The slots that hold virtual objects.
fn held_among(alloc: Global, slots: &[Slot]) -> Result<Vec<Slot>, NoMemory>
    ensures { IfOk result (λ held. held.items ≡ filter holds_object slots.now) }
{
    let mut held = Vec::new(alloc);
    for at in 0..slots.len() {
        if slots[at].holds_object() {
            held.push(slots[at])?;
        }
    }
    Ok(held)
}

// The indices of the slots that are unusable, in order.
fn gaps_among(alloc: Global, slots: &[Slot]) -> Result<Vec<usize>, NoMemory>
    ensures { IfOk result (λ gaps. gaps.items ≡ true_from 0 (map is_unusable slots.now)) }
{
    let mut gaps = Vec::new(alloc);
    for at in 0..slots.len() {
        if slots[at].is_unusable() {
            gaps.push(at)?;
        }
    }
    Ok(gaps)
}
