//! The state that joins two.
ghost use Rattle.std.specs.Prelude.{◌≡◌, IfOk, OnOk, map};
ghost use Rattle.std.specs.Option.{option_copied};
ghost use Rattle.virtual_state.specs.Inner.Agreement.{ArePair, AreUsable, HasMarkedDifferences, HasMarkedObject, HasMarkedPair, HaveMarkedObjects};
ghost use Rattle.virtual_state.specs.Orders.{HaveSamePlaces, IsJoin};
ghost use Rattle.virtual_state.specs.States.{is_unusable};

use crate::marks::MarkedSites;
use crate::removal::take_away;
use crate::shared::SharedObject;
use crate::slot::{Slot, VObject};
use crate::spread::spread;
use crate::state::VState;
use crate::table::ObjectTable;
use class_model::NoMemory;
use std::alloc::Global;

/// The least state that both are below. Both have as many places, and the same ones are usable. What it has in common with
/// the first state is shared. Takes time proportional to the places and fields of both and their highest site.
pub fn join(alloc: Global, state: &VState, other: &VState) -> Result<VState, NoMemory>
    requires { HaveSamePlaces state.now other.now }
    ensures { IfOk result (λ joined. IsJoin state.now other.now joined) }
{
    state.is_state();
    other.is_state();
    let mut away = MarkedSites::new(alloc);
    mark_places(&mut away, state, other)?;
    mark_objects(&mut away, state.objects(), other.objects())?;
    spread(&mut away, state.objects(), other.objects())?;
    let joined = take_away(alloc, state, &away)?;
    Ok(joined)
}

// Marks the sites whose objects must be made for the slots of two states to agree.
fn mark_places(away: &mut MarkedSites, state: &VState, other: &VState) -> Result<(), NoMemory>
    requires { HaveSamePlaces state.now other.now }
    ensures { OnOk result
        (HasMarkedDifferences away.old away.new state.now.slots other.now.slots) }
{
    for at in 0..state.len() {
        mark_pair(away, state.place(at), other.place(at))?;
    }
    Ok(())
}

// Marks the sites whose objects must be made for slots to agree.
fn mark_differences(away: &mut MarkedSites, slots: &[Slot], others: &[Slot]) -> Result<(), NoMemory>
    requires { map is_unusable slots.now ≡ map is_unusable others.now }
    ensures { OnOk result (HasMarkedDifferences away.old away.new slots.now others.now) }
{
    for at in 0..slots.len() {
        mark_pair(away, slots[at], others[at])?;
    }
    Ok(())
}

// Marks the sites whose objects must be made for two slots to agree.
fn mark_pair(away: &mut MarkedSites, slot: Slot, other: Slot) -> Result<(), NoMemory>
    requires { is_unusable slot ≡ is_unusable other }
    ensures { OnOk result (HasMarkedPair away.old away.new slot other) }
{
    if slot.is_same(other) {
        return Ok(());
    }
    away.mark_slot(slot)?;
    away.mark_slot(other)?;
    Ok(())
}

// Marks the sites whose objects must be made for objects to agree, where the objects that a made one holds are made too.
fn mark_objects(
    away: &mut MarkedSites,
    objects: &ObjectTable,
    others: &ObjectTable,
) -> Result<(), NoMemory>
    requires left { AreUsable objects.now }
    requires right { AreUsable others.now }
    ensures { OnOk result (HaveMarkedObjects away.old away.new objects.now others.now) }
{
    for site in 0..objects.end().max(others.end()) {
        mark_object(away, objects.get(site), others.get(site))?;
    }
    Ok(())
}

// The same for the objects of one site.
fn mark_object(
    away: &mut MarkedSites,
    object: Option<&SharedObject>,
    other: Option<&SharedObject>,
) -> Result<(), NoMemory>
    requires { ArePair (option_copied object) (option_copied other) }
    ensures { OnOk result
        (HasMarkedObject away.old away.new (option_copied object.entry)
        (option_copied other.entry)) }
{
    match object {
        Some(object) => match other {
            Some(other) => mark_fields(away, object.get(), other.get()),
            None => away.mark(object.get().site),
        },
        None => match other {
            Some(other) => away.mark(other.get().site),
            None => Ok(()),
        },
    }
}

// The same for two objects of a site.
fn mark_fields(away: &mut MarkedSites, object: &VObject, other: &VObject) -> Result<(), NoMemory>
    requires { ArePair (Some object.now) (Some other.now) }
    ensures { OnOk result (HasMarkedObject away.old away.new (Some object.now) (Some other.now)) }
{
    if object.depth != other.depth {
        return away.mark(object.site);
    }
    if object.fields.len() != other.fields.len() {
        return away.mark(object.site);
    }
    mark_differences(away, object.fields.as_slice(), other.fields.as_slice())?;
    Ok(())
}
