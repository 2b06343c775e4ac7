//! States of virtual objects.
ghost use Rattle.std.specs.Prelude.{◌≡◌, ◌++◌, ◌+◌, ◌-◌, [], length, map, not, IfOk, IfSome, IsTrue};
ghost use Rattle.std.specs.List.{AllByRecursion};
ghost use Rattle.cases_rewrite.specs.Inner.Numbering.{AreNumberedFrom, IsBelowSite, IsThere};
ghost use Rattle.virtual_state.specs.Depths.{with_depth};
ghost use Rattle.virtual_state.specs.Making.{IsStateOf};
ghost use Rattle.virtual_state.specs.Orders.{IsJoin};
ghost use Rattle.virtual_state.specs.States.{is_unusable};

use class_model::{ListOf, NoMemory};
use std::alloc::Global;
use virtual_state::{
    Slot, SlotList, VObject, VObjectList, VState, below, differing, differing_sites_are_taken_away,
    enter, join, leave, without,
};

/// The state of these slots and objects, if the sites of the objects are their numbers from 0 on, and fields hold objects of
/// lesser sites alone.
pub fn state_of(
    alloc: Global,
    slots: SlotList,
    objects: VObjectList,
) -> Result<Option<VState>, NoMemory>
    ensures { IfOk result (λ made. IfSome made (IsStateOf slots objects)) }
{
    let are_there = are_numbered(slots.as_slice(), objects.len());
    if are_there && are_numbered_from(0, objects.as_slice()) {
        Ok(Some(VState::of(alloc, slots, objects)?))
    } else {
        Ok(None)
    }
}

/// The state of other slots with these objects in place of those of their sites, under the same conditions; a slot may also hold
/// an object of the state.
pub fn changed(
    alloc: Global,
    state: &VState,
    slots: SlotList,
    objects: VObjectList,
) -> Result<Option<VState>, NoMemory>
    ensures { IfOk result
        (λ made. IfSome made (IsStateOf slots (objects ++ state.now.objects))) }
{
    state.is_state();
    let are_there = are_numbered_or_of(slots.as_slice(), objects.len(), state);
    if are_there && are_numbered_from(0, objects.as_slice()) {
        Ok(Some(state.changed(alloc, slots, objects)?))
    } else {
        Ok(None)
    }
}

fn are_numbered(slots: &[Slot], count: usize) -> bool
    ensures { IsTrue result → AllByRecursion (IsThere count []) slots.now }
{
    match slots {
        [] => true,
        [first, others @ ..] => is_numbered(*first, count) && are_numbered(others, count),
    }
}

fn is_numbered(slot: Slot, count: usize) -> bool
    ensures { IsTrue result → IsThere count [] slot }
{
    match slot {
        Slot::Virt(site) => usize::from(site) < count,
        Slot::Plain | Slot::Unusable => true,
    }
}

fn are_numbered_or_of(slots: &[Slot], count: usize, state: &VState) -> bool
    ensures { IsTrue result → AllByRecursion (IsThere count state.now.objects) slots.now }
{
    match slots {
        [] => true,
        [first, others @ ..] => {
            is_numbered_or_of(*first, count, state) && are_numbered_or_of(others, count, state)
        }
    }
}

fn is_numbered_or_of(slot: Slot, count: usize, state: &VState) -> bool
    ensures { IsTrue result → IsThere count state.now.objects slot }
{
    match slot {
        Slot::Virt(site) => usize::from(site) < count || state.present(site),
        Slot::Plain | Slot::Unusable => true,
    }
}

// Whether the sites of objects are the numbers from one on, and fields hold objects of lesser sites alone.
fn are_numbered_from(number: u32, objects: &[VObject]) -> bool
    ensures { IsTrue result → AreNumberedFrom number objects.now }
{
    match objects {
        [] => true,
        [first, others @ ..] => {
            let Some(next) = number.checked_add(1) else {
                return false;
            };
            u32::from(first.site) == number
                && are_below(number, first.fields.as_slice())
                && are_numbered_from(next, others)
        }
    }
}

fn are_below(site: u32, fields: &[Slot]) -> bool
    ensures { IsTrue result → AllByRecursion (IsBelowSite site) fields.now }
{
    match fields {
        [] => true,
        [first, others @ ..] => is_below(site, *first) && are_below(site, others),
    }
}

fn is_below(site: u32, field: Slot) -> bool
    ensures { IsTrue result → IsBelowSite site field }
{
    match field {
        Slot::Plain => true,
        Slot::Virt(one) => u32::from(one) < site,
        Slot::Unusable => false,
    }
}

/// The join of two states, if they have as many places and the same ones are usable.
pub fn joined(alloc: Global, one: &VState, other: &VState) -> Result<Option<VState>, NoMemory>
    ensures { IfOk result (λ made. IfSome made (IsJoin one.now other.now)) }
{
    let slots = one.slots(alloc)?;
    let others = other.slots(alloc)?;
    if have_same_places(slots.as_slice(), others.as_slice()) {
        Ok(Some(join(alloc, one, other)?))
    } else {
        Ok(None)
    }
}

fn have_same_places(slots: &[Slot], others: &[Slot]) -> bool
    ensures { IsTrue result → map is_unusable slots.now ≡ map is_unusable others.now }
{
    match (slots, others) {
        ([], []) => true,
        ([first, slots @ ..], [other, others @ ..]) => {
            is_usable(*first) == is_usable(*other) && have_same_places(slots, others)
        }
        _ => false,
    }
}

fn is_usable(slot: Slot) -> bool
    ensures { result ≡ not (is_unusable slot) }
{
    !matches!(slot, Slot::Unusable)
}

/// The state where the monitor of a site's object is entered once more, if the object is present and that can be.
pub fn entered(alloc: Global, state: &VState, site: u16) -> Result<Option<VState>, NoMemory>
    ensures { IfOk result
        (λ made. IfSome made (λ after. after ≡ with_depth state.now site (λ depth. depth + 1))) }
{
    match state.depth(site) {
        Some(depth) if depth < 65_535 => Ok(Some(enter(alloc, state, site)?)),
        _ => Ok(None),
    }
}

/// The state where the monitor of a site's object is left once, if the object is present and its monitor is entered.
pub fn left(alloc: Global, state: &VState, site: u16) -> Result<Option<VState>, NoMemory>
    ensures { IfOk result
        (λ made. IfSome made (λ after. after ≡ with_depth state.now site (λ depth. depth - 1))) }
{
    match state.depth(site) {
        Some(depth) if 0 < depth => Ok(Some(leave(alloc, state, site)?)),
        _ => Ok(None),
    }
}

/// A state without the sites by which it differs from another one, if it is below that one.
pub fn without_differing(
    alloc: Global,
    state: &VState,
    above: &VState,
) -> Result<Option<VState>, NoMemory>
    ensures { IfOk result (λ made. IfSome made (λ rest. rest ≡ above.now)) }
{
    state.is_state();
    differing_sites_are_taken_away();
    if below(state, above) {
        let sites = differing(alloc, state, above)?;
        Ok(Some(without(alloc, state, &sites)?))
    } else {
        Ok(None)
    }
}

/// A state of so many sites, each in a place of its own and with 16 fields, of which the last holds the object of the site before. The
/// monitor of one of them is entered once.
pub fn chain_of(alloc: Global, sites: u16, entered: u16) -> Result<Option<VState>, NoMemory> {
    let mut places = ListOf::new(alloc);
    let mut objects = ListOf::new(alloc);
    for site in 0..sites {
        objects.push(link(alloc, site, u16::from(site == entered))?)?;
        places.push(Slot::Virt(site))?;
    }
    state_of(alloc, places, objects)
}

// The object of a site of such a state.
fn link(alloc: Global, site: u16, depth: u16) -> Result<VObject, NoMemory> {
    let mut fields = ListOf::new(alloc);
    for _ in 0..15 {
        fields.push(Slot::Plain)?;
    }
    fields.push(match site.checked_sub(1) {
        Some(before) => Slot::Virt(before),
        None => Slot::Plain,
    })?;
    Ok(VObject {
        site,
        fields,
        depth,
    })
}
