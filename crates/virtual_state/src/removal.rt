//! States without some of their virtual objects.
ghost use Rattle.std.specs.Prelude.{◌≡◌, IfOk, OnOk, map};
ghost use Rattle.std.specs.List.{list_any};
ghost use Rattle.std.specs.Option.{option_copied};
ghost use Rattle.virtual_state.specs.Inner.Filling.{HasPut, is_away, stays_as};
ghost use Rattle.virtual_state.specs.Sites.{has};
ghost use Rattle.virtual_state.specs.Without.{IsClosed, made_plain, object_without as made_within, objects_without as made_among, without as state_without};

use crate::front::FrontSlots;
use crate::marks::MarkedSites;
use crate::shared::SharedObject;
use crate::sites::SiteSet;
use crate::slot::{Slot, SlotList, VObject};
use crate::state::VState;
use crate::table::ObjectTable;
use class_model::{ListOf, NoMemory};
use std::alloc::Global;
use std::rc::Rc;

/// The state without the sites of a closed set: their objects are made, so that each place and field that held one is
/// plain. Slots and objects that hold none of them are shared. Takes time proportional to the places and fields of the
/// state, its highest site and the sites of the set.
pub fn without(alloc: Global, state: &VState, sites: &SiteSet) -> Result<VState, NoMemory>
    requires { IsClosed (has sites.now) state.now.objects }
    ensures { IfOk result (λ rest. rest ≡ state_without state.now (has sites.now)) }
{
    let mut away = MarkedSites::new(alloc);
    away.mark_all(sites.as_slice())?;
    let rest = take_away(alloc, state, &away)?;
    Ok(rest)
}

/// The state without the marked sites.
pub(crate) fn take_away(
    alloc: Global,
    state: &VState,
    away: &MarkedSites,
) -> Result<VState, NoMemory>
    requires { IsClosed (has away.now) state.now.objects }
    ensures { IfOk result (λ rest. rest ≡ state_without state.now (has away.now)) }
{
    state.is_state();
    if away.is_empty() {
        let same = state.copy()?;
        return Ok(same);
    }
    let (front, back) = state.slot_parts();
    let front = front_without(alloc, front, away)?;
    let back = shared_slots_without(alloc, back, away)?;
    let objects = objects_without(alloc, state.objects(), away)?;
    let objects = Rc::new(alloc, objects)?;
    Ok(VState::from_parts(front, back, objects))
}

// First slots where the objects of marked sites are made. Where none of these is held, the slots are shared.
fn front_without(
    alloc: Global,
    front: &FrontSlots,
    away: &MarkedSites,
) -> Result<FrontSlots, NoMemory>
    ensures { IfOk result (λ rest. rest ≡ map (made_plain (has away.now)) front.now) }
{
    let listed = front.listed();
    if !holds_any(listed, away) {
        let same = front.copy()?;
        return Ok(same);
    }
    let unusable = front.len() - listed.len();
    let list = slots_without(alloc, listed, away)?;
    let rest = FrontSlots::of(alloc, list, unusable)?;
    Ok(rest)
}

// Slots where the objects of marked sites are made. Where none of these is held, the slots are shared.
fn shared_slots_without(
    alloc: Global,
    slots: &Rc<SlotList>,
    away: &MarkedSites,
) -> Result<Rc<SlotList>, NoMemory>
    ensures { IfOk result (λ rest. rest.value ≡ map (made_plain (has away.now)) slots.now.value) }
{
    if !holds_any(slots.as_slice(), away) {
        let same = slots.clone()?;
        return Ok(same);
    }
    let list = slots_without(alloc, slots.as_slice(), away)?;
    let rest = Rc::new(alloc, list)?;
    Ok(rest)
}

// Whether one of these slots holds the object of a marked site.
fn holds_any(slots: &[Slot], away: &MarkedSites) -> bool
    ensures { result ≡ list_any (is_away (has away.now)) slots.now }
{
    for slot in slots {
        if let Slot::Virt(site) = *slot
            && away.has(site)
        {
            return true;
        }
    }
    false
}

// Slots where the objects of marked sites are made.
fn slots_without(alloc: Global, slots: &[Slot], away: &MarkedSites) -> Result<SlotList, NoMemory>
    ensures { IfOk result (λ rest. rest ≡ map (made_plain (has away.now)) slots.now) }
{
    let mut rest = Vec::with_capacity(alloc, slots.len())?;
    for slot in slots {
        rest.push(slot_without(*slot, away))?;
    }
    Ok(ListOf::from_vec(rest))
}

// A slot where the objects of marked sites are made.
fn slot_without(slot: Slot, away: &MarkedSites) -> Slot
    ensures { result ≡ made_plain (has away.now) slot }
{
    match slot {
        Slot::Virt(site) => { if away.has(site) { Slot::Plain } else { slot } }
        Slot::Plain | Slot::Unusable => slot,
    }
}

// The objects of the other sites, where those of marked ones are made.
fn objects_without(
    alloc: Global,
    objects: &ObjectTable,
    away: &MarkedSites,
) -> Result<ObjectTable, NoMemory>
    ensures { IfOk result (λ rest. rest ≡ made_among (has away.now) objects.now) }
{
    let mut rest = ObjectTable::new(alloc);
    for site in 0..objects.end() {
        put_without(alloc, &mut rest, objects.get(site), away)?;
    }
    objects.is_in_order();
    rest.is_in_order();
    Ok(rest)
}

// Puts an object where those of marked sites are made, if it is of another one.
fn put_without(
    alloc: Global,
    rest: &mut ObjectTable,
    object: Option<&SharedObject>,
    away: &MarkedSites,
) -> Result<(), NoMemory>
    ensures { OnOk result
        (HasPut rest.old rest.new (stays_as (has away.now) (option_copied object.entry))) }
{
    let Some(object) = object else {
        return Ok(());
    };
    if away.has(object.get().site) {
        return Ok(());
    }
    rest.put(object_without(alloc, object, away)?)
}

// An object where those of marked sites are made. Where its fields hold none of these, it is shared.
fn object_without(
    alloc: Global,
    object: &SharedObject,
    away: &MarkedSites,
) -> Result<SharedObject, NoMemory>
    ensures { IfOk result (λ rest. rest ≡ made_within (has away.now) object.now) }
{
    let kept = object.get();
    if !holds_any(kept.fields.as_slice(), away) {
        let same = object.share()?;
        return Ok(same);
    }
    let changed = VObject {
        site: kept.site,
        fields: slots_without(alloc, kept.fields.as_slice(), away)?,
        depth: kept.depth,
    };
    SharedObject::new(alloc, changed)
}
