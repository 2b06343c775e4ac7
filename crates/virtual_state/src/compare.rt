//! Which states are below which.
ghost use Rattle.std.specs.Prelude.{◌≡◌, ◌↔◌, IsFalse, IsTrue, map};
ghost use Rattle.std.specs.List.{list_any};
ghost use Rattle.std.specs.Option.{option_copied};
ghost use Rattle.virtual_state.specs.Inner.Comparing.{ObjectFits, ObjectsFit, absent_from};
ghost use Rattle.virtual_state.specs.Inner.Filling.{is_away};
ghost use Rattle.virtual_state.specs.Orders.{IsBelow};
ghost use Rattle.virtual_state.specs.States.{is_present};
ghost use Rattle.virtual_state.specs.Without.{made_plain};

use crate::shared::SharedObject;
use crate::slot::{Slot, VObject};
use crate::state::VState;
use crate::table::ObjectTable;

/// Whether a state is below another one: the other one is the same where some of its objects are made. Takes time
/// proportional to the places and fields of both and their highest site, and does not allocate.
pub fn below(state: &VState, other: &VState) -> bool
    ensures { IsTrue result ↔ IsBelow state.now other.now }
{
    state.is_state();
    other.is_state();
    let slots = places_fit(state, other);
    if slots {
        objects_fit(state.objects(), other.objects())
    } else {
        false
    }
}

// Whether the slots of states are the same where the objects are made that are absent in the other one.
fn places_fit(state: &VState, other: &VState) -> bool
    ensures { IsTrue result
        ↔ (other.now.slots ≡ map (made_plain (absent_from other.now.objects)) state.now.slots) }
{
    let len = state.len();
    if len != other.len() {
        return false;
    }
    let objects = other.objects();
    for at in 0..len {
        let same = slot_made(state.place(at), objects).is_same(other.place(at));
        if !same {
            return false;
        }
    }
    true
}

// Whether slots are the same where the objects that are absent among these are made.
fn slots_fit(slots: &[Slot], others: &[Slot], objects: &ObjectTable) -> bool
    ensures { IsTrue result ↔ (others.now ≡ map (made_plain (absent_from objects.now)) slots.now) }
{
    let len = slots.len();
    if len != others.len() {
        return false;
    }
    for at in 0..len {
        let same = slot_made(slots[at], objects).is_same(others[at]);
        if !same {
            return false;
        }
    }
    true
}

// A slot where the object that it holds is made, if it is absent among these.
fn slot_made(slot: Slot, objects: &ObjectTable) -> Slot
    ensures { result ≡ made_plain (absent_from objects.now) slot }
{
    match slot {
        Slot::Virt(site) => { if objects.has(site) { slot } else { Slot::Plain } }
        Slot::Plain => slot,
        Slot::Unusable => slot,
    }
}

// Whether each object fits what stands of it among others.
fn objects_fit(objects: &ObjectTable, others: &ObjectTable) -> bool
    ensures { IsTrue result ↔ ObjectsFit objects.now others.now }
{
    for site in 0..objects.end().max(others.end()) {
        let fits = object_fits(objects.get(site), others.get(site), others);
        if !fits {
            return false;
        }
    }
    true
}

// Whether an object fits what stands of it among others.
fn object_fits(
    object: Option<&SharedObject>,
    other: Option<&SharedObject>,
    others: &ObjectTable,
) -> bool
    ensures { IsTrue result
        ↔ ObjectFits others.now (option_copied object.entry) (option_copied other.entry) }
{
    match object {
        Some(object) => match other {
            Some(other) => shape_fits(object.get(), other.get(), others),
            None => holds_none(object.get().fields.as_slice(), others),
        },
        None => match other {
            Some(_) => false,
            None => true,
        },
    }
}

// Whether an object is another one, where the objects that are absent among these are made.
fn shape_fits(object: &VObject, other: &VObject, objects: &ObjectTable) -> bool
    ensures { IsTrue result ↔ ObjectFits objects.now (Some object.now) (Some other.now) }
{
    if object.depth == other.depth {
        slots_fit(object.fields.as_slice(), other.fields.as_slice(), objects)
    } else {
        false
    }
}

// Whether no slot holds one of these objects.
fn holds_none(slots: &[Slot], objects: &ObjectTable) -> bool
    ensures { IsTrue result ↔ IsFalse (list_any (is_away (is_present objects.now)) slots.now) }
{
    for slot in slots {
        if let Slot::Virt(site) = *slot
            && objects.has(site)
        {
            return false;
        }
    }
    true
}
