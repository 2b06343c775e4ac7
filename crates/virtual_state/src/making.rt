//! States of given slots and objects.
ghost use Rattle.std.specs.Prelude.{◌≡◌, ◌++◌, ℕ, IsTrue, IfOk, OnOk};
ghost use Rattle.std.specs.Option.{option_copied};
ghost use Rattle.virtual_state.specs.Inner.Filling.{HasPut, if_among, of_sites};
ghost use Rattle.virtual_state.specs.Making.{CanBeState, IsStateOf};
ghost use Rattle.virtual_state.specs.Sites.{has};
ghost use Rattle.virtual_state.specs.States.{object_of};

use crate::front::FrontSlots;
use crate::marks::MarkedSites;
use crate::shared::SharedObject;
use crate::slot::{Slot, SlotList, VObjectList};
use crate::spread::spread;
use crate::state::VState;
use crate::table::ObjectTable;
use class_model::{ListOf, NoMemory};
use std::alloc::Global;
use std::rc::Rc;

impl VState {
    /// The state of these slots with those of the objects that the slots reach. Each site that a slot or a field names has
    /// an object; none is reached from itself, and no field is unusable. Of several objects of one site the first counts.
    pub fn of(alloc: Global, slots: SlotList, objects: VObjectList) -> Result<Self, NoMemory>
        requires { CanBeState slots objects }
        ensures { IfOk result (λ state. IsStateOf slots objects state) }
    {
        let mut table = ObjectTable::new(alloc);
        put_all(alloc, &mut table, objects)?;
        let front = FrontSlots::of(alloc, ListOf::new(alloc), 0)?;
        let back = Rc::new(alloc, slots)?;
        let table = Rc::new(alloc, table)?;
        let state = reached_state(alloc, front, back, &table)?;
        Ok(state)
    }

    /// The state of other slots, where these objects take the place of those of their sites. Unchanged objects are shared.
    /// The conditions are those of `of`.
    pub fn changed(
        &self,
        alloc: Global,
        slots: SlotList,
        objects: VObjectList,
    ) -> Result<Self, NoMemory>
        requires { CanBeState slots (objects ++ self.now.objects) }
        ensures { IfOk result (λ state. IsStateOf slots (objects ++ self.now.objects) state) }
    {
        let front = FrontSlots::of(alloc, ListOf::new(alloc), 0)?;
        let state = self.moved(alloc, front, slots, objects)?;
        Ok(state)
    }

    /// The same of the slots of the first places, which may be shared, and of the others. Where no object takes the place of
    /// another one, and all are still reached, their table is shared; so are the slots of the other places, where they are as before.
    pub fn moved(
        &self,
        alloc: Global,
        front: FrontSlots,
        back: SlotList,
        objects: VObjectList,
    ) -> Result<Self, NoMemory>
        requires { CanBeState (front ++ back) (objects ++ self.now.objects) }
        ensures { IfOk result
            (λ state. IsStateOf (front ++ back) (objects ++ self.now.objects) state) }
    {
        let table = table_with(alloc, self.shared_objects(), objects)?;
        let back = shared_back(alloc, self, back)?;
        let state = reached_state(alloc, front, back, &table)?;
        Ok(state)
    }
}

// A table where objects take the places of those of their sites. Where there is none, it is shared.
fn table_with(
    alloc: Global,
    table: &Rc<ObjectTable>,
    objects: VObjectList,
) -> Result<Rc<ObjectTable>, NoMemory>
    ensures { IfOk result
        (λ with. (site : ℕ)
        → object_of with.value site ≡ object_of (objects ++ table.now.value) site) }
{
    if objects.is_empty() {
        let same = table.clone()?;
        return Ok(same);
    }
    let mut with = table.as_ref().copy(alloc)?;
    put_all(alloc, &mut with, objects)?;
    let with = Rc::new(alloc, with)?;
    Ok(with)
}

// Slots. Where they are those of the last places of a state, as it keeps them, they are shared.
fn shared_back(alloc: Global, state: &VState, slots: SlotList) -> Result<Rc<SlotList>, NoMemory>
    ensures { IfOk result (λ shared. shared.value ≡ slots) }
{
    let (_, back) = state.slot_parts();
    if are_same(back.as_slice(), slots.as_slice()) {
        let same = back.clone()?;
        return Ok(same);
    }
    let shared = Rc::new(alloc, slots)?;
    Ok(shared)
}

// Whether slots are the same.
fn are_same(slots: &[Slot], others: &[Slot]) -> bool
    ensures { IsTrue result → slots.now ≡ others.now }
{
    let len = slots.len();
    if len != others.len() {
        return false;
    }
    for at in 0..len {
        if !slots[at].is_same(others[at]) {
            return false;
        }
    }
    true
}

// Puts objects in the places of those of their sites. Of several objects of one site the first counts.
fn put_all(alloc: Global, table: &mut ObjectTable, objects: VObjectList) -> Result<(), NoMemory>
    ensures { OnOk result
        ((site : ℕ) → object_of table.new site ≡ object_of (objects ++ table.old) site) }
{
    let mut left = objects.into_vec();
    while let Some(object) = left.pop() {
        table.put(SharedObject::new(alloc, object)?)?;
    }
    Ok(())
}

// The state of these slots with those of the objects that the slots reach.
fn reached_state(
    alloc: Global,
    front: FrontSlots,
    back: Rc<SlotList>,
    table: &Rc<ObjectTable>,
) -> Result<VState, NoMemory>
    requires { CanBeState (front ++ back.value) table.now.value }
    ensures { IfOk result (λ state. IsStateOf (front ++ back.value) table.now.value state) }
{
    let mut reached = MarkedSites::new(alloc);
    reached.mark_slots(front.held())?;
    reached.mark_slots(back.as_slice())?;
    spread(&mut reached, table.as_ref(), table.as_ref())?;
    let objects = table_among(alloc, table, &reached)?;
    table.as_ref().is_in_order();
    Ok(VState::from_parts(front, back, objects))
}

// A table without the objects that are not of marked sites. Where there is none of these, it is shared.
fn table_among(
    alloc: Global,
    table: &Rc<ObjectTable>,
    among: &MarkedSites,
) -> Result<Rc<ObjectTable>, NoMemory>
    ensures { IfOk result (λ kept. kept.value ≡ of_sites (has among.now) table.now.value) }
{
    if are_among(table.as_ref(), among) {
        let same = table.clone()?;
        return Ok(same);
    }
    let kept = objects_among(alloc, table.as_ref(), among)?;
    let kept = Rc::new(alloc, kept)?;
    Ok(kept)
}

// Whether all objects are of marked sites.
fn are_among(objects: &ObjectTable, among: &MarkedSites) -> bool
    ensures { IsTrue result → of_sites (has among.now) objects.now ≡ objects.now }
{
    for site in 0..objects.end() {
        if !is_among(objects.get(site), among) {
            return false;
        }
    }
    objects.is_in_order();
    true
}

// Whether an object is of a marked site, if there is one.
fn is_among(object: Option<&SharedObject>, among: &MarkedSites) -> bool
    ensures { IsTrue result
        → if_among (has among.now) (option_copied object.entry) ≡ option_copied object.entry }
{
    match object {
        Some(object) => among.has(object.get().site),
        None => true,
    }
}

// The objects of marked sites, which are shared.
fn objects_among(
    alloc: Global,
    objects: &ObjectTable,
    among: &MarkedSites,
) -> Result<ObjectTable, NoMemory>
    ensures { IfOk result (λ kept. kept ≡ of_sites (has among.now) objects.now) }
{
    let mut kept = ObjectTable::new(alloc);
    for site in 0..objects.end() {
        put_among(&mut kept, objects.get(site), among)?;
    }
    objects.is_in_order();
    kept.is_in_order();
    Ok(kept)
}

// Puts an object, if it is of a marked site.
fn put_among(
    kept: &mut ObjectTable,
    object: Option<&SharedObject>,
    among: &MarkedSites,
) -> Result<(), NoMemory>
    ensures { OnOk result
        (HasPut kept.old kept.new (if_among (has among.now) (option_copied object.entry))) }
{
    let Some(object) = object else {
        return Ok(());
    };
    if !among.has(object.get().site) {
        return Ok(());
    }
    kept.put(object.share()?)
}
