//! States of virtual objects.
ghost use Rattle.std.specs.Prelude.{◌≡◌, ◌++◌, IfOk, get_or, length, slice_get, take, ◌==◌};
ghost use Rattle.std.specs.Option.{option_and_then, option_copied, option_map};
ghost use Rattle.std.specs.Rc.{rc_value};
ghost use Rattle.virtual_state.specs.Depths.{depth_of};
ghost use Rattle.virtual_state.specs.Sites.{IsSiteFrom};
ghost use Rattle.virtual_state.specs.States.{IsState, is_present, object_of, sites_of};

use crate::front::FrontSlots;
use crate::slot::{Slot, SlotList, VObject};
use crate::table::ObjectTable;
use class_model::{ListOf, NoMemory};
use std::alloc::Global;
use std::marker::Model;
use std::rc::Rc;

/// What each place of a frame holds, and the virtual objects that are present: those that the places reach. Places are
/// counted from 0. States share their first slots, the others, the table of their objects and each object with the states that
/// they were made of.
#[derive(Drop)]
pub struct VState {
    front: FrontSlots,
    back: Rc<SlotList>,
    objects: Rc<ObjectTable>,
}

impl Model for VState {
    ghost use Rattle.std.specs.Prelude.{◌++◌};
    ghost use Rattle.virtual_state.specs.States.{State, IsState};

    ghost Value = { State };

    ghost view = { λ state.
        record { slots = state.front ++ state.back.value; objects = state.objects.value } };

    ghost invariant = { λ state.
        IsState
        (record { slots = state.front ++ state.back.value; objects = state.objects.value }) };
}

impl VState {
    /// The state of these slots and objects.
    pub(crate) fn from_parts(
        front: FrontSlots,
        back: Rc<SlotList>,
        objects: Rc<ObjectTable>,
    ) -> Self
        requires { IsState (record { slots = front ++ back.value; objects = objects.value }) }
        ensures { result ≡ record { slots = front ++ back.value; objects = objects.value } }
    {
        VState {
            front,
            back,
            objects,
        }
    }

    /// What each state keeps.
    pub fn is_state(&self)
        ensures { IsState self.now }
    {
        let _ = &self.back;
    }

    /// The slot of a place.
    pub fn slot(&self, at: usize) -> Option<Slot>
        ensures { result ≡ slice_get self.now.slots at }
    {
        let first = self.front.len();
        if at < first {
            self.front.get(at)
        } else {
            self.back.get(at - first).copied()
        }
    }

    /// How many places there are.
    pub fn len(&self) -> usize
        ensures { result ≡ length self.now.slots }
    {
        self.front.len() + self.back.as_slice().len()
    }

    /// Whether there is no place.
    pub fn is_empty(&self) -> bool
        ensures { result ≡ (length self.now.slots == 0) }
    {
        self.len() == 0
    }

    /// The slots of all places, in a list of their own.
    ///
    /// # Errors
    /// `NoMemory`, where memory runs out.
    pub fn slots(&self, alloc: Global) -> Result<SlotList, NoMemory>
        ensures { IfOk result (λ slots. slots ≡ self.now.slots) }
    {
        let mut slots = Vec::with_capacity(alloc, self.len())?;
        for at in 0..self.len() {
            slots.push(self.place(at))?;
        }
        Ok(ListOf::from_vec(slots))
    }

    /// The slots of the first places, as they are kept: those that `moved` was given last.
    pub fn front(&self) -> &FrontSlots
        ensures { result.now ≡ take (length result.now) self.now.slots }
    {
        &self.front
    }

    /// The slots of the first places and of the others, as they are kept.
    pub(crate) fn slot_parts(&self) -> (&FrontSlots, &Rc<SlotList>)
        ensures { self.now.slots ≡ result.0.now ++ result.1.now.value }
    {
        (&self.front, &self.back)
    }

    /// The slot of a place that there is.
    pub(crate) fn place(&self, at: usize) -> Slot
        ensures { result ≡ get_or self.now.slots at Slot.Plain }
    {
        match self.slot(at) {
            Some(slot) => slot,
            None => Slot::Plain,
        }
    }

    /// Whether the object of a site is present.
    pub fn present(&self, site: u16) -> bool
        ensures { result ≡ is_present self.now.objects site }
    {
        self.objects.get(usize::from(site)).is_some()
    }

    /// The site of a number among those whose objects are present, by increasing site. Takes time proportional to the highest
    /// site, and does not allocate.
    pub fn site(&self, number: usize) -> Option<u16>
        ensures { result ≡ slice_get (sites_of self.now.objects) number }
    {
        self.objects.site(number)
    }

    /// The lowest site from a number on whose object is present. All sites of a state are found in time proportional to the
    /// highest one, each from the number behind the one before. Does not allocate.
    pub fn site_from(&self, first: usize) -> Option<u16>
        ensures { IsSiteFrom self.now.objects first result }
    {
        self.objects.site_from(first)
    }

    /// The slot of a field of a site's object, where it is present and has such a field. Fields are counted from 0.
    pub fn field(&self, site: u16, at: usize) -> Option<Slot>
        ensures { result
            ≡ option_and_then (λ object. slice_get object.fields at)
            (object_of self.now.objects site) }
    {
        let object = self.objects.get(usize::from(site))?;
        object.get().fields.get(at).copied()
    }

    /// How often the monitor of a site's object is entered, where it is present.
    pub fn depth(&self, site: u16) -> Option<u16>
        ensures { result ≡ depth_of self.now site }
    {
        let object = self.objects.get(usize::from(site))?;
        Some(object.get().depth)
    }

    /// The object of a site as the state keeps it, where it is present.
    pub fn object(&self, site: u16) -> Option<&Rc<VObject>>
        ensures { option_map rc_value (option_copied result) ≡ object_of self.now.objects site }
    {
        let object = self.objects.get(usize::from(site))?;
        Some(object.lend())
    }

    /// The object of a site, where it is present.
    pub(crate) fn virtual_object(&self, site: u16) -> Option<&VObject>
        ensures { option_copied result ≡ object_of self.now.objects site }
    {
        let object = self.objects.get(usize::from(site))?;
        Some(object.get())
    }

    /// The same state, which shares all.
    pub fn copy(&self) -> Result<Self, NoMemory>
        ensures { IfOk result (λ copy. copy ≡ self.now) }
    {
        let front = self.front.copy()?;
        let back = self.back.clone()?;
        let objects = self.objects.clone()?;
        Ok(VState {
            front,
            back,
            objects,
        })
    }

    /// The objects.
    pub(crate) fn objects(&self) -> &ObjectTable
        ensures { result.now ≡ self.now.objects }
    {
        self.objects.as_ref()
    }

    /// The objects as they are kept.
    pub(crate) fn shared_objects(&self) -> &Rc<ObjectTable>
        ensures { result.now.value ≡ self.now.objects }
    {
        &self.objects
    }
}
