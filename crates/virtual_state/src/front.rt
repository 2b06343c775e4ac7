//! The first slots of states.
ghost use Rattle.std.specs.Prelude.{◌≡◌, ◌+◌, ◌-◌, ◌≤◌, ◌++◌, length, map, replicate, slice_get, ◌==◌, IfOk};
ghost use Rattle.std.specs.List.{filter};
ghost use Rattle.virtual_state.specs.Gaps.{true_from};
ghost use Rattle.virtual_state.specs.Inner.Listed.{holds_object};
ghost use Rattle.virtual_state.specs.States.{is_unusable};

use crate::listed::ListedSlots;
use crate::slot::{Slot, SlotList};
use class_model::NoMemory;
use std::alloc::Global;
use std::marker::Model;
use std::rc::Rc;

/// The slots of the first places of a state, as of the local units of a frame: at most 65,536. States share them, and those
/// that are unusable to the end take no space. Contracts see the list.
#[derive(Drop)]
pub struct FrontSlots {
    listed: Rc<ListedSlots>,
    // how many unusable ones stand behind those
    unusable: usize,
}

impl Model for FrontSlots {
    ghost use Rattle.std.specs.Prelude.{◌+◌, ◌≤◌, ◌++◌, List, length, replicate};
    ghost use Rattle.virtual_state.specs.declared.slot.Slot.{Slot};

    ghost Value = { List Slot };

    ghost view = { λ front. front.listed.value ++ replicate front.unusable Slot.Unusable };

    ghost invariant = { λ front. length front.listed.value + front.unusable ≤ 65536 };
}

impl FrontSlots {
    /// These slots, and behind them so many that are unusable: at most 65,536 in all.
    pub fn of(alloc: Global, listed: SlotList, unusable: usize) -> Result<Self, NoMemory>
        requires { length listed + unusable ≤ 65536 }
        ensures { IfOk result (λ front. front ≡ listed ++ replicate unusable Slot.Unusable) }
    {
        let listed = ListedSlots::of(alloc, listed)?;
        let listed = Rc::new(alloc, listed)?;
        Ok(FrontSlots { listed, unusable })
    }

    /// How many there are.
    pub fn len(&self) -> usize
        ensures len { result ≡ length self.now }
        ensures few { result ≤ 65536 }
    {
        self.listed.as_slice().len() + self.unusable
    }

    /// Whether there is none.
    pub fn is_empty(&self) -> bool
        ensures { result ≡ (length self.now == 0) }
    {
        self.len() == 0
    }

    /// The slot at an index, counted from 0.
    pub fn get(&self, at: usize) -> Option<Slot>
        ensures { result ≡ slice_get self.now at }
    {
        let listed = self.listed.as_slice();
        if at < listed.len() {
            Some(listed[at])
        } else if at < self.len() {
            Some(Slot::Unusable)
        } else {
            None
        }
    }

    /// The slots before those that are unusable to the end.
    pub fn listed(&self) -> &[Slot]
        ensures { self.now
            ≡ result.now ++ replicate (length self.now - length result.now) Slot.Unusable }
    {
        self.listed.as_slice()
    }

    /// The same slots, and the indices of the unusable ones among them.
    pub fn listed_with_gaps(&self) -> (&[Slot], &[usize])
        ensures listed { self.now
            ≡ result.0.now
            ++ replicate (length self.now - length result.0.now) Slot.Unusable }
        ensures gaps { result.1.now ≡ true_from 0 (map is_unusable result.0.now) }
    {
        (self.listed.as_slice(), self.listed.gaps())
    }

    /// The slots that hold virtual objects.
    pub(crate) fn held(&self) -> &[Slot]
        ensures { result.now ≡ filter holds_object self.now }
    {
        self.listed.held()
    }

    /// The same slots, which are shared.
    pub fn copy(&self) -> Result<Self, NoMemory>
        ensures { IfOk result (λ copy. copy ≡ self.now) }
    {
        let listed = self.listed.clone()?;
        Ok(FrontSlots {
            listed,
            unusable: self.unusable,
        })
    }
}
