//! What a place of a frame or a field of a virtual object holds, and virtual objects.
ghost use Rattle.std.specs.Prelude.{◌≡◌};
ghost use Rattle.virtual_state.specs.Inner.Listed.{holds_object};
ghost use Rattle.virtual_state.specs.Inner.Slots.{slot_eq};
ghost use Rattle.virtual_state.specs.States.{is_unusable};

use class_model::ListOf;

/// What a place of a frame or a field holds.
#[derive(Clone, Copy, PartialEq, Eq, Debug)]
pub enum Slot {
    /// A value, or a reference to an object that was made.
    Plain,
    /// The virtual object of an allocation site, by the site's number.
    Virt(u16),
    /// A place that may not be read. No field is unusable.
    Unusable,
}

/// Slots, in order.
pub type SlotList = ListOf<Slot>;

/// An object that is not made: the number of its allocation site, its fields, and how often its monitor is entered.
#[derive(Drop)]
pub struct VObject {
    pub site: u16,
    pub fields: SlotList,
    pub depth: u16,
}

/// Virtual objects.
pub type VObjectList = ListOf<VObject>;

impl Slot {
    /// Whether it holds a virtual object.
    pub(crate) fn holds_object(self) -> bool
        ensures { result ≡ holds_object self }
    {
        match self {
            Slot::Virt(_) => true,
            Slot::Plain => false,
            Slot::Unusable => false,
        }
    }

    /// Whether it is unusable.
    pub(crate) fn is_unusable(self) -> bool
        ensures { result ≡ is_unusable self }
    {
        match self {
            Slot::Unusable => true,
            Slot::Plain => false,
            Slot::Virt(_) => false,
        }
    }

    /// Whether two slots are the same.
    pub(crate) fn is_same(self, other: Slot) -> bool
        ensures { result ≡ slot_eq self other }
    {
        match self {
            Slot::Plain => match other {
                Slot::Plain => true,
                Slot::Virt(_) => false,
                Slot::Unusable => false,
            },
            Slot::Virt(site) => match other {
                Slot::Plain => false,
                Slot::Virt(other) => site == other,
                Slot::Unusable => false,
            },
            Slot::Unusable => match other {
                Slot::Plain => false,
                Slot::Virt(_) => false,
                Slot::Unusable => true,
            },
        }
    }
}
