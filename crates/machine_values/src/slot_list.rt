//! Lists of values that are written in place.
ghost use Rattle.std.specs.Prelude.{◌≡◌, ◌<◌, [], ◌∷◌, ◌++◌, ◌==◌, length, slice_get, slice_set, OnOk, OnErr};
ghost use Rattle.std.specs.Option.{option_copied};

use crate::value::Value;
use class_model::NoMemory;
use std::alloc::Global;
use std::marker::Model;

/// A list whose items are written in place. Contracts see the list.
#[derive(Drop)]
pub struct SlotList<T> {
    pub items: Vec<T>,
}

/// The values of fields, of the elements of an array or of an operand stack.
pub type ValueList = SlotList<Value>;

/// The locals of a frame by unit: `None` in a unit without a value and in the second unit of a long or double.
pub type LocalList = SlotList<Option<Value>>;

impl<T> Model for SlotList<T> {
    ghost use Rattle.std.specs.Prelude.{List};

    ghost Value = { List T };

    ghost view = { λ list. list.items.items };
}

impl<T> SlotList<T> {
    /// No item.
    pub fn new(alloc: Global) -> Self
        ensures { result ≡ [] }
    {
        SlotList {
            items: Vec::new(alloc),
        }
    }

    /// How many items there are.
    pub fn len(&self) -> usize
        ensures { result ≡ length self.now }
    {
        self.items.len()
    }

    /// Whether there is no item.
    pub fn is_empty(&self) -> bool
        ensures { result ≡ (length self.now == 0) }
    {
        self.items.is_empty()
    }

    /// The item at an index, counted from 0.
    pub fn get(&self, at: usize) -> Option<&T>
        ensures { option_copied result ≡ slice_get self.now at }
    {
        self.items.get(at)
    }

    /// The items, in order.
    pub fn as_slice(&self) -> &[T]
        ensures { result.now ≡ self.now }
    {
        self.items.as_slice()
    }

    /// Puts an item in the place of the one at an index. It does not allocate.
    pub fn set(&mut self, at: usize, item: T)
    where
        T: Drop,
        requires { at < length self.old }
        ensures { self.new ≡ slice_set self.old at item }
    {
        self.items[at] = item;
    }

    /// Appends an item.
    ///
    /// # Errors
    ///
    /// `NoMemory` where memory runs out; the list stays as it was.
    pub fn push(&mut self, item: T) -> Result<(), NoMemory>
    where
        T: Drop,
        ensures ok { OnOk result (self.new ≡ self.old ++ item ∷ []) }
        ensures err { OnErr result (self.new ≡ self.old) }
    {
        self.items.push(item)?;
        Ok(())
    }

    /// The list of a vector's items. It does not allocate.
    pub fn from_vec(items: Vec<T>) -> Self
        ensures { result ≡ items.items }
    {
        SlotList { items }
    }

    /// The vector of the items. It does not allocate.
    pub fn into_vec(self) -> Vec<T>
        ensures { result.items ≡ self }
    {
        self.items
    }
}
