//! Many lists in one piece of memory.
ghost use Rattle.std.specs.Prelude.{◌≡◌, ◌<◌, ◌≤◌, ◌+◌, [], ◌∷◌, ◌++◌, length, map, set, slice_get, slice_index_or, Some, IfOk, OnOk, IsTrue, IsFalse};
ghost use Rattle.class_tree.specs.Inner.Nodes.{place_at};
ghost use Rattle.class_tree.specs.Inner.Parts.{StandsFrom};

use crate::headers::Headers;
use crate::interfaces::places;
use crate::place::Place;
use class_model::NoMemory;
use std::alloc::Global;
use std::marker::Model;

/// A list of lists, the items of which stand in one vector. Contracts see the list of lists.
pub(crate) struct Lists<T> {
    items: Vec<T>,
    parts: Vec<Part>,
}

// Written out: a derived drop would be spelled out, field by field, in each function that drops one, and be proved there.
impl<T: Drop> Drop for Lists<T> {
    fn drop(self) {
        let Lists { items: _, parts: _ } = self;
    }
}

/// Where a list stands among the items: from which on, and how many it has.
#[derive(Clone, Copy)]
pub(crate) struct Part {
    start: usize,
    len: usize,
}

impl<T> Model for Lists<T> {
    ghost use Rattle.std.specs.Prelude.{List, map};
    ghost use Rattle.std.specs.List.{All};
    ghost use Rattle.class_tree.specs.Inner.Parts.{part_of, IsPartOf};

    ghost Value = { List (List T) };

    ghost view = { λ lists. map (part_of lists.items.items) lists.parts.items };

    ghost invariant = { λ lists. All (IsPartOf lists.items.items) lists.parts.items };
}

impl<T: Copy> Lists<T> {
    /// No list, and room for so many.
    pub(crate) fn new(alloc: Global, count: usize) -> Result<Self, NoMemory>
        ensures { IfOk result (λ lists. lists ≡ []) }
    {
        Ok(Lists {
            items: Vec::new(alloc),
            parts: Vec::with_capacity(alloc, count)?,
        })
    }

    /// How many lists there are.
    pub(crate) fn len(&self) -> usize
        ensures { result ≡ length self.now }
    {
        self.parts.len()
    }

    /// The list of a number, counted from 0.
    pub(crate) fn get(&self, number: usize) -> &[T]
        requires { number < length self.now }
        ensures { slice_get self.now number ≡ Some result.now }
    {
        let part = self.parts[number];
        &self.items[part.start..part.start + part.len]
    }

    /// Appends a list.
    pub(crate) fn push(&mut self, list: &[T]) -> Result<(), NoMemory>
        ensures { OnOk result (self.new ≡ self.old ++ list.now ∷ []) }
    {
        let part = Part {
            start: self.items.len(),
            len: list.len(),
        };
        self.items.extend_from_slice(list)?;
        self.parts.push(part)?;
        Ok(())
    }
}

impl Lists<usize> {
    /// No list, room for so many, and items that lists may be found among.
    pub(crate) fn among(alloc: Global, items: Vec<usize>, count: usize) -> Result<Self, NoMemory>
        ensures { IfOk result (λ lists. lists ≡ []) }
    {
        Ok(Lists {
            items,
            parts: Vec::with_capacity(alloc, count)?,
        })
    }

    /// Puts a list in the place of that of a number. Where it stands among the items from the guessed place on, these are its own.
    pub(crate) fn replace(
        &mut self,
        number: usize,
        list: &[usize],
        guess: usize,
    ) -> Result<(), NoMemory>
        requires { number < length self.old }
        ensures { OnOk result (self.new ≡ set self.old number list.now) }
    {
        if stands_from(self.items.as_slice(), list, guess) {
            self.parts[number] = Part {
                start: guess,
                len: list.len(),
            };
            return Ok(());
        }
        let part = Part {
            start: self.items.len(),
            len: list.len(),
        };
        self.items.extend_from_slice(list)?;
        self.parts[number] = part;
        Ok(())
    }

    /// Puts the list of another number in the place of that of a number.
    pub(crate) fn share(&mut self, number: usize, of: usize)
        requires number { number < length self.old }
        requires of { of < length self.old }
        ensures { self.new ≡ set self.old number (slice_index_or self.old of []) }
    {
        self.parts[number] = self.parts[of];
    }

    /// Puts an item with the list of another number behind it in the place of a number's list, where they stand so among the
    /// items from the guessed place on. Answers whether they do.
    pub(crate) fn share_behind(
        &mut self,
        number: usize,
        first: usize,
        of: usize,
        guess: usize,
    ) -> bool
        requires number { number < length self.old }
        requires of { of < length self.old }
        ensures done { IsTrue result
            → self.new ≡ set self.old number (first ∷ slice_index_or self.old of []) }
        ensures left { IsFalse result → self.new ≡ self.old }
    {
        let behind = self.parts[of];
        if guess >= self.items.len() || self.items[guess] != first || behind.start != guess + 1 {
            return false;
        }
        self.parts[number] = Part {
            start: guess,
            len: behind.len + 1,
        };
        true
    }

    /// The lists of the places of the classes of these numbers.
    pub(crate) fn into_places(
        self,
        alloc: Global,
        headers: &Headers<'_>,
    ) -> Result<Lists<Place>, NoMemory>
        ensures { IfOk result (λ lists. lists ≡ map (map (place_at headers.now)) self) }
    {
        let items = places(alloc, headers, self.items.as_slice())?.into_vec();
        let Lists { items: _, parts } = self;
        Ok(Lists { items, parts })
    }
}

// Whether a list stands among items from a place on.
fn stands_from(items: &[usize], list: &[usize], start: usize) -> bool
    ensures { IsTrue result → StandsFrom items.now list.now start }
{
    if start > items.len() {
        return false;
    }
    items[start..].starts_with(list)
}
