//! Virtual objects by their sites.
ghost use Rattle.std.specs.Prelude.{◌≡◌, ◌<◌, ◌≤◌, ℕ, [], length, slice_get, IfOk, OnOk};
ghost use Rattle.std.specs.Option.{option_copied};
ghost use Rattle.virtual_state.specs.Inner.Tables.{entry_at, listed, HasSet, HasSetEntry, HaveSameEntries};
ghost use Rattle.virtual_state.specs.Sites.{IsSiteFrom};
ghost use Rattle.virtual_state.specs.States.{IsIncreasing, is_present, object_of, sites_of};

use crate::shared::SharedObject;
use class_model::NoMemory;
use std::alloc::Global;
use std::marker::Model;

/// Virtual objects, each found by its site in constant time. Contracts see the objects by increasing site.
#[derive(Drop)]
pub(crate) struct ObjectTable {
    // Each object at the index of its site.
    entries: Vec<Option<SharedObject>>,
}

impl Model for ObjectTable {
    ghost use Rattle.std.specs.Prelude.{List};
    ghost use Rattle.virtual_state.specs.Inner.Tables.{listed, ArePlacedFrom};
    ghost use Rattle.virtual_state.specs.declared.slot.VObject.{VObject};

    ghost Value = { List VObject };

    ghost view = { λ table. listed table.entries.items };

    ghost invariant = { λ table. ArePlacedFrom 0 table.entries.items };
}

impl ObjectTable {
    /// No objects.
    pub(crate) fn new(alloc: Global) -> Self
        ensures { result ≡ [] }
    {
        ObjectTable {
            entries: Vec::new(alloc),
        }
    }

    /// The objects are in order.
    pub(crate) fn is_in_order(&self)
        ensures { IsIncreasing (sites_of self.now) }
    {
        let _ = &self.entries;
    }

    /// A number that is above each site.
    pub(crate) fn end(&self) -> usize
        ensures { (site : ℕ) → result ≤ site → object_of self.now site ≡ None }
    {
        self.entries.len()
    }

    /// The object of a site.
    pub(crate) fn get(&self, site: usize) -> Option<&SharedObject>
        ensures { option_copied result ≡ object_of self.now site }
    {
        entry_of(self.entries.as_slice(), site)
    }

    /// Whether a site has an object.
    pub(crate) fn has(&self, site: u16) -> bool
        ensures { result ≡ is_present self.now site }
    {
        self.get(usize::from(site)).is_some()
    }

    /// The site of a number, by increasing site.
    pub(crate) fn site(&self, number: usize) -> Option<u16>
        ensures { result ≡ slice_get (sites_of self.now) number }
    {
        nth_site(self.entries.as_slice(), number)
    }

    /// The lowest site from a number on.
    pub(crate) fn site_from(&self, first: usize) -> Option<u16>
        ensures { IsSiteFrom self.now first result }
    {
        for at in first..self.end() {
            if let Some(object) = self.get(at) {
                return Some(object.get().site);
            }
        }
        None
    }

    /// Puts an object in the place of that of its site.
    pub(crate) fn put(&mut self, object: SharedObject) -> Result<(), NoMemory>
        ensures { OnOk result (HasSet self.old self.new object.site (Some object)) }
    {
        let site = usize::from(object.get().site);
        grow(&mut self.entries, site)?;
        set_entry(&mut self.entries, site, Some(object));
        Ok(())
    }

    /// Takes out the object of a site, if there is one.
    pub(crate) fn remove(&mut self, site: usize)
        ensures { HasSet self.old self.new site None }
    {
        if site < self.entries.len() {
            set_entry(&mut self.entries, site, None);
        }
    }

    /// The same objects, which are shared.
    pub(crate) fn copy(&self, alloc: Global) -> Result<Self, NoMemory>
        ensures { IfOk result (λ copy. copy ≡ self.now) }
    {
        let mut entries = Vec::with_capacity(alloc, self.entries.len())?;
        for entry in &self.entries {
            entries.push(share_entry(entry)?)?;
        }
        Ok(ObjectTable { entries })
    }
}

// The same object, if there is one.
fn share_entry(entry: &Option<SharedObject>) -> Result<Option<SharedObject>, NoMemory>
    ensures { IfOk result (λ shared. shared ≡ entry.now) }
{
    match entry {
        Some(object) => Ok(Some(object.share()?)),
        None => Ok(None),
    }
}

// The object at an index, if there is one.
fn entry_of(entries: &[Option<SharedObject>], at: usize) -> Option<&SharedObject>
    ensures { option_copied result ≡ entry_at entries.now at }
{
    entries.get(at)?.as_ref()
}

// The site of the object of a number among those at the indices.
fn nth_site(entries: &[Option<SharedObject>], number: usize) -> Option<u16>
    ensures { result ≡ slice_get (sites_of (listed entries.now)) number }
{
    let mut before = number;
    for entry in entries {
        if let Some(object) = entry {
            if before == 0 {
                return Some(object.get().site);
            }
            before -= 1;
        }
    }
    None
}

// Appends empty entries, until there is one at an index.
fn grow(entries: &mut Vec<Option<SharedObject>>, at: usize) -> Result<(), NoMemory>
    ensures same { HaveSameEntries entries.old.items entries.new.items }
    ensures there { OnOk result (at < length entries.new.items) }
{
    while entries.len() <= at {
        entries.push(None)?;
    }
    Ok(())
}

// Puts another entry at an index.
fn set_entry(entries: &mut Vec<Option<SharedObject>>, at: usize, entry: Option<SharedObject>)
    requires { at < length entries.old.items }
    ensures { HasSetEntry entries.old.items entries.new.items at entry }
{
    entries[at] = entry;
}
