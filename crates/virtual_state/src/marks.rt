//! Sites that are marked one by one.
ghost use Rattle.std.specs.Prelude.{◌≡◌, ◌<◌, ◌≤◌, ◌==◌, [], length, slice_index, OnOk};
ghost use Rattle.virtual_state.specs.Inner.Marks.{HasMarked, HaveSameMarks};
ghost use Rattle.virtual_state.specs.Sites.{has};
ghost use Rattle.virtual_state.specs.States.{is_virtual, names};

use crate::slot::Slot;
use class_model::NoMemory;
use std::alloc::Global;
use std::marker::Model;

/// Sites in the order in which they were marked, each once. Whether one is marked is told in constant time.
#[derive(Drop)]
pub(crate) struct MarkedSites {
    sites: Vec<u16>,
    // For each site below some number, whether it is marked.
    marks: Vec<bool>,
}

impl Model for MarkedSites {
    ghost use Rattle.std.specs.Prelude.{List, ℕ};
    ghost use Rattle.virtual_state.specs.Inner.Marks.{AreMarksOf};

    ghost Value = { List ℕ };

    ghost view = { λ marked. marked.sites.items };

    ghost invariant = { λ marked. AreMarksOf marked.sites.items marked.marks.items };
}

impl MarkedSites {
    /// No site.
    pub(crate) fn new(alloc: Global) -> Self
        ensures { result ≡ [] }
    {
        MarkedSites {
            sites: Vec::new(alloc),
            marks: Vec::new(alloc),
        }
    }

    /// How many sites are marked.
    pub(crate) fn len(&self) -> usize
        ensures len { result ≡ length self.now }
        ensures few { result ≤ 65536 }
    {
        self.sites.len()
    }

    /// Whether no site is marked.
    pub(crate) fn is_empty(&self) -> bool
        ensures { result ≡ (length self.now == 0) }
    {
        self.sites.is_empty()
    }

    /// The site that was marked as the one of this number, counted from 0.
    pub(crate) fn get(&self, at: usize) -> u16
        requires { at < length self.now }
        ensures { result ≡ slice_index self.now at }
    {
        self.sites[at]
    }

    /// Whether a site is marked.
    pub(crate) fn has(&self, site: u16) -> bool
        ensures { result ≡ has self.now site }
    {
        self.marks.get(usize::from(site)).copied().unwrap_or(false)
    }

    /// Marks a site, if it isn't marked.
    pub(crate) fn mark(&mut self, site: u16) -> Result<(), NoMemory>
        ensures { OnOk result (HasMarked self.old self.new (λ one. site == one)) }
    {
        if self.has(site) {
            return Ok(());
        }
        grow(&mut self.marks, site)?;
        self.sites.push(site)?;
        self.marks[usize::from(site)] = true;
        Ok(())
    }

    /// Marks sites.
    pub(crate) fn mark_all(&mut self, sites: &[u16]) -> Result<(), NoMemory>
        ensures { OnOk result (HasMarked self.old self.new (has sites.now)) }
    {
        for site in sites {
            self.mark(*site)?;
        }
        Ok(())
    }

    /// Marks the site whose object a slot holds.
    pub(crate) fn mark_slot(&mut self, slot: Slot) -> Result<(), NoMemory>
        ensures { OnOk result (HasMarked self.old self.new (λ one. is_virtual one slot)) }
    {
        match slot {
            Slot::Virt(site) => self.mark(site),
            Slot::Plain | Slot::Unusable => Ok(()),
        }
    }

    /// Marks the sites whose objects slots hold.
    pub(crate) fn mark_slots(&mut self, slots: &[Slot]) -> Result<(), NoMemory>
        ensures { OnOk result (HasMarked self.old self.new (names slots.now)) }
    {
        for slot in slots {
            self.mark_slot(*slot)?;
        }
        Ok(())
    }
}

// Appends marks that are not set, until there is one of a site.
fn grow(marks: &mut Vec<bool>, site: u16) -> Result<(), NoMemory>
    ensures same { HaveSameMarks marks.old.items marks.new.items }
    ensures there { OnOk result (site < length marks.new.items) }
{
    while marks.len() <= usize::from(site) {
        marks.push(false)?;
    }
    Ok(())
}
