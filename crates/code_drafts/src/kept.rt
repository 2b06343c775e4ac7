//! The items of written code as they are written.
ghost use Rattle.std.specs.Prelude.{◌≡◌, ◌++◌, ◌∷◌, [], ℕ, List, OnOk, length, option_map};
ghost use Rattle.class_model.specs.Pool.{Constants};
ghost use Rattle.class_tree.specs.Headers.{Name};
ghost use Rattle.code_drafts.specs.Counts.{AreFew, AreItems};
ghost use Rattle.code_drafts.specs.Drafts.{Keeps, meaning, meant};
ghost use Rattle.making_code.specs.Items.{WItem};
ghost use Rattle.plan_flow.specs.PlanScope.{PlanScope};

use crate::draft::DraftItem;
use class_model::NoMemory;
use std::alloc::Global;
use std::marker::Model;

/// The most items that a code can have, and the most entries of its exception table (JVM Specification SE 8, 4.7.3): an item has one byte
/// at least.
pub(crate) const MOST: usize = 65_535;

/// Items that are written one behind the other. Once there are more than a code can have, or their handlers are more, they are let go, and
/// so is each that comes after them.
pub struct KeptItems {
    items: Vec<DraftItem>,
    // the handlers of the items
    entries: usize,
    is_long: bool,
}

// Written out: a derived drop would be spelled out, field by field, in each function that drops one, and be proved there.
impl Drop for KeptItems {
    fn drop(self) {
        let KeptItems {
            items: _,
            entries: _,
            is_long: _,
        } = self;
    }
}

impl Model for KeptItems {
    ghost use Rattle.code_drafts.specs.Emits.{Kept};
    ghost use Rattle.code_drafts.specs.Counts.{AreCounted};

    ghost Value = { Kept };

    ghost view = { λ kept. record { is_long = kept.is_long; items = kept.items.items } };

    ghost invariant = { λ kept. AreCounted kept.is_long kept.items.items kept.entries };
}

impl KeptItems {
    /// No item.
    pub fn new(alloc: Global) -> Self
        ensures { (s : PlanScope) (constructor : Name → List ℕ) (pool : Constants)
            → Keeps s constructor pool [] result.is_long result.items }
    {
        KeptItems {
            items: Vec::new(alloc),
            entries: 0,
            is_long: false,
        }
    }

    /// How many items are kept.
    pub fn len(&self) -> usize
        ensures len { result ≡ length self.now.items }
        ensures few { AreFew self.now.is_long self.now.items }
    {
        self.items.len()
    }

    /// The items, if there are not too many.
    pub fn into_items(self) -> Option<Vec<DraftItem>>
        ensures { AreItems self.is_long self.items (option_map (λ items. items.items) result) }
    {
        let KeptItems {
            items,
            entries: _,
            is_long,
        } = self;
        if is_long {
            return None;
        }
        Some(items)
    }

    /// Appends an item.
    ///
    /// # Errors
    /// `NoMemory`, where memory runs out.
    pub fn push(&mut self, item: DraftItem) -> Result<(), NoMemory>
        ensures { OnOk result ((s : PlanScope) (constructor : Name → List ℕ) (pool : Constants)
            (items : List WItem) (one : WItem)
            → Keeps s constructor pool items self.old.is_long self.old.items
            → meaning item ≡ meant s constructor pool one
            → Keeps s constructor pool (items ++ one ∷ []) self.new.is_long self.new.items) }
    {
        if self.is_long {
            return Ok(());
        }
        let entries = self.entries.saturating_add(item.catches.len());
        if self.items.len() >= MOST || entries > MOST {
            self.is_long = true;
            self.items.clear();
            return Ok(());
        }
        self.items.push(item)?;
        self.entries = entries;
        Ok(())
    }
}
