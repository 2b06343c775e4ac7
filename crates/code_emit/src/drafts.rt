//! Blocks as they are written.
ghost use Rattle.std.specs.Prelude.{◌≡◌, ◌-◌, ◌++◌, ◌∷◌, [], length, OnOk, ℕ, List};
ghost use Rattle.class_tree.specs.Headers.{Name};
ghost use Rattle.code_emit.specs.Inner.DraftedBlocks.{AreKept};
ghost use Rattle.plan_flow.specs.PlanScope.{PlanScope};
ghost use Rattle.pool_edit.specs.Edits.{Edit};

use class_model::NoMemory;
use code_drafts::{BlockKind, DraftBlock, KeptItems};
use std::alloc::Global;
use virtual_state::VState;

/// The blocks that are written, one behind the other, and the items of all.
pub(crate) struct Drafts {
    pub(crate) kept: KeptItems,
    pub(crate) blocks: Vec<DraftBlock>,
}

// Written out: a derived drop would be spelled out, field by field, in each function that drops one, and be proved there.
impl Drop for Drafts {
    fn drop(self) {
        let Drafts { kept: _, blocks: _ } = self;
    }
}

impl Drafts {
    /// No block.
    pub(crate) fn new(alloc: Global) -> Self
        ensures { (s : PlanScope) (constructor : Name → List ℕ) (edit : Edit)
            → AreKept s constructor edit [] result }
    {
        Drafts {
            kept: KeptItems::new(alloc),
            blocks: Vec::new(alloc),
        }
    }

    /// The items and the blocks.
    pub(crate) fn into_parts(self) -> (KeptItems, Vec<DraftBlock>)
        ensures kept { result.0 ≡ self.kept }
        ensures blocks { result.1 ≡ self.blocks }
    {
        let Drafts { kept, blocks } = self;
        (kept, blocks)
    }

    /// Appends a block that begins with the item of this number and has all those from there on.
    ///
    /// # Errors
    /// `NoMemory`, where memory runs out.
    pub(crate) fn note(
        &mut self,
        of: BlockKind,
        at: usize,
        state: VState,
        first: usize,
        leaves: Option<usize>,
    ) -> Result<(), NoMemory>
        ensures kept { OnOk result (self.new.kept ≡ self.old.kept) }
        ensures blocks { OnOk result (self.new.blocks.items ≡ self.old.blocks.items ++ record {
          of = of;
          at = at;
          state = state;
          count = length self.old.kept.items - first;
          leaves = leaves;
        } ∷ []) }
    {
        let count = self.kept.len().saturating_sub(first);
        self.blocks.push(DraftBlock {
            of,
            at,
            state,
            count,
            leaves,
        })?;
        Ok(())
    }
}
