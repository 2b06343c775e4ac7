//! Where blocks begin.
ghost use Rattle.std.specs.Prelude.{◌≡◌, None, OnOk};
ghost use Rattle.code_drafts.specs.Inner.Parts.{first_start, leads_to, start_at};
ghost use Rattle.code_drafts.specs.declared.draft.Target.{Target as Leading};

use crate::draft::{BlockKind, Target};
use class_model::NoMemory;
use std::alloc::Global;
use std::collections::HashMap;

/// The number of the first item of each block, by what leads to it.
pub(crate) struct Starts {
    numbers: HashMap<Target, u16>,
}

// Written out: a derived drop would be spelled out, field by field, in each function that drops one, and be proved there.
impl Drop for Starts {
    fn drop(self) {
        let Starts { numbers: _ } = self;
    }
}

impl Starts {
    /// Of no block.
    pub(crate) fn new(alloc: Global) -> Self
        ensures { (to : Leading) → start_at result to ≡ None }
    {
        Starts {
            numbers: HashMap::new(alloc),
        }
    }

    /// The number of the first item of the block that a target leads to, if one is known.
    pub(crate) fn of(&self, to: Target) -> Option<u16>
        ensures { result ≡ start_at self.now to }
    {
        self.numbers.get(&to).copied()
    }

    /// A block begins with the item of this number. It is the one that is led to, if none before it is.
    pub(crate) fn note(&mut self, of: BlockKind, number: u16) -> Result<(), NoMemory>
        ensures { OnOk result ((to : Leading)
            → start_at self.new to ≡ first_start (start_at self.old to) (leads_to to of) number) }
    {
        let to = match of {
            BlockKind::BeforePoint(at) | BlockKind::OfPoint(at) => Target::Point(at),
            BlockKind::OnNextEdge(_) => return Ok(()),
            BlockKind::JumpPad { at, number } => Target::JumpPad { at, number },
            BlockKind::HandlerPad { at, number } => Target::HandlerPad { at, number },
        };
        if self.of(to).is_none() {
            self.numbers.insert(to, number)?;
        }
        Ok(())
    }
}
