//! The points whose edges are to be followed.
ghost use Rattle.std.specs.Prelude.{◌≡◌, [], ◌∷◌, OnOk, IfSome, IfNone};
ghost use Rattle.plan_flow.specs.Inner.Reaching.{HasListed};

use class_model::NoMemory;
use std::alloc::Global;
use std::collections::BTreeSet;
use std::marker::Model;
use std::mem;

/// A work list of points, each once. It goes over them by increasing number, and then over those that came back meanwhile, so
/// that what several edges say of the start of a loop is carried into the loop at once.
#[derive(Drop)]
pub(crate) struct WorkList {
    // The points above the one that was taken last, and the others.
    ahead: BTreeSet<usize>,
    behind: BTreeSet<usize>,
    last: usize,
}

impl Model for WorkList {
    ghost use Rattle.std.specs.Prelude.{◌++◌, List, ℕ};

    ghost Value = { List ℕ };

    ghost view = { λ work. work.ahead.keys ++ work.behind.keys };
}

impl WorkList {
    /// No point.
    pub(crate) fn new(alloc: Global) -> Self
        ensures { result ≡ [] }
    {
        WorkList {
            ahead: BTreeSet::new(alloc),
            behind: BTreeSet::new(alloc),
            last: 0,
        }
    }

    /// Adds a point, if it isn't there.
    pub(crate) fn add(&mut self, at: usize) -> Result<(), NoMemory>
        ensures { OnOk result (HasListed self.old self.new at) }
    {
        if at > self.last {
            self.ahead.insert(at)?;
        } else {
            self.behind.insert(at)?;
        }
        Ok(())
    }

    /// Takes out the next point, if there is one.
    pub(crate) fn take(&mut self) -> Option<usize>
        ensures some { IfSome result (λ at. self.old ≡ at ∷ self.new) }
        ensures none { IfNone result (self.old ≡ []) }
        ensures same { IfNone result (self.new ≡ self.old) }
    {
        if self.ahead.is_empty() {
            mem::swap(&mut self.ahead, &mut self.behind);
        }
        let at = self.ahead.pop_first()?;
        self.last = at;
        Some(at)
    }
}
