//! The stack of a depth-first walk over methods.
ghost use Rattle.std.specs.Prelude.{◌≡◌, [], ◌∷◌, OnOk, IfOk, IfSome, IfNone};
ghost use Rattle.inline_expand.specs.Inner.Stacks.{stacked};

use class_model::{MethodAt, NoMemory};
use std::alloc::Global;
use std::marker::Model;

/// What is left to do of a method.
#[derive(Clone, Copy, Drop)]
pub(crate) enum Visit {
    /// It is to be looked at.
    Enter(MethodAt),
    /// It is ready, once all above it on the stack is.
    Leave(MethodAt),
}

/// What is left to do. Contracts see the topmost visit first.
#[derive(Drop)]
pub(crate) struct Stack {
    visits: Vec<Visit>,
}

impl Model for Stack {
    ghost use Rattle.std.specs.Prelude.{List, reverse};
    ghost use Rattle.inline_expand.specs.declared.visits.Visit.{Visit};

    ghost Value = { List Visit };

    ghost view = { λ stack. reverse stack.visits.items };
}

impl Stack {
    /// One method is to be looked at.
    pub(crate) fn of(alloc: Global, root: MethodAt) -> Result<Self, NoMemory>
        ensures { IfOk result (λ stack. stack ≡ Visit.Enter root ∷ []) }
    {
        let mut stack = Stack {
            visits: Vec::new(alloc),
        };
        stack.push(Visit::Enter(root))?;
        Ok(stack)
    }

    /// Takes off the topmost visit.
    pub(crate) fn pop(&mut self) -> Option<Visit>
        ensures some { IfSome result (λ visit. self.old ≡ visit ∷ self.new) }
        ensures none { IfNone result (self.old ≡ []) }
    {
        self.visits.pop()
    }

    // Puts a visit on top.
    fn push(&mut self, visit: Visit) -> Result<(), NoMemory>
        ensures { OnOk result (self.new ≡ visit ∷ self.old) }
    {
        self.visits.push(visit)?;
        Ok(())
    }

    /// Puts a method on top that is to be left, and on it those that it needs.
    pub(crate) fn enter(&mut self, at: MethodAt, needs: &[MethodAt]) -> Result<(), NoMemory>
        ensures { OnOk result (self.new ≡ stacked needs.now (Visit.Leave at ∷ self.old)) }
    {
        self.push(Visit::Leave(at))?;
        for need in needs {
            self.push(Visit::Enter(*need))?;
        }
        Ok(())
    }
}
