//! An instruction behind a frame, as its rule sees it.
ghost use Rattle.std.specs.Prelude.{◌≡◌, ◌↔◌, ◌≤◌, [], ◌∷◌, ◌++◌, length, map, IsTrue, IfOk};
ghost use Rattle.class_model.specs.Frames.{depth};
ghost use Rattle.member_link.specs.Rows.Operands.{under};
ghost use Rattle.member_link.specs.Rows.Row.{plain, conditional, no_row};
ghost use Rattle.type_rules.specs.Inner.Meanings.{need_meant};
ghost use Rattle.type_rules.specs.Rule.{RowRules};
ghost use Rattle.member_link.specs.Scope.{row_scope};
ghost use Rattle.type_rules.specs.Inner.Steps.{Concludes, Ends, Holds, TakesNeeds, given, thrown};

use crate::fault::{RuleFault, TypeRule};
use crate::method_rules::MethodRules;
use crate::need::{Need, all_fit};
use crate::ruled::Ruled;
use class_model::{Frame, LocalTypeList, NoMemory, VType, VTypeList};
use std::alloc::Global;

/// The rules of a method, and the frame before one of its instructions.
#[derive(Clone, Copy)]
pub(crate) struct Step<'a> {
    pub(crate) alloc: Global,
    pub(crate) rules: &'a MethodRules<'a>,
    pub(crate) before: &'a Frame,
}

impl Step<'_> {
    /// Asks that the topmost entries of the stack fit.
    ///
    /// # Errors
    /// `Stack`.
    pub(crate) fn takes(&self, needs: &[Need<'_>]) -> Result<(), RuleFault>
        ensures { TakesNeeds (row_scope self.now.rules.now) self.now.before.now
            (map need_meant needs.now) result }
    {
        let rules = self.rules;
        if all_fit(rules, needs, self.before.stack.as_slice()) {
            Ok(())
        } else {
            Err(RuleFault::Fails(TypeRule::Stack))
        }
    }

    /// A copy of the entries under the topmost, so many.
    pub(crate) fn under(&self, count: usize) -> Result<VTypeList, NoMemory>
        ensures { IfOk result (λ stack. stack ≡ under count self.now.before.now.stack) }
    {
        copy_entries(
            self.alloc,
            entries_under(self.before.stack.as_slice(), count),
        )
    }

    /// The frames behind an instruction that leaves this stack and these locals, and has this further condition and this one
    /// of access.
    ///
    /// # Errors
    /// `Depth`, and then `Kind`.
    pub(crate) fn conclude(
        &self,
        stack: VTypeList,
        locals: LocalTypeList,
        further: bool,
        access: bool,
    ) -> Result<Ruled, RuleFault>
        ensures { Concludes (row_scope self.now.rules.now) self.now.before.now stack locals
            (IsTrue further) (IsTrue access) result }
    {
        self.holds(stack.as_slice(), further, access)?;
        Ok(Ruled {
            next: Some(Frame { locals, stack }),
            thrown: self.thrown()?,
        })
    }

    /// The frames behind an instruction after which control does not go on, and which has this further condition. It
    /// leaves the stack no deeper.
    ///
    /// # Errors
    /// `Depth`, and then `Kind`.
    pub(crate) fn end(&self, count: usize, further: bool) -> Result<Ruled, RuleFault>
        ensures { Ends (row_scope self.now.rules.now) self.now.before.now
            (under count self.now.before.now.stack) (IsTrue further) result }
    {
        self.holds(
            entries_under(self.before.stack.as_slice(), count),
            further,
            true,
        )?;
        Ok(Ruled {
            next: None,
            thrown: self.thrown()?,
        })
    }

    /// The rule of an instruction that takes and pushes nothing.
    pub(crate) fn unchanged(&self) -> Result<Ruled, RuleFault>
        ensures { RowRules (row_scope self.now.rules.now) self.now.before.now
            (plain self.now.before.now [] []) result }
    {
        self.plain(&[], None)
    }

    /// The rule of an instruction that takes operands and pushes a value, or none.
    pub(crate) fn plain(&self, needs: &[Need<'_>], gives: Option<VType>) -> Result<Ruled, RuleFault>
        ensures { RowRules (row_scope self.now.rules.now) self.now.before.now
            (plain self.now.before.now (map need_meant needs.now) (given gives)) result }
    {
        self.conditional(needs, gives, true, true)
    }

    /// The same, with a further condition and one of access.
    pub(crate) fn conditional(
        &self,
        needs: &[Need<'_>],
        gives: Option<VType>,
        further: bool,
        access: bool,
    ) -> Result<Ruled, RuleFault>
        ensures { RowRules (row_scope self.now.rules.now) self.now.before.now
            (conditional self.now.before.now (map need_meant needs.now) (given gives)
            (IsTrue further) (IsTrue access)) result }
    {
        self.takes(needs)?;
        let stack = self.replaced(needs.len(), gives)?;
        let locals = self.before.locals.copy(self.alloc)?;
        self.conclude(stack, locals, further, access)
    }

    /// The rule of what is no instruction.
    pub(crate) fn no_row(&self) -> Result<Ruled, RuleFault>
        ensures { RowRules (row_scope self.now.rules.now) self.now.before.now
            (no_row self.now.before.now) result }
    {
        Err(RuleFault::Fails(TypeRule::Stack))
    }

    /// A copy of the stack in which a value, or none, stands for the topmost entries, so many.
    pub(crate) fn replaced(&self, count: usize, gives: Option<VType>) -> Result<VTypeList, NoMemory>
        ensures { IfOk result
            (λ stack. stack ≡ under count self.now.before.now.stack ++ given gives) }
    {
        let mut stack = self.under(count)?;
        if let Some(value) = gives {
            stack.push(value)?;
        }
        Ok(stack)
    }

    // Asks that a stack is no deeper than the method's may be, and that the further condition and that of access hold.
    fn holds(&self, stack: &[VType], further: bool, access: bool) -> Result<(), RuleFault>
        ensures { Holds self.now.rules.now.part.max_stack stack.now further access result }
    {
        let rules = self.rules;
        if !is_within(stack, rules.part.max_stack) {
            return Err(RuleFault::Fails(TypeRule::Depth));
        }
        if !(further && access) {
            return Err(RuleFault::Fails(TypeRule::Kind));
        }
        Ok(())
    }

    // The frame that handlers see.
    fn thrown(&self) -> Result<Frame, NoMemory>
        ensures { IfOk result (λ frame. frame ≡ thrown self.now.before.now) }
    {
        Ok(Frame {
            locals: self.before.locals.copy(self.alloc)?,
            stack: VTypeList::new(self.alloc),
        })
    }
}

// The entries under the topmost, so many.
fn entries_under(stack: &[VType], count: usize) -> &[VType]
    ensures { result.now ≡ under count stack.now }
{
    &stack[..stack.len().saturating_sub(count)]
}

// A list of equal entries.
fn copy_entries(alloc: Global, entries: &[VType]) -> Result<VTypeList, NoMemory>
    ensures { IfOk result (λ copy. copy ≡ entries.now) }
{
    let mut copy = VTypeList::new(alloc);
    for entry in entries {
        copy.push(entry.copy()?)?;
    }
    Ok(copy)
}

/// Whether entries take so many units at most.
pub(crate) fn is_within(entries: &[VType], most: u16) -> bool
    ensures { IsTrue result ↔ (depth entries.now ≤ most) }
{
    let mut left = most;
    for entry in entries {
        let units = units_of(entry);
        if left < units {
            return false;
        }
        left -= units;
    }
    true
}

// How many units an entry takes.
fn units_of(entry: &VType) -> u16
    ensures { result ≡ depth (entry.now ∷ []) }
{
    match entry {
        VType::Long | VType::Double => 2,
        _ => 1,
    }
}
