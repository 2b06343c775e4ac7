//! An instruction behind a frame.
ghost use Rattle.std.specs.Prelude.{◌≡◌, [], IfOk};
ghost use Rattle.member_link.specs.Rows.Operands.{lowest_of, topmost, under};
ghost use Rattle.member_link.specs.Rows.Row.{no_row, row_frame};
ghost use Rattle.row_frames.specs.Inner.Stacks.{given, leaves};

use class_model::{Frame, NoMemory, Pool, Text, VType, VTypeList};
use std::alloc::Global;

/// What the instruction reads: the constants that it names, the name of the current class, and the frame before it.
#[derive(Clone, Copy)]
pub(crate) struct Step<'a> {
    pub(crate) alloc: Global,
    pub(crate) pool: &'a Pool,
    pub(crate) own: &'a Text,
    pub(crate) before: &'a Frame,
}

impl Step<'_> {
    /// The frame behind an instruction that pops so many entries and pushes a value, or none.
    pub(crate) fn replaced(
        &self,
        count: usize,
        gives: Option<VType>,
    ) -> Result<Option<Frame>, NoMemory>
        ensures { IfOk result (λ frame. frame ≡ leaves self.now.before.now count (given gives)) }
    {
        let mut stack = self.under(count)?;
        if let Some(value) = gives {
            stack.push(value)?;
        }
        let locals = self.before.locals.copy(self.alloc)?;
        Ok(Some(Frame { locals, stack }))
    }

    /// The frame behind an instruction that pops so many entries.
    pub(crate) fn pops(&self, count: usize) -> Result<Option<Frame>, NoMemory>
        ensures { IfOk result (λ frame. frame ≡ leaves self.now.before.now count []) }
    {
        self.replaced(count, None)
    }

    /// The frame behind what is no instruction.
    pub(crate) fn no_row(&self) -> Result<Option<Frame>, NoMemory>
        ensures { IfOk result
            (λ frame. frame ≡ row_frame self.now.before.now (no_row self.now.before.now)) }
    {
        self.pops(1)
    }

    /// A copy of the entries under the topmost, so many.
    pub(crate) fn under(&self, count: usize) -> Result<VTypeList, NoMemory>
        ensures { IfOk result (λ stack. stack ≡ under count self.now.before.now.stack) }
    {
        copy_entries(
            self.alloc,
            entries_under(self.before.stack.as_slice(), count),
        )
    }
}

/// The entries under the topmost, so many.
pub(crate) fn entries_under(stack: &[VType], count: usize) -> &[VType]
    ensures { result.now ≡ under count stack.now }
{
    &stack[..stack.len().saturating_sub(count)]
}

// A list of equal entries.
fn copy_entries(alloc: Global, entries: &[VType]) -> Result<VTypeList, NoMemory>
    ensures { IfOk result (λ copy. copy ≡ entries.now) }
{
    let mut copy = VTypeList::new(alloc);
    for entry in entries {
        copy.push(entry.copy()?)?;
    }
    Ok(copy)
}

/// The topmost entries of a stack, so many, or all of them where there are fewer.
pub(crate) fn topmost(stack: &[VType], count: usize) -> &[VType]
    ensures { result.now ≡ topmost count stack.now }
{
    &stack[stack.len().saturating_sub(count)..]
}

/// The lowest of the topmost entries of a stack, so many, or `top` where there is none.
pub(crate) fn lowest_of<'a>(stack: &'a [VType], count: usize, top: &'a VType) -> &'a VType
    requires { top.now ≡ VType.Top }
    ensures { result.now ≡ lowest_of count stack.now }
{
    match topmost(stack, count).first() {
        Some(lowest) => lowest,
        None => top,
    }
}
