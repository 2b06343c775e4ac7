//! Calls of instance initialisers (JVM Specification SE 8, 4.10.1.9.invokespecial).
ghost use Rattle.std.specs.Prelude.{◌≡◌, ◌++◌, ◌<◌, length, get_or, map, Some, IfOk};
ghost use Rattle.std.specs.Option.{option_copied};
ghost use Rattle.member_link.specs.Rows.Operands.{lowest_of, under};
ghost use Rattle.row_frames.specs.Inner.Becoming.{becomes, class_after};
ghost use Rattle.row_frames.specs.Inner.Stacks.{given};

use crate::step::{Step, entries_under, lowest_of};
use class_model::{Frame, LocalTypeList, NoMemory, Text, VType, VTypeList};
use std::alloc::Global;

/// Initialises the object under the arguments, with so many operands: all copies of it become one of a class.
pub(crate) fn initialised(
    step: &Step<'_>,
    class: &Text,
    count: usize,
    gives: Option<VType>,
) -> Result<Option<Frame>, NoMemory>
    ensures { IfOk result (λ frame. frame ≡ Some (record {
      locals = map
          (becomes step.now.own.now class.now (lowest_of count step.now.before.now.stack))
          step.now.before.now.locals;
      stack = map
          (becomes step.now.own.now class.now (lowest_of count step.now.before.now.stack))
          (under count step.now.before.now.stack)
          ++ given gives;
    })) }
{
    let entries = step.before.stack.as_slice();
    let top = VType::Top;
    let copies = Copies {
        own: step.own,
        class,
        receiver: lowest_of(entries, count, &top),
    };
    let mut stack = copies.entries(step.alloc, entries_under(entries, count))?;
    if let Some(value) = gives {
        stack.push(value)?;
    }
    let locals = copies.locals(step.alloc, &step.before.locals)?;
    Ok(Some(Frame { locals, stack }))
}

// The copies of a receiver that is initialised, by the current class and the one that the call names.
#[derive(Clone, Copy)]
struct Copies<'a> {
    own: &'a Text,
    class: &'a Text,
    receiver: &'a VType,
}

impl Copies<'_> {
    // The entries, in which copies of the receiver are initialised.
    fn entries(&self, alloc: Global, before: &[VType]) -> Result<VTypeList, NoMemory>
        ensures { IfOk result (λ stack. stack
            ≡ map (becomes self.now.own.now self.now.class.now self.now.receiver.now) before.now) }
    {
        let mut stack = VTypeList::new(alloc);
        for entry in before {
            stack.push(self.entry(entry)?)?;
        }
        Ok(stack)
    }

    // An entry, which is initialised if it is a copy of the receiver.
    fn entry(&self, entry: &VType) -> Result<VType, NoMemory>
        ensures { IfOk result (λ after. after
            ≡ becomes self.now.own.now self.now.class.now self.now.receiver.now entry.now) }
    {
        match self.class_after(entry) {
            Some(name) => Ok(VType::Object(name.copy()?)),
            None => entry.copy(),
        }
    }

    // The locals, in which copies of the receiver are initialised.
    fn locals(&self, alloc: Global, before: &LocalTypeList) -> Result<LocalTypeList, NoMemory>
        ensures { IfOk result (λ locals. locals
            ≡ map (becomes self.now.own.now self.now.class.now self.now.receiver.now) before.now) }
    {
        let mut after = before.copy(alloc)?;
        for index in 0..before.listed() {
            if let Some(name) = self.class_of_local(before, index) {
                after.set(index, VType::Object(name.copy()?))?;
            }
        }
        Ok(after)
    }

    // The class of which a local becomes an object, if it is a copy of the receiver.
    fn class_of_local(&self, locals: &LocalTypeList, index: usize) -> Option<&Text>
        requires { index < length locals.now }
        ensures { option_copied result
            ≡ class_after self.now.own.now self.now.class.now self.now.receiver.now
            (get_or locals.now index VType.Top) }
    {
        let Some(local) = locals.get(index) else {
            unreachable!()
        };
        self.class_after(local)
    }

    // The class of which an entry becomes an object, if it is a copy of the receiver.
    fn class_after(&self, entry: &VType) -> Option<&Text>
        ensures { option_copied result
            ≡ class_after self.now.own.now self.now.class.now self.now.receiver.now entry.now }
    {
        match (self.receiver, entry) {
            (VType::Uninit(at), VType::Uninit(other)) if at == other => Some(self.class),
            (VType::UninitThis, VType::UninitThis) => Some(self.own),
            _ => None,
        }
    }
}
