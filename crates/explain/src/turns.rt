//! Whose turn it is where a run ends, and which references the library knows then.
use class_model::{NoMemory, Text};
use machine_values::{Action, Event, EventKind, First, Seen, SeenRef};
use std::alloc::Global;

/// The number of the event that waits for an answer of the library, if one does, behind so many actions of a run.
pub(crate) fn pending(
    alloc: Global,
    actions: &[Action],
    used: usize,
    events: &[Event],
) -> Result<Option<usize>, NoMemory> {
    // for each call of the library none, and above it the event that waits in it
    let mut turns: Vec<Option<usize>> = Vec::new(alloc);
    let mut next: usize = 0;
    for action in actions.get(..used).unwrap_or(&[]) {
        match action {
            Action::Call { .. } | Action::Construct { .. } => {
                turns.push(None)?;
                settle(&mut turns, events, next)?;
                next = next.saturating_add(1);
            }
            Action::Return(_) | Action::Throw(_) => {
                turns.pop();
                settle(&mut turns, events, next)?;
                next = next.saturating_add(1);
            }
            Action::ArraySet { .. } | Action::Stop => {}
            Action::ArrayGet { .. }
            | Action::ArrayLength(_)
            | Action::NewArray { .. }
            | Action::NewExternal { .. } => next = next.saturating_add(1),
        }
    }
    match turns.last() {
        Some(turn) => Ok(*turn),
        None => Ok(None),
    }
}

// The turn behind the event of this number: it waits, or ends a call of the library.
fn settle(turns: &mut Vec<Option<usize>>, events: &[Event], number: usize) -> Result<(), NoMemory> {
    if let Some(event) = events.get(number) {
        if waits(&event.kind) {
            turns.push(Some(number))?;
        } else {
            turns.pop();
        }
    }
    Ok(())
}

fn waits(kind: &EventKind) -> bool {
    match kind {
        EventKind::Call { .. }
        | EventKind::Dynamic { .. }
        | EventKind::Get { .. }
        | EventKind::Put { .. }
        | EventKind::Float { .. } => true,
        EventKind::Result(_)
        | EventKind::Threw(_)
        | EventKind::Got(_)
        | EventKind::Length(_)
        | EventKind::Made(_) => false,
    }
}

/// The references that the library knows behind events, by number.
#[derive(Drop)]
pub(crate) struct Known<'a> {
    firsts: Vec<&'a First>,
}

impl<'a> Known<'a> {
    /// Those of events.
    pub(crate) fn of(alloc: Global, events: &'a [Event]) -> Result<Known<'a>, NoMemory> {
        let mut known = Known {
            firsts: Vec::new(alloc),
        };
        for event in events {
            known.add_event(&event.kind)?;
        }
        Ok(known)
    }

    /// How many there are.
    pub(crate) fn count(&self) -> usize {
        self.firsts.len()
    }

    /// What the reference of a number showed first.
    pub(crate) fn get(&self, number: u64) -> Option<&'a First> {
        if number >= self.firsts.len() as u64 {
            return None;
        }
        Some(*self.firsts.get(number as usize)?)
    }

    /// The class of the reference of a number.
    pub(crate) fn class(&self, number: u64) -> Option<&'a Text> {
        Some(&self.get(number)?.class)
    }

    fn add_event(&mut self, kind: &'a EventKind) -> Result<(), NoMemory> {
        match kind {
            EventKind::Call { values, .. }
            | EventKind::Dynamic { values, .. }
            | EventKind::Float { values, .. } => self.add_all(values.as_slice()),
            EventKind::Get { receiver, .. } => self.add_optional(receiver.as_ref()),
            EventKind::Put {
                receiver,
                value,
                ..
            } => {
                self.add_optional(receiver.as_ref())?;
                self.add(value)
            }
            EventKind::Result(seen) => self.add_optional(seen.as_ref()),
            EventKind::Got(seen) => self.add(seen),
            EventKind::Threw(seen) | EventKind::Made(seen) => self.add_ref(seen),
            EventKind::Length(_) => Ok(()),
        }
    }

    fn add_all(&mut self, values: &'a [Seen]) -> Result<(), NoMemory> {
        for seen in values {
            self.add(seen)?;
        }
        Ok(())
    }

    fn add_optional(&mut self, seen: Option<&'a Seen>) -> Result<(), NoMemory> {
        match seen {
            Some(seen) => self.add(seen),
            None => Ok(()),
        }
    }

    fn add(&mut self, seen: &'a Seen) -> Result<(), NoMemory> {
        match seen {
            Seen::Ref(seen) => self.add_ref(seen),
            _ => Ok(()),
        }
    }

    fn add_ref(&mut self, seen: &'a SeenRef) -> Result<(), NoMemory> {
        if let Some(first) = &seen.first {
            self.firsts.push(first)?;
        }
        Ok(())
    }
}
