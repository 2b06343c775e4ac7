//! Texts of scripts and events that no command prints.
use crate::texts::shown;
use class_model::Text;
use host_tree::MemoryHost;
use machine_values::{
    ActionList, CountList, End, Event, EventKind, EventList, HeldCount, Seen, SeenList, SeenRef,
    Shown,
};
use script_text::{ScriptFault, print_events, print_script, read_script};
use std::alloc::Global;

/// What the actions of a script under the root without a name are printed as, or its first line outside the grammar. None where it
/// is not there, or memory runs out.
pub(crate) fn actions(alloc: Global, host: &MemoryHost, name: &str) -> Option<String> {
    let read = read_script(alloc, host.file("", name)?);
    let text = match &read {
        Ok(actions) => printed_actions(alloc, actions),
        Err(ScriptFault::BadScript { line }) => format!(in alloc; "line {line}").ok(),
        Err(ScriptFault::NoMemory) => None,
    };
    drop(read);
    text
}

fn printed_actions(alloc: Global, actions: &ActionList) -> Option<String> {
    let bytes = print_script(alloc, actions).ok()?;
    shown(alloc, bytes.as_slice())
}

/// What is printed of events with values that no run gives, and of the end that no verified folder gives. None where memory runs
/// out.
pub(crate) fn events(alloc: Global) -> Option<String> {
    let mut shown = Shown {
        events: EventList::new(alloc),
        end: End::Stuck,
    };
    let text = match push_events(alloc, &mut shown.events) {
        Some(()) => printed_events(alloc, &shown),
        None => None,
    };
    drop(shown);
    text
}

fn printed_events(alloc: Global, events: &Shown) -> Option<String> {
    let bytes = print_events(alloc, events).ok()?;
    shown(alloc, bytes.as_slice())
}

fn push_events(alloc: Global, events: &mut EventList) -> Option<()> {
    push_event(alloc, events, dynamic(alloc)?)?;
    push_event(alloc, events, put(alloc)?)?;
    push_event(alloc, events, float(alloc)?)?;
    push_event(alloc, events, EventKind::Made(known()))?;
    let event = Event {
        kind: EventKind::Length(u32::MAX),
        allocations: u128::MAX,
        entries: u64::MAX,
        monitors: held(alloc)?,
    };
    events.push(event).ok()
}

// Appends an event without held monitors.
fn push_event(alloc: Global, events: &mut EventList, kind: EventKind) -> Option<()> {
    let event = Event {
        kind,
        allocations: 3,
        entries: 4,
        monitors: CountList::of_held(0, Vec::new(alloc)),
    };
    events.push(event).ok()
}

fn dynamic(alloc: Global) -> Option<EventKind> {
    Some(EventKind::Dynamic {
        class: text(alloc, "A")?,
        bootstrap: u16::MAX,
        name: text(alloc, "m")?,
        desc: text(alloc, "()V")?,
        values: null(alloc)?,
    })
}

fn put(alloc: Global) -> Option<EventKind> {
    Some(EventKind::Put {
        class: text(alloc, "A")?,
        name: text(alloc, "m")?,
        desc: text(alloc, "()V")?,
        receiver: Some(Seen::Null),
        value: Seen::Long(-2),
    })
}

fn float(alloc: Global) -> Option<EventKind> {
    Some(EventKind::Float {
        opcode: 98,
        values: null(alloc)?,
    })
}

// A reference that appeared before.
fn known() -> SeenRef {
    SeenRef {
        number: 7,
        first: None,
    }
}

// Five counts, of which two are not zero.
fn held(alloc: Global) -> Option<CountList> {
    let mut held = Vec::new(alloc);
    held.push(HeldCount {
        number: 1,
        count: 2,
    })
    .ok()?;
    held.push(HeldCount {
        number: 4,
        count: u64::MAX,
    })
    .ok()?;
    Some(CountList::of_held(5, held))
}

// A list of one value.
fn null(alloc: Global) -> Option<SeenList> {
    let mut values = SeenList::new(alloc);
    values.push(Seen::Null).ok()?;
    Some(values)
}

fn text(alloc: Global, text: &str) -> Option<Text> {
    Text::of_bytes(alloc, text.as_bytes()).ok()
}
