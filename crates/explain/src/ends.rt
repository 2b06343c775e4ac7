//! How a run ended, where the script may be meant otherwise.
use crate::answers::put_pending;
use crate::faults::{Scene, put_fault};
use crate::lines::Lines;
use crate::turns::{Known, pending};
use class_model::{NoMemory, mnemonic};
use class_tree::Tree;
use machine_values::{Action, End, Event, EventKind, Shown};
use std::alloc::Global;

/// Explains how a run of a hierarchy's folder by actions ended: what waits, which action is none that the library may take there and why,
/// and that more steps may be given. Of float arithmetic it names the instructions. The text is empty where the script stopped the run and it
/// showed no such arithmetic.
pub fn explain_end(
    alloc: Global,
    tree: &Tree,
    actions: &[Action],
    shown: &Shown,
) -> Result<String, NoMemory> {
    let mut lines = Lines::new(alloc);
    let events = shown.events.as_slice();
    put_float(&mut lines, events);
    match shown.end {
        End::Stopped | End::Stuck => {}
        End::Running => {
            lines.put("pea: note: the run is not at its end: all its steps are used up");
            lines.put("; --steps N gives it more, at most 10000000\n");
        }
        End::Waits => {
            lines.put("pea: note: the script is used up before a stop\n");
            put_turn(alloc, &mut lines, actions, actions.len(), events)?;
        }
        End::LibraryFault(number) => {
            put_refused(alloc, &mut lines, tree, actions, number, events)?;
        }
        End::InitThrew => {
            lines.put(
                "pea: note: an exception left the initialiser of a class, which ends a run\n",
            );
        }
        End::ArrayTooLong => {
            lines.put("pea: note: an array of more than 1000000 elements was to be made, ");
            lines.put("which ends a run\n");
        }
    }
    lines.finish()
}

// The event that waits, or that none does.
fn put_turn(
    alloc: Global,
    lines: &mut Lines,
    actions: &[Action],
    used: usize,
    events: &[Event],
) -> Result<(), NoMemory> {
    if let Some(number) = pending(alloc, actions, used, events)? {
        if let Some(event) = events.get(number) {
            put_pending(lines, number, event);
            return Ok(());
        }
    }
    lines.put("  no event waits for an answer; stop ends the run\n");
    Ok(())
}

// The action of this number, which the library may not take.
fn put_refused(
    alloc: Global,
    lines: &mut Lines,
    tree: &Tree,
    actions: &[Action],
    number: u64,
    events: &[Event],
) -> Result<(), NoMemory> {
    if number >= actions.len() as u64 {
        return Ok(());
    }
    let used = number as usize;
    let known = Known::of(alloc, events)?;
    let waiting = match pending(alloc, actions, used, events)? {
        Some(at) => events.get(at),
        None => None,
    };
    let scene = Scene {
        tree,
        known: &known,
        waiting,
    };
    if let Some(action) = actions.get(used) {
        lines.put("pea: note: action ");
        lines.number(number);
        lines.put(", counted from 0, is none that the library may take there: ");
        put_fault(alloc, lines, &scene, action);
    }
    Ok(())
}

// The mnemonics of float arithmetic that events show, each opcode once.
fn put_float(lines: &mut Lines, events: &[Event]) {
    let mut shown = [false; 256];
    for event in events {
        if let EventKind::Float { opcode, .. } = &event.kind {
            shown[usize::from(*opcode)] = true;
        }
    }
    let mut words = "pea: note: float events by their opcodes: ";
    for opcode in 0..=u8::MAX {
        if shown[usize::from(opcode)] {
            lines.put(words);
            words = ", ";
            lines.number(u64::from(opcode));
            lines.put(" is ");
            lines.put(mnemonic(opcode).unwrap_or("?"));
        }
    }
    if words == ", " {
        lines.put("\n");
    }
}
