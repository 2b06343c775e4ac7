//! The printed events of a run.
ghost use Rattle.std.specs.Prelude.{◌≡◌, ◌∷◌, ◌++◌, IfOk, OnOk, decimal, map};
ghost use Rattle.script_text.specs.Events.{spaced, held_text, held_word, held_words, event_line, event_lines, end_line, end_name, events_text};
ghost use Rattle.script_text.specs.Inner.Held.{held_listed};

use crate::kinds::push_kind;
use crate::printed::{push_decimal, push_number};
use class_model::{ByteList, ListOf, NoMemory};
use machine_values::{CountList, End, Event, HeldCount, Shown};
use std::alloc::Global;

/// The lines of a run's events, and of its end.
///
/// # Errors
///
/// `NoMemory` where memory runs out.
pub fn print_events(alloc: Global, shown: &Shown) -> Result<ByteList, NoMemory>
    ensures { IfOk result (λ text. text ≡ events_text shown.now) }
{
    let mut text = Vec::new(alloc);
    push_events(alloc, &mut text, shown.events.as_slice())?;
    push_end(alloc, &mut text, shown.end)?;
    Ok(ListOf::from_vec(text))
}

/// Appends the lines of events, which are counted from 0.
fn push_events(alloc: Global, text: &mut Vec<u8>, events: &[Event]) -> Result<(), NoMemory>
    ensures { OnOk result (text.new.items ≡ text.old.items ++ event_lines 0 events.now) }
{
    for number in 0..events.len() {
        push_event(alloc, text, number, &events[number])?;
    }
    Ok(())
}

/// Appends the line of an event with its number.
fn push_event(
    alloc: Global,
    text: &mut Vec<u8>,
    number: usize,
    event: &Event,
) -> Result<(), NoMemory>
    ensures { OnOk result (text.new.items ≡ text.old.items ++ event_line number event.now) }
{
    push_decimal(alloc, text, number as u128)?;
    push_kind(alloc, text, &event.kind)?;
    text.extend_from_slice(b" ; a=")?;
    push_decimal(alloc, text, event.allocations)?;
    text.extend_from_slice(b" m=")?;
    push_number(alloc, text, event.entries)?;
    push_monitors(alloc, text, &event.monitors)?;
    text.push(b'\n')?;
    Ok(())
}

/// Appends the known references whose monitors are entered, by the counts of all.
fn push_monitors(alloc: Global, text: &mut Vec<u8>, monitors: &CountList) -> Result<(), NoMemory>
    ensures { OnOk result
        (text.new.items ≡ text.old.items ++ held_text (held_words 0 monitors.now)) }
{
    push_held(alloc, text, monitors.held())
}

/// Appends the known references whose monitors are entered, if there are any.
fn push_held(alloc: Global, text: &mut Vec<u8>, held: &[HeldCount]) -> Result<(), NoMemory>
    ensures { OnOk result
        (text.new.items ≡ text.old.items ++ held_text (map held_listed held.now)) }
{
    if !held.is_empty() {
        text.extend_from_slice(b" ; held")?;
        push_counts(alloc, text, held)?;
    }
    Ok(())
}

/// Appends known references and how often their monitors are entered, each behind a space.
fn push_counts(alloc: Global, text: &mut Vec<u8>, held: &[HeldCount]) -> Result<(), NoMemory>
    ensures { OnOk result
        (text.new.items ≡ text.old.items ++ spaced (map held_listed held.now)) }
{
    for count in held {
        push_count(alloc, text, *count)?;
    }
    Ok(())
}

/// Appends a space, a known reference and how often its monitor is entered.
fn push_count(alloc: Global, text: &mut Vec<u8>, held: HeldCount) -> Result<(), NoMemory>
    ensures { OnOk result
        (text.new.items ≡ text.old.items ++ (32 ∷ held_word held.number held.count)) }
{
    text.extend_from_slice(b" r:")?;
    push_decimal(alloc, text, held.number as u128)?;
    text.push(b'*')?;
    push_decimal(alloc, text, u128::from(held.count))
}

/// Appends the line of a run's end.
fn push_end(alloc: Global, text: &mut Vec<u8>, end: End) -> Result<(), NoMemory>
    ensures { OnOk result (text.new.items ≡ text.old.items ++ end_line end) }
{
    text.extend_from_slice(b"end ")?;
    push_end_name(alloc, text, end)?;
    text.push(b'\n')?;
    Ok(())
}

/// Appends the name of a run's end.
fn push_end_name(alloc: Global, text: &mut Vec<u8>, end: End) -> Result<(), NoMemory>
    ensures { OnOk result (text.new.items ≡ text.old.items ++ end_name end) }
{
    match end {
        End::Stopped => text.extend_from_slice(b"Stopped")?,
        End::Waits => text.extend_from_slice(b"Waits")?,
        End::Running => text.extend_from_slice(b"Running")?,
        End::LibraryFault(action) => push_numbered(alloc, text, b"LibraryFault ", action)?,
        End::InitThrew => text.extend_from_slice(b"InitThrew")?,
        End::ArrayTooLong => text.extend_from_slice(b"ArrayTooLong")?,
        End::Stuck => text.extend_from_slice(b"Stuck")?,
    }
    Ok(())
}

/// Appends a name, and the number of an action.
fn push_numbered(
    alloc: Global,
    text: &mut Vec<u8>,
    name: &[u8],
    action: u64,
) -> Result<(), NoMemory>
    ensures { OnOk result (text.new.items ≡ text.old.items ++ (name.now ++ decimal action)) }
{
    text.extend_from_slice(name)?;
    push_number(alloc, text, action)
}
