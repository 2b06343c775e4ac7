//! The kinds of events, printed.
ghost use Rattle.std.specs.Prelude.{◌≡◌, ◌∷◌, [], ◌++◌, OnOk, codes, decimal, map};
ghost use Rattle.std.specs.Option.{option_copied};
ghost use Rattle.class_model.specs.ModifiedUtf8.{IsText};
ghost use Rattle.script_text.specs.PrintedTexts.{printed_text};
ghost use Rattle.script_text.specs.Events.{spaced, seen_text, seen_words, reference_text, kind_words};

use crate::printed::{push_decimal, push_text};
use crate::seen::{push_reference, push_seen};
use class_model::{NoMemory, Text};
use machine_values::{EventKind, Seen, SeenRef};
use std::alloc::Global;

/// Appends the kind of an event and its fields, each behind a space.
pub(crate) fn push_kind(alloc: Global, line: &mut Vec<u8>, kind: &EventKind) -> Result<(), NoMemory>
    ensures { OnOk result (line.new.items ≡ line.old.items ++ spaced (kind_words kind.now)) }
{
    match kind {
        EventKind::Call {
            class,
            name,
            desc,
            values,
        } => {
            push_member(line, b" call", class, name, desc)?;
            push_values(alloc, line, values.as_slice())
        }
        EventKind::Dynamic {
            class,
            bootstrap,
            name,
            desc,
            values,
        } => {
            push_call_site(alloc, line, class, *bootstrap, name, desc)?;
            push_values(alloc, line, values.as_slice())
        }
        EventKind::Get {
            class,
            name,
            desc,
            receiver,
        } => {
            push_member(line, b" get", class, name, desc)?;
            push_optional(alloc, line, receiver)
        }
        EventKind::Put {
            class,
            name,
            desc,
            receiver,
            value,
        } => {
            push_member(line, b" put", class, name, desc)?;
            push_optional(alloc, line, receiver)?;
            push_value(alloc, line, value)
        }
        EventKind::Float { opcode, values } => {
            line.extend_from_slice(b" float ")?;
            push_decimal(alloc, line, u128::from(*opcode))?;
            push_values(alloc, line, values.as_slice())
        }
        EventKind::Result(value) => {
            line.extend_from_slice(b" result")?;
            push_optional(alloc, line, value)
        }
        EventKind::Got(value) => {
            line.extend_from_slice(b" got")?;
            push_value(alloc, line, value)
        }
        EventKind::Threw(reference) => push_shown(alloc, line, b" threw ", reference),
        EventKind::Made(reference) => push_shown(alloc, line, b" made ", reference),
        EventKind::Length(len) => {
            line.extend_from_slice(b" length i:")?;
            push_decimal(alloc, line, u128::from(*len))
        }
    }
}

/// Appends some bytes and a reference.
fn push_shown(
    alloc: Global,
    line: &mut Vec<u8>,
    front: &[u8],
    reference: &SeenRef,
) -> Result<(), NoMemory>
    ensures { OnOk result
        (line.new.items ≡ line.old.items ++ (front.now ++ reference_text reference.now)) }
{
    line.extend_from_slice(front)?;
    push_reference(alloc, line, reference)
}

/// Appends the name of a kind, and a member of a class.
pub(crate) fn push_member(
    line: &mut Vec<u8>,
    kind: &[u8],
    class: &Text,
    name: &Text,
    desc: &Text,
) -> Result<(), NoMemory>
    ensures printed { OnOk result (line.new.items
        ≡ line.old.items ++ (kind.now ++ spaced
        (printed_text class.now ∷ printed_text name.now ∷ printed_text desc.now ∷ []))) }
    ensures texts { OnOk result (IsText class.now × IsText name.now × IsText desc.now) }
{
    line.extend_from_slice(kind)?;
    push_name(line, class)?;
    push_name(line, name)?;
    push_name(line, desc)
}

/// Appends an `invokedynamic`: the class whose code has it, the number of its bootstrap method, and its name and descriptor.
fn push_call_site(
    alloc: Global,
    line: &mut Vec<u8>,
    class: &Text,
    bootstrap: u16,
    name: &Text,
    desc: &Text,
) -> Result<(), NoMemory>
    ensures { OnOk result (line.new.items
        ≡ line.old.items ++ spaced
        (codes "dynamic" ∷ printed_text class.now ∷ decimal bootstrap ∷ printed_text name.now
        ∷ printed_text desc.now ∷ [])) }
{
    line.extend_from_slice(b" dynamic")?;
    push_name(line, class)?;
    line.push(b' ')?;
    push_decimal(alloc, line, u128::from(bootstrap))?;
    push_name(line, name)?;
    push_name(line, desc)
}

/// Appends a space and a text as it is printed.
pub(crate) fn push_name(line: &mut Vec<u8>, name: &Text) -> Result<(), NoMemory>
    ensures printed { OnOk result (line.new.items ≡ line.old.items ++ (32 ∷ printed_text name.now)) }
    ensures text { OnOk result (IsText name.now) }
{
    line.push(b' ')?;
    push_text(line, name.bytes())
}

/// Appends a space and a value.
fn push_value(alloc: Global, line: &mut Vec<u8>, value: &Seen) -> Result<(), NoMemory>
    ensures { OnOk result (line.new.items ≡ line.old.items ++ (32 ∷ seen_text value.now)) }
{
    line.push(b' ')?;
    push_seen(alloc, line, value)
}

/// Appends values, each behind a space.
fn push_values(alloc: Global, line: &mut Vec<u8>, values: &[Seen]) -> Result<(), NoMemory>
    ensures { OnOk result
        (line.new.items ≡ line.old.items ++ spaced (map seen_text values.now)) }
{
    for value in values {
        push_value(alloc, line, value)?;
    }
    Ok(())
}

/// Appends a space and a value, if there is one.
fn push_optional(alloc: Global, line: &mut Vec<u8>, value: &Option<Seen>) -> Result<(), NoMemory>
    ensures { OnOk result (line.new.items ≡ line.old.items ++ spaced (seen_words value.now)) }
{
    match value {
        Some(value) => push_value(alloc, line, value),
        None => Ok(()),
    }
}
