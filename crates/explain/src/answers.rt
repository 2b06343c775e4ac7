//! What waits for the library's answer, and which answers it takes.
use crate::lines::Lines;
use class_model::mnemonic;
use machine_values::{Event, EventKind};

/// Writes a line about an event that waits: its number, what it is, and how it is answered.
pub(crate) fn put_pending(lines: &mut Lines, number: usize, event: &Event) {
    lines.put("  event ");
    lines.number(number as u64);
    lines.put(" waits for an answer: ");
    put_kind(lines, &event.kind);
    lines.put("\n");
    put_answers(lines, &event.kind);
}

fn put_kind(lines: &mut Lines, kind: &EventKind) {
    match kind {
        EventKind::Call {
            class,
            name,
            desc,
            ..
        } => {
            lines.put("the call of ");
            lines.member(class.bytes(), name.bytes(), desc.bytes());
        }
        EventKind::Dynamic { name, desc, .. } => {
            lines.put("the invokedynamic ");
            lines.name(name.bytes());
            lines.name(desc.bytes());
        }
        EventKind::Get {
            class,
            name,
            desc,
            ..
        } => {
            lines.put("the value of ");
            lines.member(class.bytes(), name.bytes(), desc.bytes());
        }
        EventKind::Put {
            class,
            name,
            desc,
            ..
        } => {
            lines.put("the write of ");
            lines.member(class.bytes(), name.bytes(), desc.bytes());
        }
        EventKind::Float { opcode, .. } => {
            lines.put("the instruction ");
            lines.put(mnemonic(*opcode).unwrap_or("?"));
        }
        _ => {}
    }
}

/// Writes a line with the answers that an event takes.
pub(crate) fn put_answers(lines: &mut Lines, kind: &EventKind) {
    match kind {
        EventKind::Call { desc, .. } | EventKind::Dynamic { desc, .. } => {
            put_return(lines, result_of(desc.bytes()));
            lines.put(", or throw r:K with a throwable\n");
        }
        EventKind::Get { desc, .. } => {
            put_return(lines, desc.bytes());
            lines.put("\n");
        }
        EventKind::Put { .. } => {
            put_return(lines, b"V");
            lines.put("\n");
        }
        EventKind::Float { opcode, .. } => {
            put_return(lines, float_result(mnemonic(*opcode).unwrap_or("?")));
            lines.put("\n");
        }
        _ => {}
    }
}

// How an answer of a type is written.
fn put_return(lines: &mut Lines, desc: &[u8]) {
    if desc == b"V".as_slice() {
        lines.put("  its answer is written: return");
        return;
    }
    lines.put("  its answer is written: return VALUE, where VALUE is of type ");
    lines.name(desc);
    lines.put(": ");
    lines.put(value_form(desc));
}

/// How a value of a type is written.
pub(crate) fn value_form(desc: &[u8]) -> &'static str {
    match desc.first() {
        Some(b'J') => "l:N",
        Some(b'F') => "f:BITS",
        Some(b'D') => "d:BITS",
        Some(b'L' | b'[') => "null or r:K",
        _ => "i:N",
    }
}

// The type behind the parameters of a descriptor.
fn result_of(desc: &[u8]) -> &[u8] {
    match desc.iter().position(|byte| *byte == b')') {
        Some(at) => desc.get(at.saturating_add(1)..).unwrap_or(&[]),
        None => desc,
    }
}

// The type that arithmetic of float and double gives, by its mnemonic.
fn float_result(mnemonic: &str) -> &'static [u8] {
    let bytes = mnemonic.as_bytes();
    match bytes {
        [_, b'2', b'i'] | [_, b'c', b'm', b'p', ..] => b"I",
        [_, b'2', b'l'] => b"J",
        [_, b'2', b'f'] => b"F",
        [_, b'2', b'd'] => b"D",
        [b'f', ..] => b"F",
        _ => b"D",
    }
}
