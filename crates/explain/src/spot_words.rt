//! The parts of class files in words.
use crate::lines::Lines;
use crate::mnemonics::mnemonic_at;
use crate::pool_spot::{tag_at, tag_name, utf8_at};
use crate::spot::{Inner, Part};
use class_model::Cursor;

/// Writes a part of a class file, in which a place lies.
pub(crate) fn put_part(lines: &mut Lines, bytes: &[u8], at: u64, part: Part) {
    match part {
        Part::Head(words) => lines.put(words),
        Part::Constant(index) => put_constant(lines, bytes, index),
        Part::Member {
            is_method,
            at: start,
            inner,
        } => {
            put_member(lines, bytes, is_method, start);
            put_inner(lines, bytes, at, inner);
        }
        Part::Attribute(start) => {
            lines.put("the class's attribute ");
            put_index(lines, bytes, start);
        }
        Part::Behind => lines.put("what is behind the class file"),
    }
}

fn put_constant(lines: &mut Lines, bytes: &[u8], index: u16) {
    lines.put("constant #");
    lines.number(u64::from(index));
    if let Some(tag) = tag_at(bytes, index) {
        lines.put(", of tag ");
        lines.number(u64::from(tag));
        lines.put(tag_name(tag));
    }
    if let Some(text) = utf8_at(bytes, index) {
        lines.put(", ");
        lines.name(text);
    }
}

// The field or method that begins at a place.
fn put_member(lines: &mut Lines, bytes: &[u8], is_method: bool, start: u64) {
    lines.put(if is_method {
        "the method "
    } else {
        "the field "
    });
    put_index(lines, bytes, start.saturating_add(2));
    lines.put(if is_method { "" } else { " of type " });
    put_index(lines, bytes, start.saturating_add(4));
}

fn put_inner(lines: &mut Lines, bytes: &[u8], at: u64, inner: Inner) {
    match inner {
        Inner::Head => lines.put(": its access flags, name or descriptor"),
        Inner::Count => lines.put(": the count of its attributes"),
        Inner::Attribute(start) => {
            lines.put(": its attribute ");
            put_index(lines, bytes, start);
        }
        Inner::Limits => lines.put(": max_stack, max_locals or the length of its code"),
        Inner::Code(start) => put_code(lines, bytes, at, start),
        Inner::Handlers => lines.put(": the count of its exception table"),
        Inner::Handler(number) => {
            lines.put(": in its exception table entry ");
            lines.number(u64::from(number));
        }
        Inner::OfCode(start) => {
            lines.put(": of its code the attribute ");
            put_index(lines, bytes, start);
        }
    }
}

// Which instruction of a code, which begins at a place, is at another place.
fn put_code(lines: &mut Lines, bytes: &[u8], at: u64, start: u64) {
    lines.put(": its code at offset ");
    lines.number(at.saturating_sub(start));
    if let Some([opcode, ..]) = bytes.get(at as usize..) {
        lines.put(", where the byte ");
        lines.number(u64::from(*opcode));
        lines.put(" is (");
        lines.put(mnemonic_at(bytes, at as usize));
        lines.put(")");
    }
}

// The text of the constant whose index is at a place, and `?` where there is none.
fn put_index(lines: &mut Lines, bytes: &[u8], at: u64) {
    match text_at(bytes, at) {
        Some(text) => lines.name(text),
        None => lines.put("?"),
    }
}

fn text_at(bytes: &[u8], at: u64) -> Option<&[u8]> {
    let mut cursor = Cursor::new(bytes, at as usize);
    let index = cursor.u2().ok()?;
    utf8_at(bytes, index)
}
