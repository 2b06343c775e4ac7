//! Frames as they are shown.
use crate::lines::Lines;
use class_model::{Frame, Kind, VType};
use class_tree::Tree;
use type_rules::assignable;

// How many types of the locals or of the stack are shown.
const MOST_SHOWN: usize = 20;

/// Writes a line with a frame: its locals, but for the unused ones at their end, and its stack, the top last.
pub(crate) fn put_frame(lines: &mut Lines, words: &str, frame: &Frame) {
    lines.put(words);
    lines.put(": locals [");
    put_locals(lines, frame);
    lines.put("], stack [");
    put_stack(lines, frame);
    lines.put("]\n");
}

fn put_locals(lines: &mut Lines, frame: &Frame) {
    let count = frame.locals.listed();
    for at in 0..count.min(MOST_SHOWN) {
        if let Some(local) = frame.locals.get(at) {
            put_next(lines, at, local);
        }
    }
    if count > MOST_SHOWN {
        lines.put(", ..");
    }
}

// The topmost types of the stack.
fn put_stack(lines: &mut Lines, frame: &Frame) {
    let count = frame.stack.len();
    let first = count.saturating_sub(MOST_SHOWN);
    if first > 0 {
        lines.put("..");
    }
    for at in first..count {
        if let Some(entry) = frame.stack.get(at) {
            put_next(lines, at, entry);
        }
    }
}

fn put_next(lines: &mut Lines, at: usize, shown: &VType) {
    if at > 0 {
        lines.put(", ");
    }
    put_type(lines, shown);
}

fn put_type(lines: &mut Lines, shown: &VType) {
    match shown {
        VType::Object(name) => lines.name(name.bytes()),
        VType::Uninit(at) => {
            lines.put("uninitialised from ");
            lines.number(u64::from(*at));
        }
        _ => lines.put(plain_type(shown)),
    }
}

fn plain_type(shown: &VType) -> &'static str {
    match shown {
        VType::Top => "-",
        VType::Int => "int",
        VType::Float => "float",
        VType::Long => "long",
        VType::Double => "double",
        VType::Null => "null",
        VType::UninitThis => "uninitialised this",
        VType::Object(_) | VType::Uninit(_) => "a reference",
    }
}

/// What a value of a kind is called.
pub(crate) fn kind_word(kind: Kind) -> &'static str {
    match kind {
        Kind::Int => "int",
        Kind::Long => "long",
        Kind::Float => "float",
        Kind::Double => "double",
        Kind::Ref => "a reference",
    }
}

/// Writes where a frame is not assignable to another: the first local, the depths of the stacks, else the first entry.
pub(crate) fn put_difference(lines: &mut Lines, tree: &Tree, from: &Frame, to: &Frame) {
    if put_local(lines, tree, from, to) {
        return;
    }
    if from.stack.len() != to.stack.len() {
        lines.put("  the stacks are not of one depth\n");
    } else if !put_entry(lines, tree, from, to) {
        lines.put("  the one has a this that is not initialised, which the other loses\n");
    }
}

fn put_local(lines: &mut Lines, tree: &Tree, from: &Frame, to: &Frame) -> bool {
    for at in 0..to.locals.len() {
        if let (Some(low), Some(high)) = (from.locals.get(at), to.locals.get(at)) {
            if !assignable(tree, low, high) {
                put_pair(lines, "  local ", at, low, high);
                return true;
            }
        }
    }
    false
}

fn put_entry(lines: &mut Lines, tree: &Tree, from: &Frame, to: &Frame) -> bool {
    for at in 0..to.stack.len() {
        if let (Some(low), Some(high)) = (from.stack.get(at), to.stack.get(at)) {
            if !assignable(tree, low, high) {
                put_pair(lines, "  stack entry ", at, low, high);
                return true;
            }
        }
    }
    false
}

fn put_pair(lines: &mut Lines, words: &str, at: usize, low: &VType, high: &VType) {
    lines.put(words);
    lines.number(at as u64);
    lines.put(" is ");
    put_type(lines, low);
    lines.put(", and stated as ");
    put_type(lines, high);
    lines.put("\n");
}
