//! Frames as texts: the locals, a bar, and the stack with the topmost entry last, one word an entry. The words are `I`,
//! `F`, `J` and `D` for int, float, long and double, `T` for top, `N` for null, `this` for an uninitialised this, `new@3`
//! for an object that the `new` at offset 3 made, and else the name of a class or the descriptor of an array.
use class_model::{Frame, ListOf, LocalTypeList, Text, VType};
use std::alloc::Global;

/// The type that a word says. None where memory runs out, as in what follows.
pub fn type_of(alloc: Global, word: &str) -> Option<VType> {
    if let Some(at) = word.strip_prefix("new@") {
        return Some(VType::Uninit(at.parse::<u32>().unwrap_or(u32::MAX)));
    }
    Some(match word {
        "T" => VType::Top,
        "I" => VType::Int,
        "F" => VType::Float,
        "J" => VType::Long,
        "D" => VType::Double,
        "N" => VType::Null,
        "this" => VType::UninitThis,
        name => VType::Object(Text::of_bytes(alloc, name.as_bytes()).ok()?),
    })
}

/// The frame that a text says. None also where there is no room in a list for more locals.
pub fn frame_of(alloc: Global, text: &str) -> Option<Frame> {
    let mut locals = LocalTypeList::new(alloc);
    let mut stack = ListOf::new(alloc);
    let mut is_stack = false;
    for word in text.split(' ') {
        if word == "|" {
            is_stack = true;
        } else if is_stack {
            stack.push(type_of(alloc, word)?).ok()?;
        } else if !word.is_empty() {
            push_local(&mut locals, type_of(alloc, word)?)?;
        }
    }
    Some(Frame { locals, stack })
}

// Appends a local, if there is room for one.
fn push_local(locals: &mut LocalTypeList, local: VType) -> Option<()> {
    if locals.len() < usize::MAX {
        locals.push(local).ok()
    } else {
        None
    }
}

/// The text of a frame.
pub fn text_of_frame(alloc: Global, frame: &Frame) -> Option<String> {
    let mut text = String::new(alloc);
    for at in 0..frame.locals.len() {
        if let Some(local) = frame.locals.get(at) {
            push_word(&mut text, local)?;
            text.push_str(" ").ok()?;
        }
    }
    text.push_str("|").ok()?;
    for entry in frame.stack.as_slice() {
        text.push_str(" ").ok()?;
        push_word(&mut text, entry)?;
    }
    Some(text)
}

// Appends the word of a type.
fn push_word(text: &mut String, entry: &VType) -> Option<()> {
    let word = match entry {
        VType::Uninit(at) => return write!(text, "new@{at}").ok(),
        VType::Object(name) => str::from_utf8(name.bytes()).ok()?,
        VType::Top => "T",
        VType::Int => "I",
        VType::Float => "F",
        VType::Long => "J",
        VType::Double => "D",
        VType::Null => "N",
        VType::UninitThis => "this",
    };
    text.push_str(word).ok()
}
