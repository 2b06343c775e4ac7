//! The exception table of a code and the frames that it states.
use crate::counted::Counted;
use crate::pool::PoolBytes;
use class_model::{NoMemory, push_u2};
use std::alloc::Global;

/// Appends an entry of an exception table by the words of its offsets and its class.
pub(crate) fn push_handler(
    handlers: &mut Counted,
    pool: &mut PoolBytes,
    offsets: [&str; 3],
    class: &str,
) -> Result<(), NoMemory> {
    let class = match class {
        "any" => 0,
        name => pool.class(name.as_bytes())?,
    };
    let bytes = handlers.one_more();
    for offset in offsets {
        push_u2(bytes, number(offset))?;
    }
    push_u2(bytes, class)
}

/// Appends a frame at the offset behind the one before, with the locals of that and a value of the class on the stack.
pub(crate) fn push_frame(
    frames: &mut Counted,
    pool: &mut PoolBytes,
    class: &str,
) -> Result<(), NoMemory> {
    let class = pool.class(class.as_bytes())?;
    let bytes = frames.one_more();
    bytes.extend_from_slice(&[64, 7])?;
    push_u2(bytes, class)
}

/// Appends a full frame by the words of its locals and, behind a colon, of its stack.
pub(crate) fn push_full(
    alloc: Global,
    frames: &mut Counted,
    pool: &mut PoolBytes,
    delta: &str,
    types: &[&str],
) -> Result<(), NoMemory> {
    let mut locals = Counted::new(alloc);
    let mut stack = Counted::new(alloc);
    push_types(&mut locals, &mut stack, pool, types)?;
    let bytes = frames.one_more();
    bytes.extend_from_slice(&[255])?;
    push_u2(bytes, number(delta))?;
    locals.push_to(bytes)?;
    stack.push_to(bytes)
}

// Appends the types of the locals and, behind a colon, of the stack.
fn push_types(
    locals: &mut Counted,
    stack: &mut Counted,
    pool: &mut PoolBytes,
    types: &[&str],
) -> Result<(), NoMemory> {
    let mut is_stack = false;
    for word in types {
        if *word == ":" {
            is_stack = true;
        } else if is_stack {
            push_type(stack.one_more(), pool, word)?;
        } else {
            push_type(locals.one_more(), pool, word)?;
        }
    }
    Ok(())
}

// Appends a type of a frame (JVM Specification SE 8, 4.7.4).
fn push_type(out: &mut Vec<u8>, pool: &mut PoolBytes, word: &str) -> Result<(), NoMemory> {
    if let Some(at) = word.strip_prefix("new@") {
        out.push(8)?;
        return push_u2(out, number(at));
    }
    if let Some(tag) = simple_tag(word) {
        out.push(tag)?;
        return Ok(());
    }
    let class = pool.class(word.as_bytes())?;
    out.push(7)?;
    push_u2(out, class)
}

// The tag of a type that is nothing but its tag.
fn simple_tag(word: &str) -> Option<u8> {
    Some(match word {
        "top" => 0,
        "int" => 1,
        "float" => 2,
        "double" => 3,
        "long" => 4,
        "null" => 5,
        "this" => 6,
        _ => return None,
    })
}

// The number that a word says in decimal.
fn number(word: &str) -> u16 {
    word.parse::<u16>().unwrap_or(0)
}
