//! Constants of bytes that may be those of no class file.
use class_model::Cursor;

/// The tag of a constant, and the bytes of its content.
#[derive(Clone, Copy)]
struct RawConstant<'a> {
    tag: u8,
    content: &'a [u8],
}

/// The tag of the constant at an index, if the bytes reach it.
pub(crate) fn tag_at(bytes: &[u8], index: u16) -> Option<u8> {
    let mut cursor = cursor_before(bytes, index)?;
    cursor.u1().ok()
}

/// The text of the Utf8 constant at an index.
pub(crate) fn utf8_at(bytes: &[u8], index: u16) -> Option<&[u8]> {
    let mut cursor = cursor_before(bytes, index)?;
    let constant = constant_of(&mut cursor)?;
    if constant.tag == 1 {
        Some(constant.content)
    } else {
        None
    }
}

// Before the constant at an index.
fn cursor_before(bytes: &[u8], index: u16) -> Option<Cursor<'_>> {
    let mut cursor = Cursor::new(bytes, 8);
    let count = cursor.u2().ok()?;
    if index == 0 || index >= count {
        return None;
    }
    let mut is_second = false;
    for _ in 1..index {
        if is_second {
            is_second = false;
        } else {
            let tag = constant_of(&mut cursor)?.tag;
            is_second = tag == 5 || tag == 6;
        }
    }
    if is_second { None } else { Some(cursor) }
}

// The constant that begins at a cursor.
fn constant_of<'a>(cursor: &mut Cursor<'a>) -> Option<RawConstant<'a>> {
    let tag = cursor.u1().ok()?;
    let length = match tag {
        1 => usize::from(cursor.u2().ok()?),
        7 | 8 | 16 => 2,
        15 => 3,
        3 | 4 | 9 | 10 | 11 | 12 | 18 => 4,
        5 | 6 => 8,
        _ => return None,
    };
    let content = cursor.bytes(length).ok()?;
    Some(RawConstant { tag, content })
}

/// The name of a tag (JVM Specification SE 8, 4.4), in brackets; empty where it is unknown.
pub(crate) fn tag_name(tag: u8) -> &'static str {
    match tag {
        1 => " (Utf8)",
        3 => " (Integer)",
        4 => " (Float)",
        5 => " (Long)",
        6 => " (Double)",
        7 => " (Class)",
        8 => " (String)",
        _ => member_tag_name(tag),
    }
}

fn member_tag_name(tag: u8) -> &'static str {
    match tag {
        9 => " (Fieldref)",
        10 => " (Methodref)",
        11 => " (InterfaceMethodref)",
        12 => " (NameAndType)",
        15 => " (MethodHandle)",
        16 => " (MethodType)",
        18 => " (InvokeDynamic)",
        _ => "",
    }
}
