//! Texts of a constant pool.
use class_model::{Const, Pool, Text};

/// The text that a constant is.
pub(crate) fn utf8(pool: &Pool, index: u16) -> Option<&Text> {
    match pool.get(index)? {
        Const::Utf8(text) => Some(text),
        _ => None,
    }
}

/// The name of the class that a constant is.
pub(crate) fn class_name(pool: &Pool, index: u16) -> Option<&Text> {
    match pool.get(index)? {
        Const::Class(name) => utf8(pool, *name),
        _ => None,
    }
}
