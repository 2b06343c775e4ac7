//! Why a class or member is not accessible (JVM Specification SE 8, 5.4.4).
use crate::descriptors::element;
use crate::lines::Lines;
use class_model::{ACC_PRIVATE, ACC_PROTECTED, ACC_PUBLIC, ACC_STATIC, Text, has};
use class_tree::{Tree, is_sub};
use member_link::is_same_package;

/// Whether the class that a name names is there and not accessible from a class.
pub(crate) fn is_hidden(tree: &Tree, from: &[u8], name: &[u8]) -> bool {
    let class = element(name);
    let Some(place) = tree.find(class) else {
        return false;
    };
    match tree.header(place) {
        Some(header) => !has(header.flags, ACC_PUBLIC) && !is_same_package(from, class),
        None => false,
    }
}

/// Writes that a class is not accessible.
pub(crate) fn put_hidden(lines: &mut Lines, name: &[u8]) {
    lines.put("  ");
    lines.name(element(name));
    lines.put(" is not public and is of another package\n");
}

/// Why a member that a class declares is not accessible from another, through a class that is named; empty where it is.
pub(crate) fn why_hidden(
    tree: &Tree,
    from: &Text,
    named: &Text,
    class: &Text,
    flags: u16,
) -> &'static str {
    if has(flags, ACC_PUBLIC) || (has(flags, ACC_PRIVATE) && from.bytes() == class.bytes()) {
        ""
    } else if has(flags, ACC_PRIVATE) {
        "private"
    } else if is_same_package(from.bytes(), class.bytes()) {
        ""
    } else if has(flags, ACC_PROTECTED) {
        why_protected(tree, from, named, class, has(flags, ACC_STATIC))
    } else {
        "accessible in its own package alone"
    }
}

// Of a protected member of another package.
fn why_protected(
    tree: &Tree,
    from: &Text,
    named: &Text,
    class: &Text,
    is_static: bool,
) -> &'static str {
    if !is_sub(tree, from, class) {
        "protected, and this class is not below that one"
    } else if is_static || is_sub(tree, named, from) || is_sub(tree, from, named) {
        ""
    } else {
        "protected, and named through a class that is neither above nor below this one"
    }
}
