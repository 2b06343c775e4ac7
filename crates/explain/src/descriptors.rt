//! Classes that names and descriptors name.
use class_tree::Tree;

/// The first class that the name of a class or array names and that is not there.
pub(crate) fn missing_of_name<'a>(tree: &Tree, name: &'a [u8]) -> Option<&'a [u8]> {
    if name.starts_with(b"[") {
        return missing_of_descriptor(tree, name);
    }
    match tree.find(name) {
        Some(_) => None,
        None => Some(name),
    }
}

/// The first class that a descriptor names and that is not there.
pub(crate) fn missing_of_descriptor<'a>(tree: &Tree, desc: &'a [u8]) -> Option<&'a [u8]> {
    for part in desc.split(|byte| *byte == b';') {
        if let Some(name) = class_of_part(part) {
            if tree.find(name).is_none() {
                return Some(name);
            }
        }
    }
    None
}

/// The class of the element, where this is an array of objects, else the name itself.
pub(crate) fn element(name: &[u8]) -> &[u8] {
    if !name.starts_with(b"[") {
        return name;
    }
    match class_of_part(name) {
        Some(class) => class.strip_suffix(b";").unwrap_or(class),
        None => name,
    }
}

/// The class that the part of a descriptor up to a semicolon names: what is before it has no L.
pub(crate) fn class_of_part(part: &[u8]) -> Option<&[u8]> {
    let at = part.iter().position(|byte| *byte == b'L')?;
    part.get(at..)?.get(1..)
}
