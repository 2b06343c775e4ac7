//! The instructions of a method.
use class_model::{Attr, MethodAt, PlacedList};
use class_tree::Tree;
use code_bytes::decode;
use std::alloc::Global;

/// The instructions of a method of the folder. None where it has no code or memory runs out.
pub fn decoded_code(alloc: Global, tree: &Tree, at: MethodAt) -> Option<PlacedList> {
    let method = tree.folder().get(at.class)?.methods.get(at.method)?;
    match method.attrs.get(0)? {
        Attr::Code { part, .. } => decode(alloc, part.code.as_slice()).ok(),
        Attr::Raw { .. } => None,
    }
}
