//! Questions about a hierarchy.
use class_model::{ListOf, MethodAt, NoMemory, Text, TextList};
use class_tree::{Place, Tree, chain};
use std::alloc::Global;

/// The class of a name and its superclasses, upwards; none where no class has the name.
pub fn superclasses(alloc: Global, tree: &Tree, name: &Text) -> Result<TextList, NoMemory> {
    match tree.place(name) {
        Some(_) => chain(alloc, tree, name),
        None => Ok(ListOf::new(alloc)),
    }
}

/// The last method of a class of the folder; none where the folder has no class of the name.
pub fn last_method(tree: &Tree, class: &Text) -> Option<MethodAt> {
    let Some(Place::Folder(place)) = tree.place(class) else {
        return None;
    };
    let methods = &tree.folder().get(place)?.methods;
    Some(MethodAt {
        class: place,
        method: methods.len().wrapping_sub(1),
    })
}
