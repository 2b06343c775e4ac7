//! Methods and their codes in a hierarchy.
use class_model::{ClassFile, CodePart, Member, MethodAt, Text};
use class_tree::{Place, Tree};
use type_rules::code_of;

/// The method of a class of the folder that this member is.
pub(crate) fn method_at(tree: &Tree, class: &Text, member: &Member) -> Option<MethodAt> {
    let place = tree.place(class)?;
    let method = tree.method(place, &member.name, &member.desc)?;
    match place {
        Place::Folder(class) => Some(MethodAt { class, method }),
        Place::Library(_) => None,
    }
}

/// The class file of a method.
pub(crate) fn class_of(tree: &Tree, at: MethodAt) -> Option<&ClassFile> {
    tree.folder().get(at.class)
}

/// The code of a method, if it has one.
pub(crate) fn code_at(tree: &Tree, at: MethodAt) -> Option<&CodePart> {
    let method = class_of(tree, at)?.methods.get(at.method)?;
    code_of(method.attrs.as_slice())
}
