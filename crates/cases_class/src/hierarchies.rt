//! What is answered about a hierarchy.
use cases_notation::{Input, superclasses};
use class_model::Text;
use class_tree::{LinkFault, Place, Tree};
use std::alloc::Global;

/// What building the hierarchy of an input answers: `ok`, or the class and the rule that it breaks.
pub(crate) fn building(alloc: Global, input: Input) -> Option<String> {
    match input.build(alloc) {
        Ok(tree) => {
            // let go by a call, so that its drop is proved once
            drop(tree);
            String::from_str(alloc, "ok").ok()
        }
        Err(fault) => {
            let told = text_of_problem(alloc, &fault);
            drop(fault);
            told
        }
    }
}

// A problem of building: its class and its rule.
fn text_of_problem(alloc: Global, fault: &LinkFault) -> Option<String> {
    let LinkFault::Unlinked { class, rule, .. } = fault else {
        return None;
    };
    let name = str::from_utf8(class.bytes()).ok()?;
    format!(in alloc; "{name} {rule:?}").ok()
}

/// The names of the superclasses of a class, itself with them.
pub(crate) fn superclass_names(alloc: Global, tree: &Tree, name: &str) -> Option<String> {
    let name = Text::of_bytes(alloc, name.as_bytes()).ok()?;
    let mut names = String::new(alloc);
    for text in superclasses(alloc, tree, &name).ok()?.as_slice() {
        push_name(&mut names, text)?;
    }
    names_or_none(alloc, names)
}

/// The names of the superinterfaces of a class.
pub(crate) fn superinterface_names(alloc: Global, tree: &Tree, name: &str) -> Option<String> {
    let name = Text::of_bytes(alloc, name.as_bytes()).ok()?;
    let mut names = String::new(alloc);
    if let Some(place) = tree.place(&name)
        && tree.header(place).is_some()
    {
        for place in tree.superinterfaces(place) {
            if let Some(header) = tree.header(*place) {
                push_name(&mut names, &header.name)?;
            }
        }
    }
    names_or_none(alloc, names)
}

// Appends a name, behind a space where it is not the first.
fn push_name(names: &mut String, name: &Text) -> Option<()> {
    if !names.is_empty() {
        names.push_str(" ").ok()?;
    }
    names.push_str(str::from_utf8(name.bytes()).ok()?).ok()
}

fn names_or_none(alloc: Global, names: String) -> Option<String> {
    if names.is_empty() {
        String::from_str(alloc, "-").ok()
    } else {
        Some(names)
    }
}

/// Whether the class of a name stands in the folder or in the library, and its number there.
pub(crate) fn place_of_class(alloc: Global, tree: &Tree, name: &str) -> Option<String> {
    let name = Text::of_bytes(alloc, name.as_bytes()).ok()?;
    match tree.place(&name) {
        Some(Place::Folder(number)) => format!(in alloc; "folder {number}").ok(),
        Some(Place::Library(number)) => format!(in alloc; "library {number}").ok(),
        None => String::from_str(alloc, "-").ok(),
    }
}

/// The number of a field or of a method among those that its class declares.
pub(crate) fn member_place(
    alloc: Global,
    tree: &Tree,
    kind: &str,
    member: &[&str],
) -> Option<String> {
    let [class, name, desc] = member else {
        return None;
    };
    let class = Text::of_bytes(alloc, class.as_bytes()).ok()?;
    let name = Text::of_bytes(alloc, name.as_bytes()).ok()?;
    let desc = Text::of_bytes(alloc, desc.as_bytes()).ok()?;
    let place = tree.place(&class)?;
    let number = if kind == "field" {
        tree.field(place, &name, &desc)
    } else {
        tree.method(place, &name, &desc)
    };
    match number {
        Some(number) => format!(in alloc; "{number}").ok(),
        None => String::from_str(alloc, "-").ok(),
    }
}
