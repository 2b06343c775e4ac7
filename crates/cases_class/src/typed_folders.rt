//! What verifying a folder answers.
ghost use Rattle.member_link.specs.Linked.{IsLinked};

use crate::typed_methods::text_of_failure;
use class_model::{ClassFile, MethodAt};
use class_tree::{Place, Tree};
use member_link::check_links;
use std::alloc::Global;
use type_rules::{TypedFolder, has_code};
use verify_folder::{verify_all, verify_method};

/// What verifying a folder answers, at once and method by method: the name of each class with the numbers of its methods'
/// frames, and `-` for a method without code; or the class, method, offset and rule of the first failure.
pub(crate) fn folder_answer(alloc: Global, tree: &Tree) -> Option<String> {
    let Ok(()) = check_links(alloc, tree) else {
        return None;
    };
    let told = match verify_all(alloc, tree) {
        Ok(typed) => text_of_typed(alloc, tree, &typed)?,
        Err(fault) => text_of_failure(alloc, &fault)?,
    };
    let same = text_of_each(alloc, tree)?;
    if told != same {
        return format!(in alloc; "{told}, and one by one {same}").ok();
    }
    if told.is_empty() {
        String::from_str(alloc, "-").ok()
    } else {
        Some(told)
    }
}

/// How many frames the typing of the folder has of a method, by the numbers of its class and of itself.
pub(crate) fn typed_answer(alloc: Global, tree: &Tree, about: &str) -> Option<String> {
    let (class, method) = about.split_once(' ')?;
    let at = MethodAt {
        class: class.parse::<usize>().ok()?,
        method: method.parse::<usize>().ok()?,
    };
    let Ok(()) = check_links(alloc, tree) else {
        return None;
    };
    match verify_all(alloc, tree).ok()?.of(at) {
        Some(frames) => {
            let count = frames.len();
            format!(in alloc; "{count}").ok()
        }
        None => String::from_str(alloc, "-").ok(),
    }
}

// The numbers of the frames of a folder.
fn text_of_typed(alloc: Global, tree: &Tree, typed: &TypedFolder) -> Option<String> {
    let mut text = String::new(alloc);
    for (class, file) in tree.folder().as_slice().iter().enumerate() {
        push_name(&mut text, tree, class)?;
        for method in 0..file.methods.len() {
            match typed.of(MethodAt { class, method }) {
                Some(frames) => write!(text, " {}", frames.len()).ok()?,
                None => text.push_str(" -").ok()?,
            }
        }
        text.push_str(" ;").ok()?;
    }
    Some(text)
}

// The same of its methods one by one, or the first failure.
fn text_of_each(alloc: Global, tree: &Tree) -> Option<String>
    requires { IsLinked tree.now }
{
    let mut text = String::new(alloc);
    for (class, file) in tree.folder().as_slice().iter().enumerate() {
        push_name(&mut text, tree, class)?;
        if let Some(failure) = push_each(alloc, &mut text, tree, class, file)? {
            return Some(failure);
        }
        text.push_str(" ;").ok()?;
    }
    Some(text)
}

// Appends the numbers of the frames of a class's methods, verified one by one, or gives the first failure.
fn push_each(
    alloc: Global,
    text: &mut String,
    tree: &Tree,
    class: usize,
    file: &ClassFile,
) -> Option<Option<String>>
    requires { IsLinked tree.now }
{
    for method in 0..file.methods.len() {
        let at = MethodAt { class, method };
        if !has_code(tree, at) {
            text.push_str(" -").ok()?;
            continue;
        }
        match verify_method(alloc, tree, at) {
            Ok(frames) => write!(text, " {}", frames.len()).ok()?,
            Err(fault) => return Some(Some(text_of_failure(alloc, &fault)?)),
        }
    }
    Some(None)
}

// Appends the name of a class of the folder.
fn push_name(text: &mut String, tree: &Tree, class: usize) -> Option<()> {
    if !text.is_empty() {
        text.push_str(" ").ok()?;
    }
    if let Some(header) = tree.header(Place::Folder(class)) {
        text.push_str(str::from_utf8(header.name.bytes()).ok()?)
            .ok()?;
    }
    Some(())
}
