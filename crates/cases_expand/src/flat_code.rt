//! What is answered to questions about flat code that a text says.
use crate::points::{Parts, handlers_in, host_of, parts_in, tree_of};
use cases_notation::Setting;
use cases_rewrite::flat_of;
use class_tree::Tree;
use flow_code::Flat;
use std::alloc::Global;

/// What flat code shows: the class and the number of its method, how many points and local units it has, its sites, and of each number up
/// to that of its points the instruction, whether there are types, and the handlers. `-` where it is not well formed.
pub(crate) fn flat_answer(alloc: Global, setting: &Setting<'_>, about: &str) -> Option<String> {
    let tree = tree_of(alloc, setting, about)?;
    let answer = tree_answer(alloc, setting, &tree, about);
    drop(tree);
    answer
}

fn tree_answer(alloc: Global, setting: &Setting<'_>, tree: &Tree, about: &str) -> Option<String> {
    let host = host_of(alloc, setting, tree)?;
    let Parts {
        locals,
        sites,
        points,
    } = parts_in(alloc, tree, host, about)?;
    match flat_of(host, locals, points, sites) {
        Some(flat) => {
            let text = flat_text(alloc, &flat);
            drop(flat);
            text
        }
        None => String::from_str(alloc, "-").ok(),
    }
}

fn flat_text(alloc: Global, flat: &Flat) -> Option<String> {
    let (host, sites) = (flat.host(), flat.sites().as_slice());
    let mut out = format!(in alloc;
        "{} {} {} {} {sites:?}",
        host.class,
        host.method,
        flat.len(),
        flat.locals()
    )
    .ok()?;
    for at in 0..=flat.len() {
        push_point(&mut out, flat, at)?;
    }
    Some(out)
}

fn push_point(out: &mut String, flat: &Flat, at: usize) -> Option<()> {
    let handlers = flat.handlers(at).map(|list| list.as_slice());
    let is_typed = flat.typed(at).is_some();
    write!(out, " ; {:?} {is_typed} {handlers:?}", flat.instr(at)).ok()
}

/// The handlers that words say, how many they are, and those of a copy to which a copy of the first was appended.
pub(crate) fn copy_answer(alloc: Global, words: &str) -> Option<String> {
    let handlers = handlers_in(alloc, words)?;
    let mut copy = handlers.copy().ok()?;
    if let Some(first) = handlers.get(0) {
        copy.push(first.copy().ok()?).ok()?;
    }
    let (count, is_empty) = (handlers.len(), handlers.is_empty());
    let (handlers, copy) = (handlers.as_slice(), copy.as_slice());
    format!(in alloc; "{handlers:?} {count} {is_empty}; {copy:?}").ok()
}
