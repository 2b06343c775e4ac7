//! What is answered to a question, as a text.
ghost use Rattle.type_rules.specs.Verified.{TypesFolder};

use crate::edits::edit_answer;
use crate::flat_code::{copy_answer, flat_answer};
use crate::flats::{alone_answer, expand_answer, handlers_answer, typed_answer};
use crate::layouts::layout_answer;
use crate::making::making_answer;
use crate::plans::plan_answer;
use crate::states::state_answer;
use cases_notation::{Setting, word_and_rest};
use class_model::{MethodAt, Text};
use class_tree::{Place, Tree};
use inline_expand::{callee, candidate};
use member_link::check_links;
use std::alloc::Global;
use type_rules::TypedFolder;
use verify_folder::verify_all;

/// What is answered to a question. None where it is none, or memory runs out.
pub(crate) fn answer(alloc: Global, setting: &Setting<'_>, question: &str) -> Option<String> {
    let (call, about) = word_and_rest(question);
    match call {
        "candidate" | "callee" | "expand" | "alone" | "typed" | "handlers" => {
            verified_answer(alloc, setting, call, about)
        }
        "pool_edit" => edit_answer(alloc, about),
        "layout" | "lengths" => layout_answer(alloc, call, about),
        "flat" => flat_answer(alloc, setting, about),
        "handler_list" => copy_answer(alloc, about),
        "least_plan" | "plan_gain" => plan_answer(alloc, setting, call, about),
        "make_order" | "make_code" | "restack" => making_answer(alloc, setting, call, about),
        _ => state_answer(alloc, call, about),
    }
}

// What is answered about the folder of the setting, where it verifies.
fn verified_answer(
    alloc: Global,
    setting: &Setting<'_>,
    call: &str,
    about: &str,
) -> Option<String> {
    let tree = setting.tree_with(alloc, setting.folder)?;
    let answer = tree_answer(alloc, &tree, call, about);
    drop(tree);
    answer
}

// What is answered about a folder, where it verifies.
fn tree_answer(alloc: Global, tree: &Tree, call: &str, about: &str) -> Option<String> {
    check_links(alloc, tree).ok()?;
    let typed = verify_all(alloc, tree).ok()?;
    let answer = words_answer(alloc, tree, &typed, call, about);
    drop(typed);
    answer
}

// What is answered to words about a folder that its frames type.
fn words_answer(
    alloc: Global,
    tree: &Tree,
    typed: &TypedFolder,
    call: &str,
    about: &str,
) -> Option<String>
    requires { TypesFolder tree.now typed.now }
{
    let words = about.split(' ').collect::<Vec<&str>>(alloc).ok()?;
    folder_answer(alloc, tree, typed, call, words.as_slice())
}

// What is answered about a folder that its frames type.
fn folder_answer(
    alloc: Global,
    tree: &Tree,
    typed: &TypedFolder,
    call: &str,
    words: &[&str],
) -> Option<String>
    requires { TypesFolder tree.now typed.now }
{
    match (call, words) {
        ("candidate", [name]) => candidate_answer(alloc, tree, name),
        ("callee", [host, class, method, at]) => {
            let host = class_number(alloc, tree, host)?;
            let from = method_at(alloc, tree, class, method)?;
            callee_answer(alloc, tree, typed, host, from, at.parse::<u32>().ok()?)
        }
        ("expand", [class, method]) => {
            let at = method_at(alloc, tree, class, method)?;
            expand_answer(alloc, tree, typed, at)
        }
        ("alone", [class, method]) => {
            let at = method_at(alloc, tree, class, method)?;
            alone_answer(alloc, tree, typed, at)
        }
        ("typed", [class, method, point]) => {
            let at = method_at(alloc, tree, class, method)?;
            typed_answer(alloc, tree, typed, at, point.parse::<usize>().ok()?)
        }
        ("handlers", [class, method, point]) => {
            let at = method_at(alloc, tree, class, method)?;
            handlers_answer(alloc, tree, typed, at, point.parse::<usize>().ok()?)
        }
        _ => None,
    }
}

fn candidate_answer(alloc: Global, tree: &Tree, name: &str) -> Option<String> {
    let name = Text::of_bytes(alloc, name.as_bytes()).ok()?;
    let is_candidate = candidate(alloc, tree, &name).ok()?;
    format!(in alloc; "{is_candidate}").ok()
}

fn callee_answer(
    alloc: Global,
    tree: &Tree,
    typed: &TypedFolder,
    host: usize,
    from: MethodAt,
    at: u32,
) -> Option<String> {
    match callee(alloc, tree, typed, host, from, at).ok()? {
        Some(found) => method_text(alloc, tree, found),
        None => String::from_str(alloc, "-").ok(),
    }
}

// The number of the class of a name in the folder.
fn class_number(alloc: Global, tree: &Tree, name: &str) -> Option<usize> {
    match tree.place(&Text::of_bytes(alloc, name.as_bytes()).ok()?) {
        Some(Place::Folder(class)) => Some(class),
        _ => None,
    }
}

// The method of a class and a number.
fn method_at(alloc: Global, tree: &Tree, class: &str, method: &str) -> Option<MethodAt> {
    Some(MethodAt {
        class: class_number(alloc, tree, class)?,
        method: method.parse::<usize>().ok()?,
    })
}

// The class, name and descriptor of a method.
fn method_text(alloc: Global, tree: &Tree, at: MethodAt) -> Option<String> {
    let header = tree.header(Place::Folder(at.class))?;
    let member = header.methods.get(at.method)?;
    let class = str::from_utf8(header.name.bytes()).ok()?;
    let name = str::from_utf8(member.name.bytes()).ok()?;
    let desc = str::from_utf8(member.desc.bytes()).ok()?;
    format!(in alloc; "{class} {name} {desc}").ok()
}
