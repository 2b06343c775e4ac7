//! What is answered to a question, as a text.
use crate::hierarchies::{
    building, member_place, place_of_class, superclass_names, superinterface_names,
};
use crate::linking::{access, field_owner, linking, method_owner, selection};
use crate::rules::{assignability, frame_assignability, rule_answer};
use crate::typed_folders::{folder_answer, typed_answer};
use crate::typed_methods::method_answer;
use cases_notation::{Setting, word_and_rest};
use class_model::Text;
use class_tree::{Tree, is_sub};
use std::alloc::Global;

/// What is answered to a question. None where it is none, or memory runs out.
pub(crate) fn answer(alloc: Global, setting: &Setting<'_>, question: &str) -> Option<String> {
    let (call, about) = word_and_rest(question);
    match call {
        "build_tree" => building(alloc, setting.input_with(alloc, about)?),
        "verify_method" => method_answer(alloc, setting, about),
        "rule" => rule_answer(alloc, setting, about),
        _ => {
            let folder = match call {
                "check_links" | "verify_all" => about,
                _ => setting.folder,
            };
            let tree = setting.tree_with(alloc, folder)?;
            let told = answer_of_tree(alloc, &tree, call, about);
            // let go by a call, so that its drop is proved once
            drop(tree);
            told
        }
    }
}

// What is answered to a question about a hierarchy.
fn answer_of_tree(alloc: Global, tree: &Tree, call: &str, about: &str) -> Option<String> {
    match call {
        "check_links" => linking(alloc, tree),
        "verify_all" => folder_answer(alloc, tree),
        "assignable" => assignability(alloc, tree, about),
        "frame_assignable" => frame_assignability(alloc, tree, about),
        "typed" => typed_answer(alloc, tree, about),
        _ => {
            let words = about.split(' ').collect::<Vec<&str>>(alloc).ok()?;
            answer_of_words(alloc, tree, call, &words)
        }
    }
}

// What is answered to a question about names and descriptors.
fn answer_of_words(alloc: Global, tree: &Tree, call: &str, words: &[&str]) -> Option<String> {
    match (call, words) {
        ("is_sub", [low, high]) => subtyping(alloc, tree, low, high),
        ("superclasses", [name]) => superclass_names(alloc, tree, name),
        ("superinterfaces", [name]) => superinterface_names(alloc, tree, name),
        ("place", [name]) => place_of_class(alloc, tree, name),
        ("field" | "method", member) => member_place(alloc, tree, call, member),
        ("find_field", member) => field_owner(alloc, tree, member),
        ("find_method", member) => method_owner(alloc, tree, member),
        ("select", [form, receiver, member @ ..]) => {
            selection(alloc, tree, form, receiver, member)
        }
        ("accessible", [from, member @ ..]) => access(alloc, tree, from, member),
        _ => None,
    }
}

fn subtyping(alloc: Global, tree: &Tree, low: &str, high: &str) -> Option<String> {
    let low = Text::of_bytes(alloc, low.as_bytes()).ok()?;
    let high = Text::of_bytes(alloc, high.as_bytes()).ok()?;
    let is_below = is_sub(tree, &low, &high);
    format!(in alloc; "{is_below}").ok()
}
