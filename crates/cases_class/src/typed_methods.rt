//! What verifying a method answers.
use cases_notation::{Setting, last_method};
use class_model::{Member, MethodAt, Text};
use class_tree::{Place, Tree};
use member_link::check_links;
use std::alloc::Global;
use type_rules::{TypedFolder, TypedMethod, VerifyFault, has_code};
use verify_folder::{verify_all, verify_method};

/// What verifying the last method of the class with these uses answers, alone and with its folder, of which the other methods
/// verify: `ok` with the number of its frames, or where it fails and by which rule. The code begins with a nop, so the first
/// use is at 1.
pub(crate) fn method_answer(alloc: Global, setting: &Setting<'_>, uses: &str) -> Option<String> {
    let tree = setting.tree_using(alloc, uses)?;
    let told = last_answer(alloc, &tree, setting.class);
    // let go by a call, so that its drop is proved once
    drop(tree);
    told
}

// The same of the last method of the class of this name.
fn last_answer(alloc: Global, tree: &Tree, class: &str) -> Option<String> {
    let class = Text::of_bytes(alloc, class.as_bytes()).ok()?;
    answer_at(alloc, tree, last_method(tree, &class)?)
}

// What verifying a method of a folder answers.
fn answer_at(alloc: Global, tree: &Tree, at: MethodAt) -> Option<String> {
    let Ok(()) = check_links(alloc, tree) else {
        return None;
    };
    if !has_code(tree, at) {
        return None;
    }
    let alone = verify_method(alloc, tree, at);
    let folder = verify_all(alloc, tree);
    text_of_both(alloc, tree, at, &alone, &folder)
}

// The answer that a method has alone, and that of its folder where it is another.
fn text_of_both(
    alloc: Global,
    tree: &Tree,
    at: MethodAt,
    alone: &Result<TypedMethod, VerifyFault>,
    folder: &Result<TypedFolder, VerifyFault>,
) -> Option<String> {
    let told = text_of_method(alloc, tree, at, alone)?;
    let same = text_with_folder(alloc, tree, at, alone, folder)?;
    if told == same {
        Some(told)
    } else {
        format!(in alloc; "{told}, and of the folder {same}").ok()
    }
}

fn text_of_method(
    alloc: Global,
    tree: &Tree,
    at: MethodAt,
    answer: &Result<TypedMethod, VerifyFault>,
) -> Option<String> {
    match answer {
        Ok(frames) => {
            let count = frames.len();
            format!(in alloc; "ok {count}").ok()
        }
        Err(fault) => text_of_fault(alloc, tree, at, fault),
    }
}

// What the folder's answer says of a method, whose own answer is this.
fn text_with_folder(
    alloc: Global,
    tree: &Tree,
    at: MethodAt,
    alone: &Result<TypedMethod, VerifyFault>,
    folder: &Result<TypedFolder, VerifyFault>,
) -> Option<String> {
    let typed = match folder {
        Ok(typed) => typed.of(at),
        Err(fault) => return text_of_fault(alloc, tree, at, fault),
    };
    match (alone, typed) {
        (Ok(frames), Some(others)) if others == frames => text_of_method(alloc, tree, at, alone),
        (_, Some(_)) => String::from_str(alloc, "other frames").ok(),
        (_, None) => String::from_str(alloc, "no frames").ok(),
    }
}

// Where a method fails and by which rule, behind the name of the method where it is another.
fn text_of_fault(alloc: Global, tree: &Tree, at: MethodAt, fault: &VerifyFault) -> Option<String> {
    match fault {
        VerifyFault::Unverified {
            class,
            method,
            offset,
            rule,
        } if is_method(tree, at, class, method) => format!(in alloc; "{offset} {rule:?}").ok(),
        other => text_of_failure(alloc, other),
    }
}

/// A class, its method, an offset and the rule that fails there.
pub(crate) fn text_of_failure(alloc: Global, fault: &VerifyFault) -> Option<String> {
    let VerifyFault::Unverified {
        class,
        method,
        offset,
        rule,
    } = fault
    else {
        return None;
    };
    let class = str::from_utf8(class.bytes()).ok()?;
    let name = str::from_utf8(method.name.bytes()).ok()?;
    let desc = str::from_utf8(method.desc.bytes()).ok()?;
    format!(in alloc; "{class} {name} {desc} {offset} {rule:?}").ok()
}

// Whether this class and member are a method of the folder.
fn is_method(tree: &Tree, at: MethodAt, class: &Text, member: &Member) -> bool {
    let Some(header) = tree.header(Place::Folder(at.class)) else {
        return false;
    };
    let Some(own) = header.methods.get(at.method) else {
        return false;
    };
    header.name == *class
        && own.flags == member.flags
        && own.name == member.name
        && own.desc == member.desc
}
