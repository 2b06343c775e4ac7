//! What look-up, selection, access and linking answer.
use class_model::{ACC_STATIC, Text, has};
use class_tree::{LinkFault, Tree};
use member_link::{
    CallForm, Found, Selected, accessible, check_links, find_field, find_method, select,
};
use std::alloc::Global;

/// What linking a folder answers: `ok`, or the class, the member and the rule that is broken.
pub(crate) fn linking(alloc: Global, tree: &Tree) -> Option<String> {
    match check_links(alloc, tree) {
        Ok(()) => String::from_str(alloc, "ok").ok(),
        Err(fault) => {
            let told = text_of_problem(alloc, &fault);
            // let go by a call, so that its drop is proved once
            drop(fault);
            told
        }
    }
}

// A problem of linking: its class, its member and its rule.
fn text_of_problem(alloc: Global, fault: &LinkFault) -> Option<String> {
    let LinkFault::Unlinked {
        class,
        member,
        rule,
    } = fault
    else {
        return None;
    };
    let class = str::from_utf8(class.bytes()).ok()?;
    let name = str::from_utf8(member.name.bytes()).ok()?;
    let desc = str::from_utf8(member.desc.bytes()).ok()?;
    format!(in alloc; "{class} {name} {desc} {rule:?}").ok()
}

// A member as a case names it: the class that is named, a name and a descriptor.
#[derive(Drop)]
struct Named {
    class: Text,
    name: Text,
    desc: Text,
}

impl Named {
    // The member of three words.
    fn of(alloc: Global, words: &[&str]) -> Option<Self> {
        let [class, name, desc] = words else {
            return None;
        };
        Some(Named {
            class: Text::of_bytes(alloc, class.as_bytes()).ok()?,
            name: Text::of_bytes(alloc, name.as_bytes()).ok()?,
            desc: Text::of_bytes(alloc, desc.as_bytes()).ok()?,
        })
    }
}

/// The class whose field is found.
pub(crate) fn field_owner(alloc: Global, tree: &Tree, member: &[&str]) -> Option<String> {
    let named = Named::of(alloc, member)?;
    let found = find_field(tree, &named.class, &named.name, &named.desc);
    owner(alloc, tree, found)
}

/// The class whose method is found.
pub(crate) fn method_owner(alloc: Global, tree: &Tree, member: &[&str]) -> Option<String> {
    let named = Named::of(alloc, member)?;
    let found = find_method(tree, &named.class, &named.name, &named.desc);
    owner(alloc, tree, found)
}

// The name of the class of what is found.
fn owner(alloc: Global, tree: &Tree, found: Option<Found>) -> Option<String> {
    match found.and_then(|found| tree.header(found.place)) {
        Some(header) => { String::from_str(alloc, str::from_utf8(header.name.bytes()).ok()?).ok() }
        None => String::from_str(alloc, "-").ok(),
    }
}

/// The class whose method a call selects, or why there is none.
pub(crate) fn selection(
    alloc: Global,
    tree: &Tree,
    form: &str,
    receiver: &str,
    member: &[&str],
) -> Option<String> {
    let receiver = Text::of_bytes(alloc, receiver.as_bytes()).ok()?;
    let named = Named::of(alloc, member)?;
    match selected(tree, &receiver, &named, form_of(form)?) {
        Some(Selected::Found(found)) => owner(alloc, tree, Some(found)),
        Some(selected) => format!(in alloc; "{selected:?}").ok(),
        None => String::from_str(alloc, "-").ok(),
    }
}

// The form of a call that a word says.
fn form_of(word: &str) -> Option<CallForm> {
    Some(match word {
        "Virtual" => CallForm::Virtual,
        "Interface" => CallForm::Interface,
        "Special" => CallForm::Special,
        _ => return None,
    })
}

// What a call selects of a method that is found and not static.
fn selected(tree: &Tree, receiver: &Text, named: &Named, form: CallForm) -> Option<Selected> {
    let found = find_method(tree, &named.class, &named.name, &named.desc)?;
    if has(found.flags, ACC_STATIC) {
        return None;
    }
    Some(select(tree, receiver, found, form))
}

/// Whether a method that is found is accessible from a class, `yes` or `no`.
pub(crate) fn access(alloc: Global, tree: &Tree, from: &str, member: &[&str]) -> Option<String> {
    let from = Text::of_bytes(alloc, from.as_bytes()).ok()?;
    let named = Named::of(alloc, member)?;
    let found = find_method(tree, &named.class, &named.name, &named.desc);
    let told = match found.map(|found| accessible(tree, &from, &named.class, found)) {
        Some(true) => "yes",
        Some(false) => "no",
        None => "-",
    };
    String::from_str(alloc, told).ok()
}
