//! Why what an instruction refers to breaks a rule of linking.
use crate::access::{is_hidden, put_hidden, why_hidden};
use crate::descriptors::{missing_of_descriptor, missing_of_name};
use crate::forms::{wrong_class, wrong_form};
use crate::hierarchy::put_nowhere;
use crate::lines::Lines;
use crate::pool_texts::utf8;
use crate::references::{
    MemberRef, Reference, Use, constant_of, descriptor_of, found_of, reference_of,
};
use class_model::{Const, Header, Instr, Text};
use class_tree::{LinkRule, Tree};

/// Writes what an instruction names and why that breaks the rule, behind words. Whether it does.
pub(crate) fn put_broken(lines: &mut Lines, user: &Use<'_>, words: &str, instr: &Instr) -> bool {
    match constant_of(user.pool, instr) {
        Some(Const::Class(name)) => match utf8(user.pool, *name) {
            Some(name) => put_class(lines, user, words, instr, name),
            None => false,
        },
        Some(constant) => match reference_of(user.pool, constant) {
            Some(reference) => put_member(lines, user, words, instr, &reference),
            None => put_descriptor(lines, user, words, constant),
        },
        None => false,
    }
}

fn put_class(lines: &mut Lines, user: &Use<'_>, words: &str, instr: &Instr, name: &Text) -> bool {
    let why = match user.rule {
        LinkRule::WrongForm => wrong_class(user.tree, instr, name),
        _ => "",
    };
    if why.is_empty() && !names_badly(user, name.bytes()) {
        return false;
    }
    lines.put(words);
    lines.name(name.bytes());
    lines.put("\n");
    lines.put(why);
    put_bad_name(lines, user, name.bytes());
    true
}

/// Whether the class that a name names is missing or not accessible, as the rule says.
pub(crate) fn names_badly(user: &Use<'_>, name: &[u8]) -> bool {
    match user.rule {
        LinkRule::Missing => missing_of_name(user.tree, name).is_some(),
        LinkRule::NoAccess => is_hidden(user.tree, user.from.bytes(), name),
        _ => false,
    }
}

/// Writes this of a class of which it holds.
pub(crate) fn put_bad_name(lines: &mut Lines, user: &Use<'_>, name: &[u8]) {
    match (user.rule, missing_of_name(user.tree, name)) {
        (LinkRule::Missing, Some(missing)) => put_missing(lines, user.tree, missing),
        (LinkRule::NoAccess, _) => put_hidden(lines, name),
        _ => {}
    }
}

/// Writes that a class is missing.
pub(crate) fn put_missing(lines: &mut Lines, tree: &Tree, name: &[u8]) {
    put_nowhere(lines, name, tree.folder().len(), tree.library().len());
}

// Of the classes of a descriptor.
fn put_descriptor(lines: &mut Lines, user: &Use<'_>, words: &str, constant: &Const) -> bool {
    let Some(desc) = descriptor_of(user.pool, constant) else {
        return false;
    };
    match (user.rule, missing_of_descriptor(user.tree, desc.bytes())) {
        (LinkRule::Missing, Some(missing)) => {
            lines.put(words);
            lines.name(desc.bytes());
            lines.put("\n");
            put_missing(lines, user.tree, missing);
            true
        }
        _ => false,
    }
}

fn put_member(
    lines: &mut Lines,
    user: &Use<'_>,
    words: &str,
    instr: &Instr,
    reference: &Reference<'_>,
) -> bool {
    if !breaks(user, instr, reference) {
        return false;
    }
    lines.put(words);
    lines.member(
        reference.class.bytes(),
        reference.name.bytes(),
        reference.desc.bytes(),
    );
    lines.put("\n");
    match user.rule {
        LinkRule::Missing => put_missing_of(lines, user.tree, reference),
        LinkRule::NoMember => put_not_found(lines, user.tree, reference),
        LinkRule::WrongForm => lines.put(why_form(user.tree, instr, reference)),
        _ => put_no_access(lines, user, reference),
    }
    true
}

// Whether a member breaks the rule.
fn breaks(user: &Use<'_>, instr: &Instr, reference: &Reference<'_>) -> bool {
    let tree = user.tree;
    match user.rule {
        LinkRule::Missing => {
            names_badly(user, reference.class.bytes())
                || missing_of_descriptor(tree, reference.desc.bytes()).is_some()
        }
        LinkRule::NoMember => found_of(tree, reference).is_none(),
        LinkRule::WrongForm => !why_form(tree, instr, reference).is_empty(),
        LinkRule::NoAccess => {
            names_badly(user, reference.class.bytes()) || !why_access(user, reference).is_empty()
        }
        _ => false,
    }
}

fn put_missing_of(lines: &mut Lines, tree: &Tree, reference: &Reference<'_>) {
    match missing_of_name(tree, reference.class.bytes()) {
        Some(missing) => put_missing(lines, tree, missing),
        None => {
            if let Some(missing) = missing_of_descriptor(tree, reference.desc.bytes()) {
                put_missing(lines, tree, missing);
            }
        }
    }
}

fn why_form(tree: &Tree, instr: &Instr, reference: &Reference<'_>) -> &'static str {
    match found_of(tree, reference) {
        Some(found) => wrong_form(tree, instr, reference, found.flags),
        None => "",
    }
}

fn why_access(user: &Use<'_>, reference: &Reference<'_>) -> &'static str {
    let Some(found) = found_of(user.tree, reference) else {
        return "";
    };
    match user.tree.header(found.place) {
        Some(header) => why_hidden(
            user.tree,
            user.from,
            reference.class,
            &header.name,
            found.flags,
        ),
        None => "",
    }
}

fn put_no_access(lines: &mut Lines, user: &Use<'_>, reference: &Reference<'_>) {
    if names_badly(user, reference.class.bytes()) {
        put_hidden(lines, reference.class.bytes());
        return;
    }
    lines.put("  it is ");
    lines.put(why_access(user, reference));
    lines.put("\n");
}

// That a member is not found, and one of its name that the class has.
fn put_not_found(lines: &mut Lines, tree: &Tree, reference: &Reference<'_>) {
    lines.put("  neither ");
    lines.name(reference.class.bytes());
    lines.put(" nor what is above it declares it\n");
    if let Some(place) = tree.place(reference.class) {
        if let Some(header) = tree.header(place) {
            put_like(lines, header, reference);
        }
    }
}

// The first field or method of the same name, if there is one.
fn put_like(lines: &mut Lines, header: &Header, reference: &Reference<'_>) {
    let members = match reference.kind {
        MemberRef::Field => header.fields.as_slice(),
        MemberRef::Method | MemberRef::InterfaceMethod => header.methods.as_slice(),
    };
    for member in members {
        if member.name.bytes() == reference.name.bytes() {
            lines.put("  there is ");
            lines.member(
                header.name.bytes(),
                member.name.bytes(),
                member.desc.bytes(),
            );
            lines.put("\n");
            return;
        }
    }
}
