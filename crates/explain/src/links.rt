//! Members and classes of a hierarchy that are not linked.
use crate::descriptors::missing_of_descriptor;
use crate::lines::Lines;
use crate::missing::put_all_missing;
use crate::mnemonics::mnemonic_at;
use crate::places::{class_of, code_at, method_at};
use crate::pool_texts::class_name;
use crate::reasons::{names_badly, put_bad_name, put_broken, put_missing};
use crate::references::Use;
use class_model::{ACC_FINAL, CodePart, Header, Member, NoMemory, Placed, Text, has};
use class_tree::{LinkRule, Place, Tree};
use code_bytes::decode;
use member_link::class_accessible;
use std::alloc::Global;

/// Explains why a class or a member of it is not linked: what it refers to that is missing, not found, not accessible or of
/// the wrong form, and where.
pub fn explain_links(
    alloc: Global,
    tree: &Tree,
    class: &Text,
    member: &Member,
    rule: LinkRule,
) -> Result<String, NoMemory> {
    let mut lines = Lines::new(alloc);
    lines.put("pea: error: ");
    lines.member(class.bytes(), member.name.bytes(), member.desc.bytes());
    lines.put(" is not linked: ");
    lines.put(rule.text());
    lines.put("\n");
    if member.name.bytes().is_empty() {
        put_supers(&mut lines, tree, class);
    } else if !put_declared(&mut lines, tree, class, member, rule) {
        put_used(alloc, &mut lines, tree, class, member, rule);
    }
    if rule == LinkRule::Missing {
        put_all_missing(alloc, &mut lines, tree);
    }
    lines.finish()
}

// The classes above a class that are not accessible from it.
fn put_supers(lines: &mut Lines, tree: &Tree, class: &Text) {
    let Some(place) = tree.place(class) else {
        return;
    };
    let Some(header) = tree.header(place) else {
        return;
    };
    if let Some(name) = &header.super_name {
        put_hidden_super(lines, tree, class, name);
    }
    for name in header.interfaces.as_slice() {
        put_hidden_super(lines, tree, class, name);
    }
}

fn put_hidden_super(lines: &mut Lines, tree: &Tree, class: &Text, name: &Text) {
    if !class_accessible(tree, class, name) {
        lines.put("  it is below ");
        lines.name(name.bytes());
        lines.put(", which is not public and is of another package\n");
    }
}

// Whether it is the declaration of a member that breaks a rule, which is then said.
fn put_declared(
    lines: &mut Lines,
    tree: &Tree,
    class: &Text,
    member: &Member,
    rule: LinkRule,
) -> bool {
    match (rule, missing_of_descriptor(tree, member.desc.bytes())) {
        (LinkRule::Missing, Some(name)) => {
            put_missing(lines, tree, name);
            true
        }
        (LinkRule::FinalOverridden, _) => {
            put_overridden(lines, tree, class, member);
            true
        }
        _ => false,
    }
}

// The classes above that declare the method as final.
fn put_overridden(lines: &mut Lines, tree: &Tree, class: &Text, member: &Member) {
    let mut next = tree.place(class);
    for _ in 0..tree.folder().len() {
        if let Some(place) = next {
            next = tree.superclass(place);
        }
        if let Some(above) = next {
            put_final(lines, tree, above, member);
        }
    }
}

fn put_final(lines: &mut Lines, tree: &Tree, above: Place, member: &Member) {
    if let Some(header) = tree.header(above) {
        if is_final_in(tree, above, header, member) {
            lines.put("  it is final in ");
            lines.name(header.name.bytes());
            lines.put("\n");
        }
    }
}

fn is_final_in(tree: &Tree, above: Place, header: &Header, member: &Member) -> bool {
    let Some(number) = tree.method(above, &member.name, &member.desc) else {
        return false;
    };
    match header.methods.get(number) {
        Some(method) => has(method.flags, ACC_FINAL),
        None => false,
    }
}

// Which instruction or table of a method's code refers to what breaks a rule.
fn put_used(
    alloc: Global,
    lines: &mut Lines,
    tree: &Tree,
    class: &Text,
    member: &Member,
    rule: LinkRule,
) {
    let Some(at) = method_at(tree, class, member) else {
        return;
    };
    let Some(file) = class_of(tree, at) else {
        return;
    };
    let user = Use {
        tree,
        from: class,
        pool: &file.pool,
        rule,
    };
    if let Some(part) = code_at(tree, at) {
        if !put_instruction(alloc, lines, &user, part) {
            put_named(lines, &user, part);
        }
    }
}

// Whether an instruction refers to what breaks a rule, which is then said.
fn put_instruction(alloc: Global, lines: &mut Lines, user: &Use<'_>, part: &CodePart) -> bool {
    let Ok(instructions) = decode(alloc, part.code.as_slice()) else {
        return false;
    };
    put_first(lines, user, part, instructions.as_slice())
}

fn put_first(lines: &mut Lines, user: &Use<'_>, part: &CodePart, instructions: &[Placed]) -> bool {
    for placed in instructions {
        if put_broken(lines, user, "  an instruction of it names ", &placed.instr) {
            lines.put("  the instruction is ");
            lines.put(mnemonic_at(part.code.as_slice(), placed.at as usize));
            lines.put(" at offset ");
            lines.number(u64::from(placed.at));
            lines.put("\n");
            return true;
        }
    }
    false
}

// The first class of the exception table that breaks the rule, else the first of the constant pool.
fn put_named(lines: &mut Lines, user: &Use<'_>, part: &CodePart) {
    for handler in part.handlers.as_slice() {
        if is_bad(user, handler.catch_type) {
            lines.put("  its exception table names a class:\n");
            put_bad(lines, user, handler.catch_type);
            return;
        }
    }
    for index in 1..user.pool.count() {
        if is_bad(user, index) {
            lines.put("  a stack map frame of it names a class:\n");
            put_bad(lines, user, index);
            return;
        }
    }
}

fn is_bad(user: &Use<'_>, index: u16) -> bool {
    match class_name(user.pool, index) {
        Some(name) => names_badly(user, name.bytes()),
        None => false,
    }
}

fn put_bad(lines: &mut Lines, user: &Use<'_>, index: u16) {
    if let Some(name) = class_name(user.pool, index) {
        put_bad_name(lines, user, name.bytes());
    }
}
