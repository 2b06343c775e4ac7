//! Classes that are no hierarchy.
use crate::lines::Lines;
use crate::missing::Missing;
use crate::outlines::Outlines;
use crate::pool_texts::class_name;
use class_model::{ClassFile, NoMemory, Text};
use class_tree::{LinkRule, OBJECT};
use std::alloc::Global;

/// The class files of the input with the names of their files, and what is kept of the library.
#[derive(Clone, Copy)]
pub struct Folders<'a> {
    pub input: &'a [ClassFile],
    pub names: &'a [String],
    pub library: &'a Outlines,
}

/// Explains why classes are no hierarchy: the class that breaks a rule, what it names, and of a class that is missing where it
/// was looked for.
pub fn explain_hierarchy(
    alloc: Global,
    folders: &Folders<'_>,
    class: &Text,
    rule: LinkRule,
) -> Result<String, NoMemory> {
    let mut lines = Lines::new(alloc);
    let name = class.bytes();
    lines.put("pea: error: ");
    lines.name(name);
    lines.put(" is not linked: ");
    lines.put(rule.text());
    lines.put("\n");
    match rule {
        LinkRule::Missing => {
            put_missing(&mut lines, folders, name);
            if has(folders, OBJECT) {
                let _ = put_all(alloc, &mut lines, folders);
            }
        }
        LinkRule::Duplicate => put_copies(&mut lines, folders, name),
        LinkRule::NoMember => {
            lines.put(
                "  java/lang/Object of LIB must have one constructor, public and without parameters\n",
            );
        }
        _ => put_supers(&mut lines, folders, name),
    }
    lines.finish()
}

/// Writes that a class is nowhere, and how many classes were looked through.
pub(crate) fn put_nowhere(lines: &mut Lines, name: &[u8], input: usize, library: usize) {
    lines.put("  ");
    lines.name(name);
    lines.put(" is not among the classes of IN (");
    lines.number(input as u64);
    lines.put(") and LIB (");
    lines.number(library as u64);
    lines.put(")\n");
    if name == OBJECT {
        lines.put(
            "  scripts/jdk-library.sh LIB makes a library of the machine's JDK, which has it\n",
        );
    }
}

// Which class is missing: one that the class names, else the class itself, which the library must have.
fn put_missing(lines: &mut Lines, folders: &Folders<'_>, class: &[u8]) {
    match missing_above(folders, class) {
        Some(name) => put_nowhere(
            lines,
            name,
            folders.input.len(),
            folders.library.classes.len(),
        ),
        None if has_input(folders, class) => {
            lines.put("  every program needs it in LIB, whatever IN has\n");
        }
        None => put_nowhere(
            lines,
            class,
            folders.input.len(),
            folders.library.classes.len(),
        ),
    }
}

// All classes that class files of the input and headers of the library name and that are nowhere. Where memory runs out nothing is
// written.
fn put_all(alloc: Global, lines: &mut Lines, folders: &Folders<'_>) -> Result<(), NoMemory> {
    let mut missing = Missing::new(alloc);
    for name in folders.library.classes.as_slice() {
        missing.add_known(name.bytes())?;
    }
    for file in folders.input {
        if let Some(name) = class_name(&file.pool, file.this_class) {
            missing.add_known(name.bytes())?;
        }
    }
    for file in folders.input {
        missing.add_file(file)?;
    }
    for one in folders.library.supers.as_slice() {
        missing.add_name(one.above.bytes())?;
    }
    missing.put(lines)
}

// The first class that a class names above it and that is nowhere.
fn missing_above<'a>(folders: &Folders<'a>, class: &[u8]) -> Option<&'a [u8]> {
    for file in folders.input {
        if is_named(file, class) {
            return missing_of_file(folders, file);
        }
    }
    for one in folders.library.supers.as_slice() {
        if one.class.bytes() == class && !has(folders, one.above.bytes()) {
            return Some(one.above.bytes());
        }
    }
    None
}

fn missing_of_file<'a>(folders: &Folders<'a>, file: &'a ClassFile) -> Option<&'a [u8]> {
    if let Some(name) = missing_at(folders, file, file.super_class) {
        return Some(name);
    }
    for interface in file.interfaces.as_slice() {
        if let Some(name) = missing_at(folders, file, *interface) {
            return Some(name);
        }
    }
    None
}

// The class that a constant of a class file is, where it is nowhere.
fn missing_at<'a>(folders: &Folders<'a>, file: &'a ClassFile, index: u16) -> Option<&'a [u8]> {
    let name = class_name(&file.pool, index)?;
    if has(folders, name.bytes()) {
        None
    } else {
        Some(name.bytes())
    }
}

// Whether the input or the library has a class of this name.
fn has(folders: &Folders<'_>, name: &[u8]) -> bool {
    has_input(folders, name) || folders.library.has(name)
}

fn has_input(folders: &Folders<'_>, name: &[u8]) -> bool {
    copies_in_input(folders, name) > 0
}

fn copies_in_input(folders: &Folders<'_>, name: &[u8]) -> u64 {
    let mut count: u64 = 0;
    for file in folders.input {
        if is_named(file, name) {
            count = count.saturating_add(1);
        }
    }
    count
}

fn is_named(file: &ClassFile, name: &[u8]) -> bool {
    match class_name(&file.pool, file.this_class) {
        Some(own) => own.bytes() == name,
        None => false,
    }
}

// How often a class is there, and in which files of the input.
fn put_copies(lines: &mut Lines, folders: &Folders<'_>, class: &[u8]) {
    lines.put("  class files with this class in IN: ");
    lines.number(copies_in_input(folders, class));
    lines.put(", in LIB: ");
    lines.number(folders.library.copies(class));
    lines.put("; the name inside the file counts\n");
    for (file, name) in folders.input.iter().zip(folders.names) {
        if is_named(file, class) {
            lines.put("  IN/");
            lines.name(name.as_str().as_bytes());
            lines.put("\n");
        }
    }
}

// What a class names above it.
fn put_supers(lines: &mut Lines, folders: &Folders<'_>, class: &[u8]) {
    for file in folders.input {
        if is_named(file, class) {
            put_supers_of(lines, file);
            return;
        }
    }
    for one in folders.library.supers.as_slice() {
        if one.class.bytes() == class {
            put_above(lines, "  in LIB it is below ", one.above.bytes());
        }
    }
}

fn put_supers_of(lines: &mut Lines, file: &ClassFile) {
    if let Some(name) = class_name(&file.pool, file.super_class) {
        put_above(lines, "  its superclass is ", name.bytes());
    }
    for interface in file.interfaces.as_slice() {
        if let Some(name) = class_name(&file.pool, *interface) {
            put_above(lines, "  it has the interface ", name.bytes());
        }
    }
}

fn put_above(lines: &mut Lines, words: &str, name: &[u8]) {
    lines.put(words);
    lines.name(name);
    lines.put("\n");
}
