//! All classes that class files name and that are nowhere.
use crate::descriptors::class_of_part;
use crate::lines::Lines;
use class_model::{ClassFile, Const, NoMemory, Pool};
use class_tree::{OBJECT, Tree};
use std::alloc::Global;
use std::collections::HashSet;

// How many lines are shown, a package in each.
const MOST_LINES: usize = 19;

/// A class by its package and its name in it.
type Named<'a> = (&'a [u8], &'a [u8]);

/// The classes that are there, and those that class files name and that are not.
#[derive(Drop)]
pub(crate) struct Missing<'a> {
    known: HashSet<&'a [u8]>,
    names: Vec<Named<'a>>,
}

impl<'a> Missing<'a> {
    /// No class.
    pub(crate) fn new(alloc: Global) -> Self {
        Missing {
            known: HashSet::new(alloc),
            names: Vec::new(alloc),
        }
    }

    /// Adds a class that is there.
    pub(crate) fn add_known(&mut self, name: &'a [u8]) -> Result<(), NoMemory> {
        self.known.insert(name)?;
        Ok(())
    }

    /// Adds what a class file names, after all classes that are there.
    pub(crate) fn add_file(&mut self, file: &'a ClassFile) -> Result<(), NoMemory> {
        for index in 1..file.pool.count() {
            self.add_constant(&file.pool, index)?;
        }
        for field in file.fields.as_slice() {
            self.add_descriptor_at(&file.pool, field.desc)?;
        }
        for method in file.methods.as_slice() {
            self.add_descriptor_at(&file.pool, method.desc)?;
        }
        Ok(())
    }

    fn add_constant(&mut self, pool: &'a Pool, index: u16) -> Result<(), NoMemory> {
        match pool.get(index) {
            Some(Const::Class(name)) => self.add_class_at(pool, *name),
            Some(Const::NameAndType(_, desc) | Const::MethodType(desc)) => {
                self.add_descriptor_at(pool, *desc)
            }
            _ => Ok(()),
        }
    }

    fn add_class_at(&mut self, pool: &'a Pool, index: u16) -> Result<(), NoMemory> {
        match pool.utf8(index) {
            Some(name) if name.bytes().starts_with(b"[") => self.add_descriptor(name.bytes()),
            Some(name) => self.add_name(name.bytes()),
            None => Ok(()),
        }
    }

    fn add_descriptor_at(&mut self, pool: &'a Pool, index: u16) -> Result<(), NoMemory> {
        match pool.utf8(index) {
            Some(desc) => self.add_descriptor(desc.bytes()),
            None => Ok(()),
        }
    }

    fn add_descriptor(&mut self, desc: &'a [u8]) -> Result<(), NoMemory> {
        for part in desc.split(|byte| *byte == b';') {
            if let Some(name) = class_of_part(part) {
                self.add_name(name)?;
            }
        }
        Ok(())
    }

    /// Adds a class that is named, if it is nowhere.
    pub(crate) fn add_name(&mut self, name: &'a [u8]) -> Result<(), NoMemory> {
        if !self.known.contains(&name) {
            self.known.insert(name)?;
            self.names.push(in_package(name))?;
        }
        Ok(())
    }

    /// Writes the classes that are nowhere, by package, where there are two or more, and how they are added.
    pub(crate) fn put(mut self, lines: &mut Lines) -> Result<(), NoMemory> {
        if self.names.len() > 1 {
            self.names.sort()?;
            put_packages(lines, self.names.as_slice());
        }
        if !self.names.is_empty() {
            lines.put("  scripts/library.sh LIB JAR.. adds the classes of jars to LIB\n");
        }
        if names_java(self.names.as_slice()) {
            lines.put("  scripts/jdk-library.sh LIB makes a library of the machine's JDK\n");
        }
        Ok(())
    }
}

/// Writes all classes that the class files of a hierarchy's folder name and that are nowhere, by package, and how they are added. Where
/// memory runs out nothing is written.
pub(crate) fn put_all_missing(alloc: Global, lines: &mut Lines, tree: &Tree) {
    if tree.find(OBJECT).is_some() {
        let _ = put_missing_of_tree(alloc, lines, tree);
    }
}

fn put_missing_of_tree(alloc: Global, lines: &mut Lines, tree: &Tree) -> Result<(), NoMemory> {
    let mut missing = Missing::new(alloc);
    for header in tree.library().as_slice() {
        missing.add_known(header.name.bytes())?;
    }
    for file in tree.folder().as_slice() {
        if let Some(name) = file.pool.class_name(file.this_class) {
            missing.add_known(name.bytes())?;
        }
    }
    for file in tree.folder().as_slice() {
        missing.add_file(file)?;
    }
    missing.put(lines)
}

// Whether a class of a package below java is among names.
fn names_java(names: &[Named<'_>]) -> bool {
    for (of, _) in names {
        if of.starts_with(b"java/") {
            return true;
        }
    }
    false
}

// Packages, a line for each, with the names of their classes; a last line says how many are left out.
fn put_packages(lines: &mut Lines, names: &[Named<'_>]) {
    lines.put("  classes that are missing, by package: ");
    lines.number(names.len() as u64);
    let mut package: Option<&[u8]> = None;
    let mut shown: usize = 0;
    let mut left: u64 = 0;
    for (of, name) in names {
        if package != Some(*of) {
            package = Some(*of);
            shown = shown.saturating_add(1);
            if shown <= MOST_LINES {
                put_package(lines, of);
            }
        }
        if shown <= MOST_LINES {
            lines.put(" ");
            lines.name(name);
        } else {
            left = left.saturating_add(1);
        }
    }
    lines.put("\n");
    if left > 0 {
        lines.put("    and of further packages: ");
        lines.number(left);
        lines.put("\n");
    }
}

fn put_package(lines: &mut Lines, package: &[u8]) {
    lines.put("\n    ");
    if package.is_empty() {
        lines.put("without a package");
    } else {
        lines.name(package);
    }
    lines.put(":");
}

// A class by its package, which ends before the last slash, and its name in it.
fn in_package(name: &[u8]) -> Named<'_> {
    match name.iter().rposition(|byte| *byte == b'/') {
        Some(at) => (
            name.get(..at).unwrap_or(&[]),
            name.get(at.saturating_add(1)..).unwrap_or(&[]),
        ),
        None => (&[], name),
    }
}
