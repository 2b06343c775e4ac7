//! What the cases of a file are asked over.
use crate::input::Input;
use crate::lines::word_and_rest;
use class_tree::Tree;
use std::alloc::Global;

/// The classes that cases are asked over, in their notation.
#[derive(Clone, Copy)]
pub struct Setting<'a> {
    /// The classes of the folder.
    pub folder: &'a str,
    /// What the library has beside the usual classes.
    pub library: &'a str,
    /// The names of the usual classes that the library lacks, or `*` for all.
    pub without: &'a str,
    /// The class whose last method is asked.
    pub class: &'a str,
}

impl<'a> Setting<'a> {
    /// No class but the usual ones of the library.
    pub fn empty() -> Self {
        Setting {
            folder: "",
            library: "",
            without: "",
            class: "",
        }
    }

    /// Sets what a statement says. False where it is no setting.
    pub fn take(&mut self, statement: &'a str) -> bool {
        let (word, said) = word_and_rest(statement);
        match word {
            "folder" => self.folder = said,
            "library" => self.library = said,
            "without" => self.without = said,
            "class" => self.class = said,
            _ => return false,
        }
        true
    }

    /// A folder of these classes, and the library. None where they are not in the notation or memory runs out.
    pub fn input_with(&self, alloc: Global, folder: &str) -> Option<Input> {
        let mut input = usual(alloc, self.without)?;
        match input.add_all(alloc, folder, self.library) {
            Ok(()) => Some(input),
            Err(_) => {
                drop(input);
                None
            }
        }
    }

    /// The hierarchy of a folder of these classes and of the library. None where there is none.
    pub fn tree_with(&self, alloc: Global, folder: &str) -> Option<Tree> {
        self.input_with(alloc, folder)?.build(alloc).ok()
    }

    /// The hierarchy of the folder and the library, the last method of the folder with these uses besides. None where there is
    /// none.
    pub fn tree_using(&self, alloc: Global, uses: &str) -> Option<Tree> {
        self.tree_with(alloc, &with_uses(alloc, self.folder, uses)?)
    }
}

// The usual classes of the library but those of these names.
fn usual(alloc: Global, without: &str) -> Option<Input> {
    if without == "*" {
        return Some(Input::empty(alloc));
    }
    let names = without.split(' ').collect::<Vec<&str>>(alloc).ok()?;
    Input::without(alloc, &names).ok()
}

// The classes of a folder, the last method with these uses besides.
fn with_uses(alloc: Global, folder: &str, uses: &str) -> Option<String> {
    format!(in alloc; "{folder}, {uses}").ok()
}
