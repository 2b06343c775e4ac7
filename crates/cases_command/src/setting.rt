//! What the cases are asked over.
use crate::base_library::put_first;
use crate::contents::Contents;
use crate::generated::put_generated;
use crate::texts::root_and_name;
use cases_notation::{class_file, word_and_rest};
use class_model::ListOf;
use host_tree::MemoryHost;
use std::alloc::Global;
use std::mem;

/// A host in memory, and the contents that have names.
#[derive(Drop)]
pub(crate) struct Setting {
    pub host: MemoryHost,
    pub contents: Contents,
}

impl Setting {
    /// A host without files, and no names.
    pub(crate) fn empty(alloc: Global) -> Option<Self> {
        Some(Setting {
            host: host_failing(alloc, "")?,
            contents: Contents::empty(alloc),
        })
    }

    /// Does what a statement says. False where it is no setting, and None where it is none that can be done or memory runs out.
    pub(crate) fn take(&mut self, alloc: Global, statement: &str) -> Option<bool> {
        let (word, said) = word_and_rest(statement);
        match word {
            "host" => drop(mem::replace(&mut self.host, host_failing(alloc, said)?)),
            "base" => self.put_library(alloc, said)?,
            "generated" => self.put_generated(alloc, said)?,
            "put" => self.put_file(alloc, said)?,
            "class" => self.put_class(alloc, said)?,
            "script" => self.put_script(alloc, said)?,
            "bytes" => self.name_content(alloc, said)?,
            _ => return Some(false),
        }
        Some(true)
    }

    // Puts the base library, or as many class files of it, into a root.
    fn put_library(&mut self, alloc: Global, said: &str) -> Option<()> {
        let (root, count) = word_and_rest(said);
        if count.is_empty() {
            return put_first(alloc, &mut self.host, root, usize::MAX);
        }
        put_first(alloc, &mut self.host, root, count.parse::<usize>().ok()?)
    }

    // Puts the class files of generated work into a root, and its script under the root without a name.
    fn put_generated(&mut self, alloc: Global, said: &str) -> Option<()> {
        let (root, numbers) = word_and_rest(said);
        let (number, size) = word_and_rest(numbers);
        let number = number.parse::<u32>().ok()?;
        let size = size.parse::<u32>().ok()?;
        put_generated(alloc, &mut self.host, root, number, size)
    }

    // Puts a file into a root.
    fn put_file(&mut self, alloc: Global, said: &str) -> Option<()> {
        let (path, content) = said.split_once(' ')?;
        let (root, name) = root_and_name(alloc, path)?;
        let bytes = self.contents.written(alloc, content)?;
        self.host.put(alloc, &root, &name, &bytes).ok()
    }

    // Puts the class file of a notation into a root.
    fn put_class(&mut self, alloc: Global, said: &str) -> Option<()> {
        let (path, notation) = said.split_once(' ')?;
        let (root, name) = root_and_name(alloc, path)?;
        let bytes = class_file(alloc, notation).ok()?;
        self.host.put(alloc, &root, &name, &bytes).ok()
    }

    // Puts a script under the root without a name.
    fn put_script(&mut self, alloc: Global, said: &str) -> Option<()> {
        let (name, lines) = word_and_rest(said);
        let mut bytes = Vec::new(alloc);
        for line in lines.split(" | ") {
            bytes.extend_from_slice(line.as_bytes()).ok()?;
            bytes.push(b'\n').ok()?;
        }
        self.host.put(alloc, "", name, &bytes).ok()
    }

    // Names a content.
    fn name_content(&mut self, alloc: Global, said: &str) -> Option<()> {
        let (name, content) = said.split_once(' ')?;
        let bytes = self.contents.written(alloc, content)?;
        self.contents.add(alloc, name, bytes)
    }
}

// A host without files, whose calls of the numbers fail that are said behind `failing`.
fn host_failing(alloc: Global, said: &str) -> Option<MemoryHost> {
    let mut numbers = ListOf::new(alloc);
    if !said.is_empty() {
        for number in said.strip_prefix("failing ")?.split(' ') {
            numbers.push(number.parse::<u64>().ok()?).ok()?;
        }
    }
    MemoryHost::new(alloc, numbers).ok()
}
