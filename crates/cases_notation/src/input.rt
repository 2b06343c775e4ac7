//! The classes of a folder and of a library, as they are read.
ghost use Rattle.std.specs.Prelude.{◌≡◌};
ghost use Rattle.class_tree.specs.Trees.{IsTreeOf};

use crate::library::LIBRARY;
use crate::notation::{class_file, name_of};
use class_bytes::{read_class, read_header};
use class_model::{ClassFault, ListOf};
use class_tree::{ClassFileList, HeaderList, LinkFault, Tree, build_tree};
use std::alloc::Global;
use std::marker::Model;

/// The class files of a folder and the headers of a library, each read from bytes.
#[derive(Drop)]
pub struct Input {
    folder: ClassFileList,
    library: HeaderList,
}

impl Model for Input {
    ghost use Rattle.std.specs.List.{AllByRecursion};
    ghost use Rattle.class_tree.specs.Headers.{Classes, IsClassFile, IsLibraryClass};

    ghost Value = { Classes };

    ghost view = { λ input. record { folder = input.folder; library = input.library } };

    ghost invariant = { λ input.
        AllByRecursion IsClassFile input.folder × AllByRecursion IsLibraryClass input.library };
}

impl Input {
    /// No class at all.
    pub fn empty(alloc: Global) -> Self {
        Input {
            folder: ListOf::new(alloc),
            library: ListOf::new(alloc),
        }
    }

    /// No class of the folder, and those that each library has.
    pub fn new(alloc: Global) -> Result<Self, ClassFault> {
        Input::without(alloc, &[])
    }

    /// The same, but for the library's classes of these names.
    pub fn without(alloc: Global, names: &[&str]) -> Result<Self, ClassFault> {
        let mut input = Input::empty(alloc);
        match input.add_library(alloc, names) {
            Ok(()) => Ok(input),
            Err(fault) => {
                drop(input);
                Err(fault)
            }
        }
    }

    // Adds what each library has, but for the classes of these names.
    fn add_library(&mut self, alloc: Global, names: &[&str]) -> Result<(), ClassFault> {
        for text in &LIBRARY {
            if !names.contains(&name_of(text)) {
                self.add_header(alloc, text)?;
            }
        }
        Ok(())
    }

    /// The classes of a folder, and what the library has beside those that each has, with ` | ` between classes.
    pub fn of(alloc: Global, folder: &str, library: &str) -> Result<Self, ClassFault> {
        let mut input = Input::new(alloc)?;
        match input.add_all(alloc, folder, library) {
            Ok(()) => Ok(input),
            Err(fault) => {
                drop(input);
                Err(fault)
            }
        }
    }

    /// Adds the classes of a folder, and what the library has, with ` | ` between classes.
    ///
    /// # Errors
    /// Those of `read_class` and `read_header`.
    pub fn add_all(
        &mut self,
        alloc: Global,
        folder: &str,
        library: &str,
    ) -> Result<(), ClassFault> {
        self.add_headers(alloc, library)?;
        self.add_classes(alloc, folder)
    }

    /// Adds classes to the folder, with ` | ` between them.
    ///
    /// # Errors
    /// Those of `read_class`.
    pub fn add_classes(&mut self, alloc: Global, texts: &str) -> Result<(), ClassFault> {
        for text in texts.split(" | ") {
            if !text.is_empty() {
                self.add_class(alloc, text)?;
            }
        }
        Ok(())
    }

    /// Adds classes to the library, with ` | ` between them.
    ///
    /// # Errors
    /// Those of `read_header`.
    pub fn add_headers(&mut self, alloc: Global, texts: &str) -> Result<(), ClassFault> {
        for text in texts.split(" | ") {
            if !text.is_empty() {
                self.add_header(alloc, text)?;
            }
        }
        Ok(())
    }

    /// Adds a class to the folder.
    ///
    /// # Errors
    /// Those of `read_class`.
    pub fn add_class(&mut self, alloc: Global, text: &str) -> Result<(), ClassFault> {
        self.add_file(alloc, &class_file(alloc, text)?)
    }

    /// Adds the class of these bytes to the folder.
    ///
    /// # Errors
    /// Those of `read_class`.
    pub fn add_file(&mut self, alloc: Global, bytes: &[u8]) -> Result<(), ClassFault> {
        let class = read_class(alloc, bytes)?;
        self.folder.push(class)?;
        Ok(())
    }

    /// Adds a class to the library.
    ///
    /// # Errors
    /// Those of `read_header`.
    pub fn add_header(&mut self, alloc: Global, text: &str) -> Result<(), ClassFault> {
        self.add_library_file(alloc, &class_file(alloc, text)?)
    }

    /// Adds the class of these bytes to the library.
    ///
    /// # Errors
    /// Those of `read_header`.
    pub fn add_library_file(&mut self, alloc: Global, bytes: &[u8]) -> Result<(), ClassFault> {
        let header = read_header(alloc, bytes)?;
        self.library.push(header)?;
        Ok(())
    }

    /// The hierarchy of the classes.
    pub fn build(self, alloc: Global) -> Result<Tree, LinkFault>
        ensures { IsTreeOf self.folder self.library result }
    {
        build_tree(alloc, self.folder, self.library)
    }
}
