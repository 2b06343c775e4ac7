//! The classes of a folder that were begun.
ghost use Rattle.std.specs.Prelude.{◌≡◌, ◌==◌, [], ◌∷◌, ◌++◌, false, OnOk, OnErr};
ghost use Rattle.std.specs.List.{list_any};

use class_model::NoMemory;
use indexmap::IndexSet;
use std::alloc::Global;
use std::marker::Model;

/// Numbers of classes of a folder, each once, in the order in which they came. Contracts see the list. A number is found and
/// appended in constant time.
#[derive(Drop)]
pub struct ClassNumberList {
    numbers: IndexSet<usize>,
}

impl Model for ClassNumberList {
    ghost use Rattle.std.specs.Prelude.{ℕ, List};

    ghost Value = { List ℕ };

    ghost view = { λ list. list.numbers.keys };
}

impl ClassNumberList {
    /// No number.
    pub fn new(alloc: Global) -> ClassNumberList
        ensures { result ≡ [] }
    {
        ClassNumberList {
            numbers: IndexSet::new(alloc),
        }
    }

    /// Whether a number is there.
    pub fn contains(&self, class: usize) -> bool
        ensures { result ≡ list_any (λ other. other == class) self.now }
    {
        self.numbers.contains(&class)
    }

    /// Appends a number that is not there.
    ///
    /// # Errors
    ///
    /// `NoMemory` where memory runs out; the list stays as it was.
    pub fn push(&mut self, class: usize) -> Result<(), NoMemory>
        requires { list_any (λ other. other == class) self.old ≡ false }
        ensures ok { OnOk result (self.new ≡ self.old ++ class ∷ []) }
        ensures err { OnErr result (self.new ≡ self.old) }
    {
        self.numbers.insert(class)?;
        Ok(())
    }
}
