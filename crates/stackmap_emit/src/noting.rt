//! The indices of classes that frames name.
ghost use Rattle.std.specs.Prelude.{◌≡◌, [], OnOk, IsTrue};
ghost use Rattle.stackmap_emit.specs.Inner.ClassIndices.{HasClass, Notes};

use class_model::{ListOf, NoMemory, Text};
use map_frames::{IndexOfText, NamedIndex};
use std::alloc::Global;
use std::collections::HashMap;
use std::marker::Model;

/// Classes with their indices, each once. Contracts see the list.
pub(crate) struct NotedClasses {
    names: IndexOfText,
    // where a class stands: what is found is compared
    places: HashMap<Text, usize>,
}

// Written out: a derived drop would be spelled out, field by field, in each function that drops one, and be proved there.
impl Drop for NotedClasses {
    fn drop(self) {
        let NotedClasses {
            names: _,
            places: _,
        } = self;
    }
}

impl Model for NotedClasses {
    ghost use Rattle.std.specs.Prelude.{List};
    ghost use Rattle.map_frames.specs.declared.writing.NamedIndex.{NamedIndex};

    ghost Value = { List NamedIndex };

    ghost view = { λ noted. noted.names };
}

impl NotedClasses {
    /// No class.
    pub(crate) fn new(alloc: Global) -> Self
        ensures { result ≡ [] }
    {
        NotedClasses {
            names: ListOf::new(alloc),
            places: HashMap::new(alloc),
        }
    }

    /// Notes a class and its index, unless it is there.
    pub(crate) fn note(&mut self, name: &Text, index: u16) -> Result<(), NoMemory>
        ensures { OnOk result (Notes self.old name.now index self.new) }
    {
        if self.has(name) {
            return Ok(());
        }
        self.places.insert(name.copy()?, self.names.len())?;
        let class = name.copy()?;
        self.names.push(NamedIndex { class, index })?;
        Ok(())
    }

    // Whether a class is known to be there.
    fn has(&self, name: &Text) -> bool
        ensures { IsTrue result → HasClass self.now name.now }
    {
        let Some(place) = self.places.get(name) else {
            return false;
        };
        match self.names.get(*place) {
            Some(named) => named.class == *name,
            None => false,
        }
    }

    /// The list.
    pub(crate) fn into_list(self) -> IndexOfText
        ensures { result ≡ self }
    {
        let NotedClasses { names, places: _ } = self;
        names
    }
}
