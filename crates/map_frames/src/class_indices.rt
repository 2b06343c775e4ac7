//! The indices of classes by their names.
ghost use Rattle.std.specs.Prelude.{◌≡◌, IfOk, OnOk};
ghost use Rattle.map_frames.specs.Inner.Indices.{AreShort, IsByName};
ghost use Rattle.map_frames.specs.Writing.{index_of, or_zero};

use crate::writing::NamedIndex;
use class_model::{NoMemory, Text};
use std::alloc::Global;
use std::collections::HashMap;
use std::marker::Model;

type IndexByName = HashMap<Text, u16>;

/// Classes, whose indices are found by their names. Contracts see the list of the classes.
#[derive(Drop)]
pub(crate) struct ClassIndices<'a> {
    classes: &'a [NamedIndex],
    by_name: IndexByName,
}

impl<'a> Model for ClassIndices<'a> {
    ghost use Rattle.std.specs.Prelude.{List};
    ghost use Rattle.map_frames.specs.declared.writing.NamedIndex.{NamedIndex};
    ghost use Rattle.map_frames.specs.Inner.Indices.{IsByName};

    ghost Value = { List NamedIndex };

    ghost view = { λ indices. indices.classes.now };

    ghost invariant = { λ indices. IsByName indices.classes.now indices.by_name };
}

impl<'a> ClassIndices<'a> {
    /// The indices of these classes. Of several with one name the first counts.
    pub(crate) fn new(alloc: Global, classes: &'a [NamedIndex]) -> Result<Self, NoMemory>
        ensures same { IfOk result (λ indices. indices ≡ classes.now) }
        ensures short { OnOk result (AreShort classes.now) }
    {
        let by_name = index_by_name(alloc, classes)?;
        Ok(ClassIndices { classes, by_name })
    }

    /// The index of the class of a name, or 0.
    pub(crate) fn get(&self, name: &Text) -> u16
        ensures { result ≡ or_zero (index_of self.now name.now) }
    {
        self.by_name.get(name).copied().unwrap_or(0)
    }
}

// The index of the first class of each name, which is put in last.
fn index_by_name(alloc: Global, classes: &[NamedIndex]) -> Result<IndexByName, NoMemory>
    ensures { IfOk result (λ by_name. IsByName classes.now by_name) }
{
    let mut by_name = HashMap::with_capacity(alloc, classes.len())?;
    let mut before = classes;
    while let [others @ .., class] = before {
        by_name.insert(class.class.copy()?, class.index)?;
        before = others;
    }
    Ok(by_name)
}
