//! The constants that have references.
ghost use Rattle.std.specs.Prelude.{◌≡◌, ◌++◌, ◌∷◌, [], None, OnOk, OnErr};
ghost use Rattle.std.specs.Option.{option_copied};
ghost use Rattle.machine_heap.specs.Inner.Kept.{AreBelow};
ghost use Rattle.machine_values.specs.Heaps.{constant_in, kept_in};

use crate::comparison::constants_compare_by_value;
use class_model::NoMemory;
use indexmap::{IndexMap, IndexSet};
use machine_values::{Constant, Ref};
use std::alloc::Global;
use std::marker::Model;

/// The constants that have references, in the order in which they were made, each found by its value and by its reference in
/// constant time. Contracts see the list of both.
#[derive(Drop)]
pub(crate) struct KeptConstants {
    references: IndexMap<Constant, Ref>,
    // the numbers of the references, in the same order
    numbers: IndexSet<u64>,
}

impl Model for KeptConstants {
    ghost use Rattle.std.specs.Prelude.{◌≡◌, List};
    ghost use Rattle.machine_heap.specs.Inner.Kept.{kept_of, numbers_of};
    ghost use Rattle.machine_values.specs.Heaps.{Kept};

    ghost Value = { List Kept };

    ghost view = { λ kept. kept_of kept.references.entries };

    ghost invariant = { λ kept. kept.numbers.keys ≡ numbers_of kept.references.entries };
}

impl KeptConstants {
    /// No constant.
    pub(crate) fn new(alloc: Global) -> KeptConstants
        ensures { result ≡ [] }
    {
        KeptConstants {
            references: IndexMap::new(alloc),
            numbers: IndexSet::new(alloc),
        }
    }

    /// The reference of a constant.
    pub(crate) fn reference_of(&self, constant: &Constant) -> Option<Ref>
        ensures { result ≡ kept_in self.now constant.now }
    {
        constants_compare_by_value();
        self.references.get(constant).copied()
    }

    /// The constant that a reference is.
    pub(crate) fn constant_of(&self, at: Ref) -> Option<&Constant>
        ensures { option_copied result ≡ constant_in self.now at }
    {
        let place = self.numbers.get_index_of(&at.number)?;
        let (constant, _) = self.references.get_index(place)?;
        Some(constant)
    }

    /// Keeps a reference, which is above all that are kept, for a constant that has none.
    ///
    /// # Errors
    ///
    /// `NoMemory` where memory runs out; nothing is kept then.
    pub(crate) fn push(&mut self, constant: Constant, at: Ref) -> Result<(), NoMemory>
        requires new { kept_in self.old constant ≡ None }
        requires above { AreBelow at self.old }
        ensures ok { OnOk result
            (self.new ≡ self.old ++ record { constant = constant; reference = at } ∷ []) }
        ensures err { OnErr result (self.new ≡ self.old) }
    {
        constants_compare_by_value();
        self.numbers.reserve(1)?;
        self.references.insert(constant, at)?;
        match self.numbers.insert(at.number) {
            Ok(_) => Ok(()),
            Err(_) => unreachable!(),
        }
    }
}
