//! The references that the library knows.
ghost use Rattle.std.specs.Prelude.{◌≡◌, [], ◌∷◌, ◌++◌, length, slice_get, ℕ, Some, None, IfSome, OnOk, OnErr};
ghost use Rattle.member_link.specs.Machine.Showing.{known_number};

use class_model::NoMemory;
use indexmap::IndexSet;
use machine_values::Ref;
use std::alloc::Global;
use std::marker::Model;

/// References, each once, in the order of their first appearances: the number of a reference is its place, from 0. Contracts
/// see the list of the references. A reference and a number are found in constant time.
#[derive(Drop)]
pub struct KnownRefs {
    references: IndexSet<u64>,
}

impl Model for KnownRefs {
    ghost use Rattle.std.specs.Prelude.{ℕ, List, nat_eq};
    ghost use Rattle.indexmap.specs.IndexSet.{IsUnique};

    ghost Value = { List ℕ };

    ghost view = { λ list. list.references.keys };

    ghost invariant = { λ list. IsUnique nat_eq list.references };
}

impl KnownRefs {
    /// No reference.
    pub fn new(alloc: Global) -> KnownRefs
        ensures { result ≡ [] }
    {
        KnownRefs {
            references: IndexSet::new(alloc),
        }
    }

    /// How many references there are.
    pub fn len(&self) -> usize
        ensures { result ≡ length self.now }
    {
        self.references.len()
    }

    /// The number of a reference.
    pub fn number_of(&self, reference: Ref) -> Option<u64>
        ensures number { result ≡ known_number self.now reference }
        ensures there { IfSome result (λ number. slice_get self.now number ≡ Some reference) }
        ensures once { (number : ℕ)
            → slice_get self.now number ≡ Some reference
            → result ≡ Some number }
    {
        match self.references.get_index_of(&reference.number) {
            Some(number) => Some(number as u64),
            None => None,
        }
    }

    /// The reference of a number.
    pub fn get(&self, number: u64) -> Option<Ref>
        ensures { result ≡ slice_get self.now number }
    {
        let number = *self.references.get_index(number as usize)?;
        Some(Ref { number })
    }

    /// Appends a reference that is not known.
    ///
    /// # Errors
    ///
    /// `NoMemory` where memory runs out; the list stays as it was.
    pub fn push(&mut self, reference: Ref) -> Result<(), NoMemory>
        requires { known_number self.old reference ≡ None }
        ensures ok { OnOk result (self.new ≡ self.old ++ reference ∷ []) }
        ensures err { OnErr result (self.new ≡ self.old) }
    {
        self.references.insert(reference.number)?;
        Ok(())
    }
}
