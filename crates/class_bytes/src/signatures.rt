//! The names and descriptors of the members of a class, each of which stands once (JVM Specification SE 8,
//! 4.5, 4.6).
ghost use Rattle.std.specs.Prelude.{◌≡◌, [], ◌∷◌, ◌++◌, List, IfOk};
ghost use Rattle.class_model.specs.Members.{Signature, stands_before};
ghost use Rattle.class_model.specs.Pool.{Constants};
ghost use Rattle.class_bytes.specs.Inner.Signatures.{Knows};

use crate::text_numbers::TextNumbers;
use class_model::{NoMemory, Pool};
use std::alloc::Global;
use std::collections::HashSet;

/// The names and descriptors of the members so far, each by the number of its text.
#[derive(Drop)]
pub(crate) struct Signatures<'p> {
    numbers: TextNumbers<'p>,
    pairs: HashSet<(u16, u16)>,
}

impl<'p> Signatures<'p> {
    /// Those of no member, of a class with this pool.
    pub(crate) fn new(alloc: Global, pool: &'p Pool) -> Result<Self, NoMemory>
        ensures { IfOk result (Knows pool.now []) }
    {
        let numbers = TextNumbers::new(alloc, pool)?;
        Ok(Signatures {
            numbers,
            pairs: HashSet::new(alloc),
        })
    }

    /// Adds a member's, by indices of the pool, and says whether a member of the same stands before. A name or
    /// descriptor that cannot be had is equal to none.
    pub(crate) fn add(&mut self, name: u16, desc: u16) -> Result<bool, NoMemory>
        ensures { IfOk result (λ is_again. (pool : Constants) (before : List Signature)
            → Knows pool before self.old
            → (is_again ≡ stands_before pool before (record { name = name; desc = desc }))
            × Knows pool (before ++ record { name = name; desc = desc } ∷ []) self.new) }
    {
        let name = self.numbers.number(name)?;
        let desc = self.numbers.number(desc)?;
        let (Some(name), Some(desc)) = (name, desc) else {
            return Ok(false);
        };
        let is_new = self.pairs.insert((name, desc))?;
        Ok(!is_new)
    }
}
