//! Counts by number.
ghost use Rattle.std.specs.Prelude.{◌≡◌, length};
ghost use Rattle.machine_values.specs.Counts.{all_counts, AreHeld};

use std::marker::Model;

/// How often the monitor of the known reference of a number is entered, which is more than 0.
#[derive(Clone, Copy, PartialEq, Eq)]
pub struct HeldCount {
    pub number: usize,
    pub count: u64,
}

/// A count for each number from 0 on, of which zeros take no memory. Contracts see the list of all counts.
#[derive(Drop)]
pub struct CountList {
    len: usize,
    held: Vec<HeldCount>,
}

impl Model for CountList {
    ghost use Rattle.std.specs.Prelude.{ℕ, List};
    ghost use Rattle.machine_values.specs.Counts.{all_counts, AreHeld};

    ghost Value = { List ℕ };

    ghost view = { λ list. all_counts 0 list.len list.held.items };

    ghost invariant = { λ list. AreHeld 0 list.len list.held.items };
}

impl CountList {
    /// So many counts, of which those above zero are given in the order of their numbers. It does not allocate.
    pub fn of_held(len: usize, held: Vec<HeldCount>) -> CountList
        requires { AreHeld 0 len held.items }
        ensures { result ≡ all_counts 0 len held.items }
    {
        CountList { len, held }
    }

    /// How many counts there are.
    pub fn len(&self) -> usize
        ensures { result ≡ length self.now }
    {
        self.len
    }

    /// The counts above zero, in the order of their numbers.
    pub fn held(&self) -> &[HeldCount]
        ensures counts { self.now ≡ all_counts 0 (length self.now) result.now }
        ensures held { AreHeld 0 (length self.now) result.now }
    {
        self.held.as_slice()
    }
}
