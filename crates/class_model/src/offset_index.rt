//! Things found by their offset in a code.
ghost use Rattle.std.specs.Prelude.{◌≡◌, map, IfOk};
ghost use Rattle.class_model.specs.OffsetIndexes.{IsIndexOf, number_in};

use crate::frame::PlacedFrame;
use crate::instr::Placed;
use crate::memory::NoMemory;
use std::alloc::Global;
use std::marker::Model;

/// A thing that stands at an offset of a code.
pub trait HasOffset {
    ghost use Rattle.std.specs.Prelude.{ℕ, ◌≡◌};

    ghost at: { Self → ℕ };

    /// Its offset, in bytes.
    fn offset(&self) -> u32
        ensures { result ≡ at self.now };
}

impl HasOffset for Placed {
    ghost at = { λ placed. placed.at };

    fn offset(&self) -> u32 {
        self.at
    }
}

impl HasOffset for PlacedFrame {
    ghost at = { λ placed. placed.at };

    fn offset(&self) -> u32 {
        self.at
    }
}

/// The numbers of the things of a list by their offsets in a code, each found in constant time.
pub struct OffsetIndex {
    // For each offset up to the last, the number of the first thing there, counted from 1, or 0.
    numbers: Vec<usize>,
}

// Written out: a derived drop would be spelled out, field by field, in each function that drops one, and be proved there.
impl Drop for OffsetIndex {
    fn drop(self) {
        let OffsetIndex { numbers: _ } = self;
    }
}

impl Model for OffsetIndex {
    ghost use Rattle.std.specs.Prelude.{ℕ, List};

    ghost Value = { List ℕ };

    ghost view = { λ index. index.numbers.items };
}

impl OffsetIndex {
    /// Those of these things, in time linear in their number and in the last offset.
    pub fn of<T: HasOffset>(alloc: Global, things: &[T]) -> Result<Self, NoMemory>
        ensures { IfOk result (IsIndexOf (map T.at things.now)) }
    {
        let len = things
            .iter()
            .map(|thing| thing.offset() as usize + 1)
            .max()
            .unwrap_or(0);
        let mut numbers = vec![in alloc; 0; len]?;
        let mut number = 0;
        for thing in things {
            number += 1;
            let at = thing.offset() as usize;
            if numbers[at] == 0 {
                numbers[at] = number;
            }
        }
        Ok(OffsetIndex { numbers })
    }

    /// The number of the first thing at an offset, in bytes.
    pub fn find(&self, offset: u64) -> Option<usize>
        ensures { result ≡ number_in self.now offset }
    {
        self.numbers.get(offset as usize)?.checked_sub(1)
    }
}
