//! The numbers of a method's instructions, to which its jumps go.
ghost use Rattle.std.specs.Prelude.{◌≡◌, ◌<◌, ◌^◌, length, IfOk};
ghost use Rattle.machine_code.specs.Inner.Translating.{number_of, offsets_of};

use class_model::{NoMemory, OffsetIndex, Placed};
use std::alloc::Global;
use std::marker::Model;

/// The numbers of a method's instructions by their offsets, each found in constant time. Contracts see the offsets.
#[derive(Drop)]
pub(crate) struct Numbers<'a> {
    instrs: &'a [Placed],
    index: OffsetIndex,
}

impl<'a> Model for Numbers<'a> {
    ghost use Rattle.std.specs.Prelude.{ℕ, List};
    ghost use Rattle.machine_code.specs.Inner.Translating.{AreNumbers, offsets_of};

    ghost Value = { List ℕ };

    ghost view = { λ numbers. offsets_of numbers.instrs.now };

    ghost invariant = { λ numbers. AreNumbers numbers.instrs.now numbers.index };
}

impl<'a> Numbers<'a> {
    /// Those of these instructions.
    ///
    /// # Errors
    /// `NoMemory`, where memory runs out.
    pub(crate) fn of_instructions(
        alloc: Global,
        instrs: &'a [Placed],
    ) -> Result<Numbers<'a>, NoMemory>
        requires { length instrs.now < 2 ^ 32 }
        ensures { IfOk result (λ numbers. numbers ≡ offsets_of instrs.now) }
    {
        let index = OffsetIndex::of(alloc, instrs)?;
        Ok(Numbers { instrs, index })
    }

    /// The number of the first instruction at an offset; where none is, how many there are.
    pub(crate) fn of(&self, at: u32) -> u32
        ensures { result ≡ number_of self.now at }
    {
        match self.index.find(u64::from(at)) {
            Some(number) => number as u32,
            None => self.instrs.len() as u32,
        }
    }
}
