//! The instructions of a code by offset.
ghost use Rattle.std.specs.Prelude.{◌≡◌, Some, None, IfOk, if◌then◌else◌};
ghost use Rattle.std.specs.Option.{option_copied};
ghost use Rattle.class_model.specs.Frames.{is_new, is_new_at};
ghost use Rattle.class_model.specs.Inner.FirstPlaced.{first_placed};
ghost use Rattle.class_model.specs.Instructions.{is_start};

use crate::instr::{Instr, Placed, PlacedList};
use crate::memory::NoMemory;
use crate::offset_index::OffsetIndex;
use std::alloc::Global;
use std::marker::Model;

/// The instructions of a code, each found by its offset in constant time. Contracts see their list, which is any.
#[derive(Drop)]
pub struct CodeIndex<'a> {
    code: &'a PlacedList,
    index: OffsetIndex,
}

impl<'a> Model for CodeIndex<'a> {
    ghost use Rattle.std.specs.Prelude.{List, map};
    ghost use Rattle.class_model.specs.OffsetIndexes.{IsIndexOf};
    ghost use Rattle.class_model.specs.declared.instr.Placed.{Placed};

    ghost Value = { List Placed };

    ghost view = { λ index. index.code.now };

    ghost invariant = { λ index. IsIndexOf (map (λ placed. placed.at) index.code.now) index.index };
}

impl<'a> CodeIndex<'a> {
    /// That of these instructions, in time linear in their number and in the last offset.
    pub fn of(alloc: Global, code: &'a PlacedList) -> Result<Self, NoMemory>
        ensures { IfOk result (λ index. index ≡ code.now) }
    {
        let index = OffsetIndex::of(alloc, code.as_slice())?;
        Ok(CodeIndex { code, index })
    }

    /// Whether an instruction starts at an offset, in bytes.
    pub fn has_start(&self, at: u32) -> bool
        ensures { result ≡ is_start self.now at }
    {
        self.index.find(u64::from(at)).is_some()
    }

    /// An offset, in bytes, if an instruction starts there.
    pub fn start(&self, at: u64) -> Option<u32>
        ensures { result ≡ (if is_start self.now at then Some at else None) }
    {
        Some(self.first(at)?.at)
    }

    /// Whether a `new` stands at an offset, in bytes.
    pub fn has_new(&self, at: u16) -> bool
        ensures { result ≡ is_new_at self.now at }
    {
        match self.first(u64::from(at)) {
            Some(placed) => is_new(&placed.instr) || any_new(self.code.as_slice(), u32::from(at)),
            None => false,
        }
    }

    // The first instruction at an offset.
    fn first(&self, at: u64) -> Option<&Placed>
        ensures { option_copied result ≡ first_placed self.now at }
    {
        self.code.get(self.index.find(at)?)
    }
}

// Whether a `new` stands at an offset, behind another instruction there too.
fn any_new(code: &[Placed], at: u32) -> bool
    ensures { result ≡ is_new_at code.now at }
{
    code.iter()
        .any(|placed| placed.at == at && is_new(&placed.instr))
}

// Whether an instruction is a `new`.
fn is_new(instr: &Instr) -> bool
    ensures { result ≡ is_new instr.now }
{
    matches!(instr, Instr::New(_))
}
