//! The frames of the blocks of written code, by the items with which these begin.
ghost use Rattle.std.specs.Prelude.{◌≡◌, ◌<◌, ◌≤◌, ◌==◌, ℕ, None, get_or, if◌then◌else◌, IfOk, OnOk};
ghost use Rattle.std.specs.Option.{option_copied};
ghost use Rattle.flow_code.specs.WrittenUnits.{written_units};
ghost use Rattle.stackmap_emit.specs.Inner.BlockTables.{first_item, form_number, frame_by, last_block};
ghost use Rattle.stackmap_emit.specs.Inner.PlacedUnits.{number_by};
ghost use Rattle.written_frames.specs.FewLocals.{HasFewLocals};

use crate::placing::{Renumbering, frame_at};
use class_model::{Frame, NoMemory};
use flow_code::Flat;
use std::alloc::Global;
use written_frames::{BlockStart, FrameMaker};

/// The blocks of written code, by numbers of items in the form that is laid out.
pub(crate) struct Blocks<'a> {
    maker: FrameMaker<'a>,
    // the block that begins with each item, if one does
    by_item: Vec<Option<&'a BlockStart>>,
    // the first item of the instruction of each point, or the number of items
    by_point: Vec<u32>,
    end: u32,
}

// Written out: a derived drop would be spelled out, field by field, in each function that drops one, and be proved there.
impl Drop for Blocks<'_> {
    fn drop(self) {
        let Blocks {
            maker: _,
            by_item: _,
            by_point: _,
            end: _,
        } = self;
    }
}

impl<'a> Blocks<'a> {
    /// Those of a flat code that start so, among so many items. In the wide form items have other numbers, by those in the short one.
    ///
    /// # Errors
    /// `NoMemory`, where memory runs out.
    pub(crate) fn new(
        alloc: Global,
        flat: &'a Flat,
        starts: &'a [BlockStart],
        numbers: Option<&[u32]>,
        end: u32,
    ) -> Result<Self, NoMemory>
        requires { written_units flat.now ≤ 65535 }
        ensures flat { IfOk result (λ blocks. blocks.maker ≡ flat.now) }
        ensures end { IfOk result (λ blocks. blocks.end ≡ end) }
        ensures items { IfOk result (λ blocks. (number : ℕ)
            → number < end
            → option_copied (get_or blocks.by_item.items number None)
            ≡ last_block (form_number (option_copied numbers.entry) end) number None starts.now) }
        ensures points { IfOk result (λ blocks. (point : ℕ)
            → number_by blocks.by_point.items end point
            ≡ first_item (form_number (option_copied numbers.entry) end) end point starts.now) }
    {
        let by_item = blocks_by_item(alloc, starts, numbers, end)?;
        let by_point = items_by_point(alloc, starts, numbers, end)?;
        Ok(Blocks {
            maker: FrameMaker::new(flat),
            by_item,
            by_point,
            end,
        })
    }

    /// The frame of the block that begins with an item, if one does.
    ///
    /// # Errors
    /// `NoMemory`, where memory runs out.
    pub(crate) fn frame(&self, alloc: Global, item: usize) -> Result<Option<Frame>, NoMemory>
        requires { (at : ℕ) → HasFewLocals self.now.maker at }
        ensures { IfOk result (λ frame. frame
            ≡ frame_by self.now.maker (number_by self.now.by_point.items self.now.end)
            (option_copied (get_or self.now.by_item.items item None))) }
    {
        let Some(Some(start)) = self.by_item.get(item) else {
            return Ok(None);
        };
        let by = Renumbering {
            numbers: self.by_point.as_slice(),
            other: self.end,
        };
        let frame = self.maker.frame(alloc, start.at, &start.state)?;
        Ok(Some(frame_at(alloc, &by, &frame)?))
    }
}

// The number of an item in the form that is laid out, by its number in the short one.
fn form_number(numbers: Option<&[u32]>, end: u32, number: u32) -> u32
    ensures { result ≡ form_number (option_copied numbers.entry) end number }
{
    match numbers {
        Some(numbers) => match numbers.get(number as usize) {
            Some(number) => *number,
            None => end,
        },
        None => number,
    }
}

// For each item the last block that begins with it.
fn blocks_by_item<'a>(
    alloc: Global,
    starts: &'a [BlockStart],
    numbers: Option<&[u32]>,
    end: u32,
) -> Result<Vec<Option<&'a BlockStart>>, NoMemory>
    ensures { IfOk result (λ blocks. (number : ℕ)
        → number < end
        → option_copied (get_or blocks.items number None)
        ≡ last_block (form_number (option_copied numbers.entry) end) number None starts.now) }
{
    let mut blocks = vec![in alloc; None; end as usize]?;
    for start in starts {
        let item = form_number(numbers, end, start.item) as usize;
        if item < blocks.len() {
            blocks[item] = Some(start);
        }
    }
    Ok(blocks)
}

// For each point the first item of the first block that is its instruction's.
fn items_by_point(
    alloc: Global,
    starts: &[BlockStart],
    numbers: Option<&[u32]>,
    end: u32,
) -> Result<Vec<u32>, NoMemory>
    ensures { IfOk result (λ items. (point : ℕ)
        → number_by items.items end point
        ≡ first_item (form_number (option_copied numbers.entry) end) end point starts.now) }
{
    let mut items = Vec::new(alloc);
    let mut at = starts.len();
    while at > 0 {
        at -= 1;
        if let Some(point) = starts[at].of {
            put_item(
                &mut items,
                point,
                form_number(numbers, end, starts[at].item),
                end,
            )?;
        }
    }
    Ok(items)
}

// Gives a point an item. Points that have none have another one.
fn put_item(items: &mut Vec<u32>, point: usize, item: u32, other: u32) -> Result<(), NoMemory>
    ensures { OnOk result ((at : ℕ)
        → number_by items.new.items other at
        ≡ (if point == at then item else number_by items.old.items other at)) }
{
    while items.len() <= point {
        items.push(other)?;
    }
    items[point] = item;
    Ok(())
}
