//! Writing a StackMapTable.
ghost use Rattle.std.specs.Prelude.{◌≡◌, ◌≤◌, ◌++◌, List, ℕ, Ok, IfOk, OnOk, reverse};
ghost use Rattle.class_model.specs.Frames.{Setting, stack_map_table_at, entries_of_units, without_tops};
ghost use Rattle.map_frames.specs.Inner.Listing.{listed_of};
ghost use Rattle.map_frames.specs.Writing.{FitsTable, IsTable, HasFrames, AreFrames, listed_at};

use crate::class_indices::ClassIndices;
use crate::frame_writing::{ListedFrame, push_frame};
use crate::local_units::listed_units;
use class_model::{
    ByteList, Frame, ListOf, NoMemory, PlacedFrame, PlacedFrameList, Text, VType, push_u2,
};
use std::alloc::Global;

/// A class and the index of its Class constant.
#[derive(Drop)]
pub struct NamedIndex {
    pub class: Text,
    pub index: u16,
}

/// The indices of classes in a pool.
pub type IndexOfText = ListOf<NamedIndex>;

/// The content of a StackMapTable (JVM Specification SE 8, 4.7.4) that states these frames behind an entry frame, each in the
/// first kind that fits. `class_index` names every class of the frames, the places increase, and each number and list fits two
/// bytes.
///
/// # Errors
/// `NoMemory`, where memory runs out.
pub fn frame_bytes(
    alloc: Global,
    entry: &Frame,
    frames: &PlacedFrameList,
    class_index: &IndexOfText,
) -> Result<ByteList, NoMemory>
    requires { FitsTable class_index.now frames.now }
    ensures chosen { IfOk result (IsTable class_index.now entry.now frames.now) }
    ensures read { IfOk result (λ bytes. (s : Setting)
        → HasFrames s class_index.now frames.now
        → stack_map_table_at s entry.now bytes ≡ Ok frames.now) }
{
    let classes = ClassIndices::new(alloc, class_index.as_slice())?;
    let frames = frames.as_slice();
    let before = listed_units(alloc, &entry.locals)?;
    let mut out = Vec::new(alloc);
    push_u2(&mut out, frames.len() as u16)?;
    push_frames(alloc, &mut out, &classes, before, frames)?;
    Ok(ListOf::from_vec(out))
}

// Appends frames, the first of them behind one with these locals.
fn push_frames(
    alloc: Global,
    out: &mut Vec<u8>,
    classes: &ClassIndices,
    locals: Vec<VType>,
    frames: &[PlacedFrame],
) -> Result<(), NoMemory>
    requires { FitsTable classes.now frames.now }
    ensures { OnOk result ((bytes : List ℕ)
        × (out.new.items ≡ out.old.items ++ bytes)
        × AreFrames classes.now 0 (entries_of_units locals.items) frames.now bytes) }
{
    let mut before = locals;
    let mut from = 0;
    for placed in frames {
        let locals = listed_units(alloc, &placed.frame.locals)?;
        let frame = listed_at(from, placed, locals.as_slice());
        push_frame(out, classes, before.as_slice(), &frame)?;
        before = locals;
        from = placed.at + 1;
    }
    Ok(())
}

// The frame as it is written, with the units of its locals up to the last that is not `Top`, and its delta
// counted from a place.
fn listed_at<'a>(from: u32, placed: &'a PlacedFrame, locals: &'a [VType]) -> ListedFrame<'a>
    requires after { from ≤ placed.now.at }
    requires near { placed.now.at ≤ 65535 }
    requires locals { locals.now ≡ reverse (without_tops (reverse placed.now.frame.locals)) }
    ensures { listed_of result ≡ listed_at from placed.now }
{
    ListedFrame {
        delta: (placed.at - from) as u16,
        locals,
        stack: placed.frame.stack.as_slice(),
    }
}
