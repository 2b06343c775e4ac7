//! Writing a stack map frame (JVM Specification SE 8, 4.7.4).
ghost use Rattle.std.specs.Prelude.{◌≡◌, ◌∷◌, ◌++◌, List, [], ℕ, OnOk};
ghost use Rattle.std.specs.List.{AllByRecursion};
ghost use Rattle.class_model.specs.Frames.{entries_of_units};
ghost use Rattle.class_model.specs.Spelling.{u2};
ghost use Rattle.map_frames.specs.Inner.Change.{IsChange};
ghost use Rattle.map_frames.specs.Inner.Choosing.{kind_meant, passes};
ghost use Rattle.map_frames.specs.Inner.Listing.{listed_of, FitsListed};
ghost use Rattle.map_frames.specs.Writing.{FitsType, IsFrame, types_bytes, kind_bytes, Full};

use crate::class_indices::ClassIndices;
use crate::kinds::{Change, Kind};
use crate::local_units::{behind_common, count_entries};
use crate::type_writing::{push_entries, push_types};
use class_model::frame_tags::{
    FULL_FRAME, SAME_FRAME_EXTENDED, SAME_LOCALS_1_STACK_ITEM_FRAME,
    SAME_LOCALS_1_STACK_ITEM_FRAME_EXTENDED,
};
use class_model::{NoMemory, VType, push_u2};

/// A frame as it is written: its offset delta, the units of its locals up to the last that is not `Top`,
/// and its stack.
#[derive(Clone, Copy)]
pub(crate) struct ListedFrame<'a> {
    pub(crate) delta: u16,
    pub(crate) locals: &'a [VType],
    pub(crate) stack: &'a [VType],
}

/// Appends a frame behind one with these locals, in the first kind that fits.
pub(crate) fn push_frame(
    out: &mut Vec<u8>,
    classes: &ClassIndices,
    before: &[VType],
    frame: &ListedFrame,
) -> Result<(), NoMemory>
    requires { FitsListed classes.now (listed_of frame.now) }
    ensures { OnOk result ((bytes : List ℕ)
        × (out.new.items ≡ out.old.items ++ bytes)
        × IsFrame classes.now (entries_of_units before.now) (listed_of frame.now) bytes) }
{
    let ListedFrame {
        delta,
        locals,
        stack,
    } = *frame;
    let (gone, more) = behind_common(before, locals);
    let change = Change {
        gone: count_entries(gone),
        more: count_entries(more),
        stack: stack.len(),
    };
    match change.kind(delta) {
        Kind::Same => push_byte(out, delta as u8),
        Kind::SameItem => {
            push_byte(out, SAME_LOCALS_1_STACK_ITEM_FRAME + delta as u8)?;
            push_types(out, classes, stack)
        }
        Kind::SameItemExtended => {
            push_front(out, SAME_LOCALS_1_STACK_ITEM_FRAME_EXTENDED, delta)?;
            push_types(out, classes, stack)
        }
        Kind::Chop => push_front(out, SAME_FRAME_EXTENDED - change.gone as u8, delta),
        Kind::SameExtended => push_front(out, SAME_FRAME_EXTENDED, delta),
        Kind::Append => {
            push_front(out, SAME_FRAME_EXTENDED + change.more as u8, delta)?;
            push_entries(out, classes, more)
        }
        Kind::Full => push_full(out, classes, frame),
    }
}

fn push_byte(out: &mut Vec<u8>, byte: u8) -> Result<(), NoMemory>
    ensures { OnOk result (out.new.items ≡ out.old.items ++ byte ∷ []) }
{
    out.push(byte)?;
    Ok(())
}

// Appends the first byte of a frame and its offset delta.
fn push_front(out: &mut Vec<u8>, kind: u8, delta: u16) -> Result<(), NoMemory>
    ensures { OnOk result (out.new.items ≡ out.old.items ++ kind ∷ u2 delta) }
{
    out.push(kind)?;
    push_u2(out, delta)
}

// Appends a full frame.
fn push_full(out: &mut Vec<u8>, classes: &ClassIndices, frame: &ListedFrame) -> Result<(), NoMemory>
    requires { FitsListed classes.now (listed_of frame.now) }
    ensures { OnOk result
        (out.new.items ≡ out.old.items ++ kind_bytes classes.now [] (listed_of frame.now) Full) }
{
    push_front(out, FULL_FRAME, frame.delta)?;
    push_u2(out, count_entries(frame.locals) as u16)?;
    push_entries(out, classes, frame.locals)?;
    push_u2(out, frame.stack.len() as u16)?;
    push_types(out, classes, frame.stack)
}
