//! The frames that a method's code states (JVM Specification SE 8, 4.7.4).
ghost use Rattle.std.specs.Prelude.{◌≡◌, Ok, map, IfOk};
ghost use Rattle.std.specs.Option.{option_copied};
ghost use Rattle.class_model.specs.Instructions.{decoded};
ghost use Rattle.class_model.specs.Methods.{entry_of, home_of};
ghost use Rattle.class_model.specs.Stated.{frame_for, read_or_none, stated_frames, stated_in};
ghost use Rattle.class_model.specs.OffsetIndexes.{IsIndexOf};

use class_model::{
    ClassFault, ClassFile, CodePart, Frame, InnerAttr, Method, NoMemory, OffsetIndex,
    PlacedFrameList, PlacedList,
};
use code_bytes::is_text;
use map_frames::read_frames;
use std::alloc::Global;
use std::marker::Model;

const STACK_MAP_TABLE: &[u8] = b"StackMapTable";

/// A method's code whose stated frames are read: its class file, the method, the content of its Code attribute, its
/// instructions, and the frame that it begins with.
#[derive(Clone, Copy)]
pub(crate) struct Decoded<'a> {
    pub class: &'a ClassFile,
    pub method: &'a Method,
    pub part: &'a CodePart,
    pub instrs: &'a PlacedList,
    pub entry: &'a Frame,
}

/// Stated frames, each found by its offset in constant time. Contracts see them in their order.
#[derive(Drop)]
pub(crate) struct StatedFrames {
    frames: PlacedFrameList,
    index: OffsetIndex,
}

impl Model for StatedFrames {
    ghost use Rattle.std.specs.Prelude.{List, map};
    ghost use Rattle.class_model.specs.declared.frame.PlacedFrame.{PlacedFrame};
    ghost use Rattle.class_model.specs.OffsetIndexes.{IsIndexOf};

    ghost Value = { List PlacedFrame };

    ghost view = { λ stated. stated.frames };

    ghost invariant = { λ stated.
        IsIndexOf (map (λ placed. placed.at) stated.frames) stated.index };
}

impl StatedFrames {
    /// Those of a method's code.
    pub(crate) fn of(alloc: Global, code: &Decoded<'_>) -> Result<Self, NoMemory>
        requires instrs { decoded code.now.part.now.code ≡ Ok code.now.instrs.now }
        requires entry { code.now.entry.now
            ≡ entry_of (home_of code.now.class.now) code.now.method.now code.now.part.now }
        ensures { IfOk result (λ frames.
            frames
            ≡ stated_in (home_of code.now.class.now) code.now.method.now code.now.part.now
            code.now.part.now.attrs) }
    {
        let frames = frames_in(alloc, code, code.part.attrs.as_slice())?;
        let index = OffsetIndex::of(alloc, frames.as_slice())?;
        Ok(StatedFrames { frames, index })
    }

    /// The frames in their order.
    pub(crate) fn frames(&self) -> &PlacedFrameList
        ensures { result.now ≡ self.now }
    {
        &self.frames
    }

    /// The frame for an offset, in bytes, if one is stated.
    pub(crate) fn at(&self, offset: u32) -> Option<&Frame>
        ensures { option_copied result ≡ frame_for self.now offset }
    {
        let placed = self.frames.get(self.index.find(u64::from(offset))?)?;
        Some(&placed.frame)
    }
}

/// The frames of the first StackMapTable among attributes of a method's code.
pub(crate) fn frames_in(
    alloc: Global,
    code: &Decoded<'_>,
    attrs: &[InnerAttr],
) -> Result<PlacedFrameList, NoMemory>
    requires instrs { decoded code.now.part.now.code ≡ Ok code.now.instrs.now }
    requires entry { code.now.entry.now
        ≡ entry_of (home_of code.now.class.now) code.now.method.now code.now.part.now }
    ensures { IfOk result (λ frames. frames
        ≡ stated_in (home_of code.now.class.now) code.now.method.now code.now.part.now attrs.now) }
{
    for attr in attrs {
        if is_text(&code.class.pool, STACK_MAP_TABLE, attr.name) {
            return table_of(alloc, code, attr);
        }
    }
    Ok(PlacedFrameList::new(alloc))
}

// The frames of a StackMapTable of a method's code.
fn table_of(
    alloc: Global,
    code: &Decoded<'_>,
    attr: &InnerAttr,
) -> Result<PlacedFrameList, NoMemory>
    requires instrs { decoded code.now.part.now.code ≡ Ok code.now.instrs.now }
    requires entry { code.now.entry.now
        ≡ entry_of (home_of code.now.class.now) code.now.method.now code.now.part.now }
    ensures { IfOk result (λ frames. frames
        ≡ read_or_none (stated_frames
        (home_of code.now.class.now) code.now.method.now code.now.part.now
        (decoded code.now.part.now.code) attr.now)) }
{
    match read_frames(
        alloc,
        &code.class.pool,
        code.entry,
        code.part.max_locals,
        code.part.max_stack,
        code.instrs,
        attr.bytes.as_slice(),
    ) {
        Ok(frames) => Ok(frames),
        Err(ClassFault::NoMemory) => Err(NoMemory),
        // what cannot be read states no frames
        Err(ClassFault::Malformed { .. } | ClassFault::Version { .. }) => Ok(PlacedFrameList::new(
            alloc,
        )),
    }
}
