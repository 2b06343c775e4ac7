//! Reading a StackMapTable.
ghost use Rattle.std.specs.Prelude.{};
ghost use Rattle.class_model.specs.Answers.{Gives};
ghost use Rattle.class_model.specs.Frames.{Setting, stack_map_table_at};
ghost use Rattle.map_frames.specs.Reading.{Accepts};

use crate::context::Context;
use crate::walk::Walk;
use class_model::{
    ClassFault, CodeIndex, Frame, ListOf, PlacedFrame, PlacedFrameList, PlacedList, Pool,
};
use std::alloc::Global;

/// The frames that the content of a StackMapTable states for a code, each with its offset. The entry frame
/// stands before the first. `max_locals` is in local units and `max_stack` in stack units, of which a long or double takes two
/// (JVM Specification SE 8, 4.7.4).
///
/// # Errors
/// `Malformed` at a place of `bytes` with the first fault: `FrameKind`, `FrameType`, `FrameSize` and
/// `FramePlace` at the frame, and `Attribute` at 0 where the frames do not end with these bytes. `NoMemory`, where memory runs
/// out.
pub fn read_frames(
    alloc: Global,
    pool: &Pool,
    entry: &Frame,
    max_locals: u16,
    max_stack: u16,
    code: &PlacedList,
    bytes: &[u8],
) -> Result<PlacedFrameList, ClassFault>
    ensures { let s : Setting = record {
      pool = pool.now;
      max_locals = max_locals;
      max_stack = max_stack;
      code = code.now;
    } in
        Gives (stack_map_table_at s entry.now bytes.now) result }
{
    let code = CodeIndex::of(alloc, code)?;
    let context = Context {
        alloc,
        pool,
        max_locals,
        max_stack,
        code,
    };
    let mut walk = Walk::new(alloc, entry, bytes)?;
    let mut units = walk.units(alloc, max_locals)?;
    let mut frames = ListOf::new(alloc);
    let count = walk.count()?;
    for _ in 0..count {
        let (at, stack) = walk.frame_with_units(&context, &mut units)?;
        let frame = Frame {
            locals: units.copy(alloc)?,
            stack: stack.into_list(),
        };
        frames.push(PlacedFrame { at, frame })?;
    }
    walk.end()?;
    Ok(frames)
}

/// Whether the content of a StackMapTable can be read: as `read_frames`, but the frames are not kept.
///
/// # Errors
/// As `read_frames`.
pub fn check_frames(
    alloc: Global,
    pool: &Pool,
    entry: &Frame,
    max_locals: u16,
    max_stack: u16,
    code: &PlacedList,
    bytes: &[u8],
) -> Result<(), ClassFault>
    ensures { let s : Setting = record {
      pool = pool.now;
      max_locals = max_locals;
      max_stack = max_stack;
      code = code.now;
    } in
        Accepts (stack_map_table_at s entry.now bytes.now) result }
{
    let code = CodeIndex::of(alloc, code)?;
    let context = Context {
        alloc,
        pool,
        max_locals,
        max_stack,
        code,
    };
    let mut walk = Walk::new(alloc, entry, bytes)?;
    let count = walk.count()?;
    for _ in 0..count {
        walk.frame(&context)?;
    }
    walk.end()
}
