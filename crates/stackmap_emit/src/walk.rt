//! The frames of the items of written code, one after the other.
ghost use Rattle.std.specs.Prelude.{◌≡◌, ◌<◌, ◌^◌, ◌++◌, ◌∷◌, [], ℕ, Some, false, get_or, length, max, min, IfOk, OnOk};
ghost use Rattle.std.specs.Option.{option_copied};
ghost use Rattle.class_model.specs.Frames.{depth};
ghost use Rattle.code_layout.specs.Layout.{start_in};
ghost use Rattle.member_link.specs.Bodies.{falls_through};
ghost use Rattle.member_link.specs.RowScope.{RowScope};
ghost use Rattle.plan_flow.specs.Written.FramedCode.{depth_in, stands};
ghost use Rattle.stackmap_emit.specs.Inner.Walking.{IsWalk, Steps, had_at, placed_if, reads_of, stated_at, stating_of};
ghost use Rattle.written_frames.specs.FewLocals.{HasFewLocals};

use crate::blocks::Blocks;
use crate::depths::units_of;
use crate::placing::{Renumbering, frame_at};
use class_model::{Frame, Instr, ListOf, NoMemory, PlacedFrame, PlacedFrameList, Pool, Text};
use code_layout::EmitItem;
use row_frames::frame_behind;
use std::alloc::Global;
use written_frames::differ;

/// The frames that written code states, at the offsets of its items, and the greatest depth of its stack in units, before and behind
/// its items, or 65,535 where it is greater.
pub struct WrittenFrames {
    pub placed: PlacedFrameList,
    pub max_stack: u16,
}

// Written out: a derived drop would be spelled out, field by field, in each function that drops one, and be proved there.
impl Drop for WrittenFrames {
    fn drop(self) {
        let WrittenFrames {
            placed: _,
            max_stack: _,
        } = self;
    }
}

/// What the frames of items depend on: the constants that they name and the name of the class; the blocks; for each item whether a jump or
/// handler leads to it, and its offset.
#[derive(Clone, Copy)]
pub(crate) struct Walk<'a, 'b, 'f> {
    pub(crate) alloc: Global,
    pub(crate) pool: &'a Pool,
    pub(crate) own: &'a Text,
    pub(crate) blocks: &'b Blocks<'f>,
    pub(crate) led: &'a [bool],
    pub(crate) offsets: &'a [u32],
}

impl Walk<'_, '_, '_> {
    /// The frames of all items, where this one flows into the first.
    ///
    /// # Errors
    /// `NoMemory`, where memory runs out.
    pub(crate) fn over(&self, entry: &Frame, items: &[EmitItem]) -> Result<WrittenFrames, NoMemory>
        requires locals { (at : ℕ) → HasFewLocals self.now.blocks.now.maker at }
        requires few { length items.now < 2 ^ 32 }
        ensures { IfOk result (IsWalk (reads_of self.now) entry.now items.now) }
    {
        let mut made = WrittenFrames {
            placed: ListOf::new(self.alloc),
            max_stack: 0,
        };
        let mut flow = Some(entry.copy(self.alloc)?);
        for number in 0..items.len() {
            flow = self.step(number as u32, &items[number].instr, flow, &mut made)?;
        }
        drop(flow);
        Ok(made)
    }

    // States the frame before the instruction of an item, if one is to be stated. It gives what flows into the next one.
    fn step(
        &self,
        number: u32,
        instr: &Instr,
        flow: Option<Frame>,
        made: &mut WrittenFrames,
    ) -> Result<Option<Frame>, NoMemory>
        requires { (at : ℕ) → HasFewLocals self.now.blocks.now.maker at }
        ensures { IfOk result (λ next. (s : RowScope)
            → s.pool ≡ self.now.pool.now
            → s.own.name ≡ self.now.own.now
            → Steps (reads_of self.now) s number instr.now flow made.old next made.new) }
    {
        let Some(had) = self.had(number, flow, &mut made.placed)? else {
            return Ok(None);
        };
        let behind = frame_behind(self.alloc, self.pool, self.own, number, instr, &had)?;
        made.max_stack = made.max_stack.max(deepest(&had, behind.as_ref()));
        drop(had);
        if falls_through(instr) {
            Ok(behind)
        } else {
            Ok(None)
        }
    }

    // The frame that an item has, by what flows into it. If one is stated there, it is appended.
    fn had(
        &self,
        number: u32,
        flow: Option<Frame>,
        placed: &mut PlacedFrameList,
    ) -> Result<Option<Frame>, NoMemory>
        requires { (at : ℕ) → HasFewLocals self.now.blocks.now.maker at }
        ensures had { IfOk result (λ had. had ≡ had_at (stating_of (reads_of self.now)) number flow) }
        ensures placed { OnOk result (placed.new ≡ placed.old
            ++ placed_if (start_in self.now.offsets.now) number
            (stated_at (stating_of (reads_of self.now)) number flow)) }
    {
        let Some(stated) = self.stated(number, flow.as_ref())? else {
            return Ok(flow);
        };
        drop(flow);
        placed.push(self.placed(number, &stated)?)?;
        Ok(Some(stated))
    }

    // The frame that is stated before an item, by what flows into it.
    fn stated(&self, number: u32, flow: Option<&Frame>) -> Result<Option<Frame>, NoMemory>
        requires { (at : ℕ) → HasFewLocals self.now.blocks.now.maker at }
        ensures { IfOk result (λ stated. stated
            ≡ stated_at (stating_of (reads_of self.now)) number (option_copied flow.entry)) }
    {
        let Some(frame) = self.blocks.frame(self.alloc, number as usize)? else {
            return Ok(None);
        };
        if stands(self.is_led(number), flow, &frame) {
            Ok(Some(frame))
        } else {
            Ok(None)
        }
    }

    // Whether a jump or a handler leads to an item.
    fn is_led(&self, number: u32) -> bool
        ensures { result ≡ get_or self.now.led.now number false }
    {
        match self.led.get(number as usize) {
            Some(led) => *led,
            None => false,
        }
    }

    // A frame at the offset of an item.
    fn placed(&self, number: u32, frame: &Frame) -> Result<PlacedFrame, NoMemory>
        ensures { IfOk result (λ placed. placed ∷ []
            ≡ placed_if (start_in self.now.offsets.now) number (Some frame.now)) }
    {
        let by = Renumbering {
            numbers: self.offsets,
            other: 0,
        };
        let frame = frame_at(self.alloc, &by, frame)?;
        let at = match self.offsets.get(number as usize) {
            Some(at) => *at,
            None => 0,
        };
        Ok(PlacedFrame { at, frame })
    }
}

// Whether a block's frame is stated, by what flows in.
fn stands(is_led: bool, flow: Option<&Frame>, frame: &Frame) -> bool
    ensures { result ≡ stands is_led (option_copied flow.entry) frame.now }
{
    if is_led {
        return true;
    }
    match flow {
        Some(flow) => differ(flow, frame),
        None => true,
    }
}

// The greatest depth of the stack before and behind an item.
fn deepest(before: &Frame, behind: Option<&Frame>) -> u16
    ensures { result
        ≡ min (max (depth before.now.stack) (depth_in (option_copied behind.entry))) 65535 }
{
    let depth = units_of(before.stack.as_slice());
    match behind {
        Some(frame) => depth.max(units_of(frame.stack.as_slice())),
        None => depth,
    }
}

// Whether control may fall through to the next instruction.
fn falls_through(instr: &Instr) -> bool
    ensures { result ≡ falls_through instr.now }
{
    !matches!(
        instr,
        Instr::Goto(_)
            | Instr::Table { .. }
            | Instr::Lookup { .. }
            | Instr::Return(_)
            | Instr::Throw
    )
}
