//! The frames of a table, one after the other (JVM Specification SE 8, 4.7.4).
ghost use Rattle.std.specs.Prelude.{◌≤◌, ◌^◌};

use crate::context::{Context, fault};
use crate::cursor::{Cursor, MISSING};
use crate::entries::{Entries, listed_entries};
use class_model::frame_tags::{
    APPEND_FRAME, APPEND_FRAME_LAST, CHOP_FRAME, CHOP_FRAME_LAST, FULL_FRAME, RESERVED,
    RESERVED_LAST, SAME_FRAME, SAME_FRAME_EXTENDED, SAME_FRAME_LAST,
    SAME_LOCALS_1_STACK_ITEM_FRAME, SAME_LOCALS_1_STACK_ITEM_FRAME_EXTENDED,
    SAME_LOCALS_1_STACK_ITEM_FRAME_LAST,
};
use class_model::{ClassFault, FileRule, Frame, LocalTypeList, NoMemory};
use std::alloc::Global;

/// What is left of a table, and what its next frame is stated against: the locals of the frame before, and the
/// offset that a delta is added to.
#[derive(Drop)]
pub(crate) struct Walk<'a> {
    rest: Cursor<'a>,
    locals: Entries,
    // How many of the locals are kept from the frame before that one.
    kept: usize,
    from: u64,
    ghost few: { from ≤ 2 ^ 32 },
}

impl<'a> Walk<'a> {
    ghost use Rattle.std.specs.Prelude.{◌≡◌, IfOk, OnOk};
    ghost use Rattle.class_model.specs.Answers.{Gives, Takes};
    ghost use Rattle.class_model.specs.Cutting.{uncut};
    ghost use Rattle.class_model.specs.Frames.{frame_at, filled, listed, table_u2_at, chop_at, append_at, full_at};
    ghost use Rattle.map_frames.specs.Inner.Settings.{setting_of, standing_of};
    ghost use Rattle.map_frames.specs.Inner.Units.{Keeps};
    ghost use Rattle.map_frames.specs.Inner.Steps.{States, Steps, end_at};

    /// At the first byte of a table, behind an entry frame.
    pub(crate) fn new(alloc: Global, entry: &Frame, bytes: &'a [u8]) -> Result<Self, NoMemory>
        ensures { IfOk result (λ walk. standing_of walk
            ≡ record { from = 0; locals = listed entry.now; rest = uncut bytes.now }) }
    {
        Ok(Walk {
            rest: Cursor::new(bytes),
            locals: listed_entries(alloc, &entry.locals)?,
            kept: 0,
            from: 0,
        })
    }

    /// Reads the number of frames.
    ///
    /// # Errors
    /// `Attribute` where it is missing.
    pub(crate) fn count(&mut self) -> Result<u16, ClassFault>
        ensures count { Takes (table_u2_at self.old.rest) self.new.rest result }
        ensures locals { self.new.locals ≡ self.old.locals }
        ensures from { self.new.from ≡ self.old.from }
    {
        self.rest.u2()
    }

    /// The local units of the frame that was read last, up to a number of units.
    pub(crate) fn units(&self, alloc: Global, max_locals: u16) -> Result<LocalTypeList, NoMemory>
        ensures { IfOk result (λ locals. locals ≡ filled max_locals self.now.locals) }
    {
        self.locals.filled(alloc, max_locals)
    }

    /// Asks that the table ends here.
    ///
    /// # Errors
    /// `Attribute` where bytes follow.
    pub(crate) fn end(&self) -> Result<(), ClassFault>
        ensures { Gives (end_at self.now.rest) result }
    {
        if self.rest.is_at_end() {
            Ok(())
        } else {
            Err(MISSING)
        }
    }

    /// Reads a frame as `frame`, and turns the local units of the frame before into those of this one.
    ///
    /// # Errors
    /// As `frame`.
    pub(crate) fn frame_with_units(
        &mut self,
        context: &Context,
        units: &mut LocalTypeList,
    ) -> Result<(u32, Entries), ClassFault>
        requires { units.old ≡ filled context.now.max_locals self.old.locals }
        ensures steps { Steps (setting_of context.now) (standing_of self.old)
            (standing_of self.new) result }
        ensures units { OnOk result (units.new ≡ filled context.now.max_locals self.new.locals) }
    {
        let before = self.locals.units();
        let read = self.frame(context)?;
        self.locals.follow(context.alloc, context.max_locals, self.kept, before, units)?;
        Ok(read)
    }

    /// Reads a frame: its offset, in bytes of the code, and its stack. The locals become those of the frame.
    ///
    /// # Errors
    /// `FrameKind`, `FrameType`, `FrameSize` or `FramePlace` at the frame, or `Attribute` for missing bytes.
    pub(crate) fn frame(&mut self, context: &Context) -> Result<(u32, Entries), ClassFault>
        ensures steps { Steps (setting_of context.now) (standing_of self.old)
            (standing_of self.new) result }
        ensures kept { OnOk result (Keeps self.new.kept self.old.locals self.new.locals) }
    {
        let place = self.rest.place();
        let (delta, stack) = self.stated(context, place)?;
        let at = context.offset(place, self.from + u64::from(delta), &self.locals, &stack)?;
        self.from = u64::from(at) + 1;
        Ok((at, stack))
    }

    // The offset delta and the stack of the frame at a place.
    fn stated(&mut self, context: &Context, place: u64) -> Result<(u16, Entries), ClassFault>
        requires { place ≡ self.old.rest.at }
        ensures stated { States
            (frame_at (setting_of context.now) self.old.locals self.old.rest)
            self.new.locals self.new.rest result }
        ensures kept { OnOk result (Keeps self.new.kept self.old.locals self.new.locals) }
        ensures from { self.new.from ≡ self.old.from }
    {
        self.kept = self.locals.len();
        let kind = self.rest.u1()?;
        match kind {
            SAME_FRAME..=SAME_FRAME_LAST => Ok((u16::from(kind), Entries::new(context.alloc))),
            SAME_LOCALS_1_STACK_ITEM_FRAME..=SAME_LOCALS_1_STACK_ITEM_FRAME_LAST => {
                let stack = context.item(place, &mut self.rest)?;
                Ok((u16::from(kind - SAME_LOCALS_1_STACK_ITEM_FRAME), stack))
            }
            RESERVED..=RESERVED_LAST => Err(fault(place, FileRule::FrameKind)),
            SAME_LOCALS_1_STACK_ITEM_FRAME_EXTENDED => {
                let delta = self.rest.u2()?;
                let stack = context.item(place, &mut self.rest)?;
                Ok((delta, stack))
            }
            CHOP_FRAME..=CHOP_FRAME_LAST => self.chop(context, place, SAME_FRAME_EXTENDED - kind),
            SAME_FRAME_EXTENDED => Ok((self.rest.u2()?, Entries::new(context.alloc))),
            APPEND_FRAME..=APPEND_FRAME_LAST => self.append(
                context,
                place,
                kind - SAME_FRAME_EXTENDED,
            ),
            FULL_FRAME => self.full(context, place),
        }
    }

    // The last locals are gone, so many entries.
    fn chop(
        &mut self,
        context: &Context,
        place: u64,
        count: u8,
    ) -> Result<(u16, Entries), ClassFault>
        ensures stated { States
            (chop_at count self.old.locals place self.old.rest)
            self.new.locals self.new.rest result }
        ensures kept { OnOk result (Keeps self.new.kept self.old.locals self.new.locals) }
        ensures from { self.new.from ≡ self.old.from }
    {
        let count = usize::from(count);
        if count > self.locals.len() {
            return Err(fault(place, FileRule::FrameKind));
        }
        let delta = self.rest.u2()?;
        self.locals.chop(count);
        self.kept = self.locals.len();
        Ok((delta, Entries::new(context.alloc)))
    }

    // So many locals are added.
    fn append(
        &mut self,
        context: &Context,
        place: u64,
        count: u8,
    ) -> Result<(u16, Entries), ClassFault>
        ensures stated { States
            (append_at (setting_of context.now) count self.old.locals place self.old.rest)
            self.new.locals self.new.rest result }
        ensures kept { OnOk result (Keeps self.new.kept self.old.locals self.new.locals) }
        ensures from { self.new.from ≡ self.old.from }
    {
        let delta = self.rest.u2()?;
        self.kept = self.locals.len();
        context.push_entries(place, u16::from(count), &mut self.rest, &mut self.locals)?;
        Ok((delta, Entries::new(context.alloc)))
    }

    // All locals, and the stack, each behind their number.
    fn full(&mut self, context: &Context, place: u64) -> Result<(u16, Entries), ClassFault>
        ensures stated { States
            (full_at (setting_of context.now) place self.old.rest)
            self.new.locals self.new.rest result }
        ensures kept { OnOk result (Keeps self.new.kept self.old.locals self.new.locals) }
        ensures from { self.new.from ≡ self.old.from }
    {
        let delta = self.rest.u2()?;
        self.kept = 0;
        self.locals = context.counted(place, &mut self.rest)?;
        let stack = context.counted(place, &mut self.rest)?;
        Ok((delta, stack))
    }
}
