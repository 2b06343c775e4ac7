//! What a table is read against, and the verification types that it may state (JVM Specification SE 8, 4.7.4).
ghost use Rattle.std.specs.Prelude.{◌≡◌};
ghost use Rattle.std.specs.Option.{option_copied};
ghost use Rattle.class_model.specs.Answers.{Takes};
ghost use Rattle.class_model.specs.Frames.{verification_type_at, verification_types_at, stated_frame, item_at, counted_types_at, object_at, uninit_at};
ghost use Rattle.class_model.specs.PoolChecks.{class_at};
ghost use Rattle.map_frames.specs.Inner.Settings.{setting_of};
ghost use Rattle.map_frames.specs.Inner.Steps.{Appends, IsPlaced};

use crate::cursor::Cursor;
use crate::entries::Entries;
use class_model::frame_tags::{
    ITEM_DOUBLE, ITEM_FLOAT, ITEM_INTEGER, ITEM_LONG, ITEM_NULL, ITEM_OBJECT, ITEM_TOP,
    ITEM_UNINITIALIZED, ITEM_UNINITIALIZED_THIS,
};
use class_model::{ClassFault, CodeIndex, Const, FileRule, Pool, Text, VType};
use std::alloc::Global;

/// The pool of a class, and the code of one of its methods with its greatest units of locals and of stack.
///
/// What is refused stands at the first byte of its frame, but a byte that is missing is `Attribute` at 0.
#[derive(Drop)]
pub(crate) struct Context<'a> {
    pub(crate) alloc: Global,
    pub(crate) pool: &'a Pool,
    pub(crate) max_locals: u16,
    pub(crate) max_stack: u16,
    pub(crate) code: CodeIndex<'a>,
}

impl Context<'_> {
    /// Appends so many entries of the frame at a place, the next ones.
    ///
    /// # Errors
    /// `FrameType`, or `Attribute` for missing bytes.
    pub(crate) fn push_entries(
        &self,
        frame: u64,
        count: u16,
        rest: &mut Cursor,
        entries: &mut Entries,
    ) -> Result<(), ClassFault>
        ensures { Appends (verification_types_at
            (setting_of self.now) frame count rest.old) entries.old entries.new rest.new result }
    {
        for _ in 0..count {
            entries.push(self.entry(frame, rest)?)?;
        }
        Ok(())
    }

    /// A stack of one entry of the frame at a place, the next one.
    ///
    /// # Errors
    /// As `push_entries`.
    pub(crate) fn item(&self, frame: u64, rest: &mut Cursor) -> Result<Entries, ClassFault>
        ensures { Takes (item_at (setting_of self.now) frame rest.old) rest.new result }
    {
        let mut stack = Entries::new(self.alloc);
        stack.push(self.entry(frame, rest)?)?;
        Ok(stack)
    }

    /// The next entries of the frame at a place, behind their number.
    ///
    /// # Errors
    /// As `push_entries`.
    pub(crate) fn counted(&self, frame: u64, rest: &mut Cursor) -> Result<Entries, ClassFault>
        ensures { Takes (counted_types_at (setting_of self.now) frame rest.old) rest.new result }
    {
        let count = rest.u2()?;
        let mut entries = Entries::new(self.alloc);
        self.push_entries(frame, count, rest, &mut entries)?;
        Ok(entries)
    }

    /// The offset of the frame at a place, in bytes of the code.
    ///
    /// # Errors
    /// `FrameSize` where its units do not fit, or else `FramePlace` where no instruction starts there.
    pub(crate) fn offset(
        &self,
        frame: u64,
        at: u64,
        locals: &Entries,
        stack: &Entries,
    ) -> Result<u32, ClassFault>
        ensures { IsPlaced (setting_of self.now) frame
            (stated_frame 0 locals.now stack.now) at result }
    {
        let max_locals = usize::from(self.max_locals);
        let max_stack = usize::from(self.max_stack);
        if locals.units() > max_locals || stack.units() > max_stack {
            return Err(fault(frame, FileRule::FrameSize));
        }
        match self.code.start(at) {
            Some(offset) => Ok(offset),
            None => Err(fault(frame, FileRule::FramePlace)),
        }
    }

    // The next entry of the frame at a place.
    fn entry(&self, frame: u64, rest: &mut Cursor) -> Result<VType, ClassFault>
        ensures { Takes (verification_type_at
            (setting_of self.now) frame rest.old) rest.new result }
    {
        match rest.u1()? {
            ITEM_TOP => Ok(VType::Top),
            ITEM_INTEGER => Ok(VType::Int),
            ITEM_FLOAT => Ok(VType::Float),
            ITEM_DOUBLE => Ok(VType::Double),
            ITEM_LONG => Ok(VType::Long),
            ITEM_NULL => Ok(VType::Null),
            ITEM_UNINITIALIZED_THIS => Ok(VType::UninitThis),
            ITEM_OBJECT => self.object(frame, rest),
            ITEM_UNINITIALIZED => self.uninit(frame, rest),
            _ => Err(fault(frame, FileRule::FrameType)),
        }
    }

    // An object of the class that an index names.
    fn object(&self, frame: u64, rest: &mut Cursor) -> Result<VType, ClassFault>
        ensures { Takes (object_at (setting_of self.now) frame rest.old) rest.new result }
    {
        let index = rest.u2()?;
        match class_name(self.pool, index) {
            Some(name) => Ok(VType::Object(name.copy()?)),
            None => Err(fault(frame, FileRule::FrameType)),
        }
    }

    // An object that the `new` at an offset makes.
    fn uninit(&self, frame: u64, rest: &mut Cursor) -> Result<VType, ClassFault>
        ensures { Takes (uninit_at (setting_of self.now) frame rest.old) rest.new result }
    {
        let at = rest.u2()?;
        if self.code.has_new(at) {
            Ok(VType::Uninit(u32::from(at)))
        } else {
            Err(fault(frame, FileRule::FrameType))
        }
    }
}

/// The fault of the frame at a place.
pub(crate) fn fault(frame: u64, rule: FileRule) -> ClassFault
    ensures { result ≡ ClassFault.Malformed frame rule }
{
    ClassFault::Malformed { at: frame, rule }
}

// The name of the class that an index names.
fn class_name(pool: &Pool, index: u16) -> Option<&Text>
    ensures { option_copied result ≡ class_at pool.now index }
{
    let Some(Const::Class(name)) = pool.get(index) else {
        return None;
    };
    match pool.get(*name) {
        Some(Const::Utf8(text)) => Some(text),
        _ => None,
    }
}
