//! The kinds of stack map frames (JVM Specification SE 8, 4.7.4).
ghost use Rattle.std.specs.Prelude.{◌≡◌, IsTrue};
ghost use Rattle.map_frames.specs.Inner.Choosing.{kind_meant, first_passing, passes};
ghost use Rattle.map_frames.specs.Writing.{frame_kinds};

/// A kind of frame, in the order in which they are tried.
#[derive(Clone, Copy)]
pub(crate) enum Kind {
    Same,
    SameItem,
    SameItemExtended,
    Chop,
    SameExtended,
    Append,
    Full,
}

/// The greatest offset delta that stands in the first byte of a frame.
pub(crate) const MAX_SHORT_DELTA: u16 = 63;

/// The most locals that a frame takes away or adds without being full.
const MAX_CHANGE: usize = 3;

/// How a frame differs from the one before: the numbers of locals that are gone and that are new behind
/// those that both begin with, and its entries on the stack.
#[derive(Clone, Copy)]
pub(crate) struct Change {
    pub(crate) gone: usize,
    pub(crate) more: usize,
    pub(crate) stack: usize,
}

impl Change {
    /// The first kind that fits a frame with this change and this offset delta.
    pub(crate) fn kind(&self, delta: u16) -> Kind
        ensures first { kind_meant result ≡ first_passing (passes delta self.now) frame_kinds }
        ensures fits { IsTrue (passes delta self.now (kind_meant result)) }
    {
        let is_same = self.gone == 0 && self.more == 0;
        let is_short = delta <= MAX_SHORT_DELTA;
        match self.stack {
            0 if is_same && is_short => Kind::Same,
            1 if is_same && is_short => Kind::SameItem,
            1 if is_same => Kind::SameItemExtended,
            0 if is_same => Kind::SameExtended,
            0 if self.more == 0 && self.gone <= MAX_CHANGE => Kind::Chop,
            0 if self.gone == 0 && self.more <= MAX_CHANGE => Kind::Append,
            _ => Kind::Full,
        }
    }
}
