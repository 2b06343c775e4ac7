//! Written code before its items have numbers: instructions by their indices in the constant pool, whose targets are points and pads.
use class_model::{Instr, ListOf};
use virtual_state::VState;

/// Where a jump or a handler leads.
#[derive(Clone, Copy, PartialEq, Eq, Hash)]
pub enum Target {
    /// What is written first of a point.
    Point(usize),
    /// The pad of a jump edge of a point, by the target's number among those of the instruction.
    JumpPad { at: usize, number: u32 },
    /// The pad of a handler edge of a point, by the handler's number among those of the point.
    HandlerPad { at: usize, number: u32 },
    /// The item so many behind the one that jumps.
    Ahead(u16),
}

/// A handler of an item: where it begins, and the index of the class that it catches, or 0.
#[derive(Clone, Copy, PartialEq, Eq)]
pub struct DraftCatch {
    pub to: Target,
    pub class: u16,
}

/// An item: its instruction, but for its targets; where it jumps, in the order of its targets, a switch's default first; and the handlers
/// of what it throws, in their order.
#[derive(Drop)]
pub struct DraftItem {
    pub instr: Instr,
    pub targets: ListOf<Target>,
    pub catches: ListOf<DraftCatch>,
}

/// What a block is, by the number of a point, and of a target or a handler.
#[derive(Clone, Copy, PartialEq, Eq)]
pub enum BlockKind {
    BeforePoint(usize),
    OfPoint(usize),
    OnNextEdge(usize),
    JumpPad { at: usize, number: u32 },
    HandlerPad { at: usize, number: u32 },
}

/// A block: what it is; the typed point and the state with which it begins; how many items it has; and the point that it goes to at its
/// end, if it does not go on to the block behind it.
#[derive(Drop)]
pub struct DraftBlock {
    pub of: BlockKind,
    pub at: usize,
    pub state: VState,
    pub count: usize,
    pub leaves: Option<usize>,
}
