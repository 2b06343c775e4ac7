//! The edges of flat code.
use class_model::ListOf;
use virtual_state::VState;

/// How control goes on at an edge: to the next point, to a target of a jump, by the target's number among those of the
/// instruction, or to a handler, by its number among those of the point. A switch's default is its target 0.
#[derive(Clone, Copy, PartialEq, Eq)]
pub enum EdgeKind {
    Next,
    Jump(u32),
    Handler(u32),
}

/// An edge: the point that it leads to, how, and the state behind it.
#[derive(Drop)]
pub struct Edge {
    pub to: usize,
    pub by: EdgeKind,
    pub state: VState,
}

/// Edges, in order: the one to the next point, then those to the targets of the instruction, then those to the handlers.
pub type EdgeList = ListOf<Edge>;
