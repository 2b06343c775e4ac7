//! The states of the heads of blocks that are reached so far.
ghost use Rattle.std.specs.Prelude.{◌≡◌, ◌<◌, length, replicate, slice_get, slice_set, None, Some, IfOk, IsTrue};
ghost use Rattle.std.specs.Option.{option_copied};
ghost use Rattle.plan_flow.specs.Inner.Blocks.{HoldHeads, marked};
ghost use Rattle.plan_flow.specs.Inner.Reaching.{reached_in};

use crate::point_states::PointStates;
use class_model::NoMemory;
use std::alloc::Global;
use std::marker::Model;
use virtual_state::VState;

/// The state before each head of a block that is reached so far. Contracts see a list over all points, in which the other
/// points have no state.
#[derive(Drop)]
pub(crate) struct HeadStates {
    heads: Vec<bool>,
    states: Vec<Option<VState>>,
}

impl Model for HeadStates {
    ghost use Rattle.plan_flow.specs.Inner.Blocks.{HeadTable, HoldHeads};

    ghost Value = { HeadTable };

    ghost view = { λ table. record { heads = table.heads.items; states = table.states.items } };

    ghost invariant = { λ table. HoldHeads table.heads.items table.states.items };
}

impl HeadStates {
    /// The points that are marked are heads, and none is reached.
    pub(crate) fn new(alloc: Global, heads: Vec<bool>) -> Result<Self, NoMemory>
        ensures { IfOk result (λ table. table
            ≡ record { heads = heads.items; states = replicate (length heads.items) None }) }
    {
        let count = heads.len();
        let mut states = Vec::with_capacity(alloc, count)?;
        for _at in 0..count {
            states.push(None)?;
        }
        Ok(HeadStates { heads, states })
    }

    /// Whether a point is a head of a block, or there is no such point.
    pub(crate) fn is_head(&self, at: usize) -> bool
        ensures { result ≡ marked self.now.heads at }
    {
        match self.heads.get(at) {
            Some(head) => *head,
            None => true,
        }
    }

    /// The state of a head, if it is reached.
    pub(crate) fn get(&self, at: usize) -> Option<&VState>
        ensures { option_copied result ≡ reached_in self.now.states at }
    {
        self.states.get(at)?.as_ref()
    }

    /// Reaches a head with a state, or raises it to that state.
    pub(crate) fn put(&mut self, at: usize, state: VState)
        requires inside { at < length self.old.states }
        requires head { IsTrue (marked self.old.heads at) }
        ensures { self.new
            ≡ record self.old { states = slice_set self.old.states at (Some state) } }
    {
        self.states[at] = Some(state);
    }

    /// The states of all heads that are reached. No other point has one.
    ///
    /// # Errors
    /// `NoMemory`, where memory runs out.
    pub(crate) fn all(&self, alloc: Global) -> Result<PointStates, NoMemory>
        ensures same { IfOk result (λ states. states ≡ self.now.states) }
        ensures hold { HoldHeads self.now.heads self.now.states }
    {
        let states = all_of(alloc, self.states.as_slice())?;
        Ok(PointStates::of(states))
    }
}

// The same states.
fn all_of(alloc: Global, states: &[Option<VState>]) -> Result<Vec<Option<VState>>, NoMemory>
    ensures { IfOk result (λ copies. copies.items ≡ states.now) }
{
    let mut copies = Vec::with_capacity(alloc, states.len())?;
    let mut number = 0;
    while let Some(state) = state_at(states, number) {
        let copy = copied(state)?;
        copies.push(copy)?;
        number += 1;
    }
    Ok(copies)
}

// The state of a point of a list, if there is such a point.
fn state_at(states: &[Option<VState>], at: usize) -> Option<&Option<VState>>
    ensures { option_copied result ≡ slice_get states.now at }
{
    states.get(at)
}

// The same state, if there is one.
fn copied(state: &Option<VState>) -> Result<Option<VState>, NoMemory>
    ensures { IfOk result (λ copy. copy ≡ state.now) }
{
    match state {
        Some(state) => {
            let copy = state.copy()?;
            Ok(Some(copy))
        }
        None => Ok(None),
    }
}
