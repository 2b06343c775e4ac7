//! Blocks of flat code: from the state of a head to the edges behind the last point of its block.
ghost use Rattle.std.specs.Prelude.{◌≡◌, ◌<◌, ◌∷◌, ℕ, List, IfOk, length, Some};
ghost use Rattle.plan_flow.specs.Inner.Blocks.{AreEdgesAt, AreHeads, AreReachingBy, IsBlockWalked, IsStateInside};
ghost use Rattle.plan_flow.specs.Inner.Reaching.{reached_in};
ghost use Rattle.plan_flow.specs.Inner.Sharing.{AreTargets};
ghost use Rattle.plan_flow.specs.Narrow.{IsNarrow};
ghost use Rattle.plan_flow.specs.Plans.{FlowsInside};

use crate::edge::{Edge, EdgeList};
use crate::effects::shared_effect;
use crate::handler_targets::HandlerTargets;
use crate::head_states::HeadStates;
use crate::settling::settled;
use crate::targets::cleaned;
use class_model::NoMemory;
use class_tree::Tree;
use flow_code::Flat;
use member_link::a_tree_has_links;
use std::alloc::Global;
use virtual_state::VState;

/// The edges behind the last point of the block of a head that has a state.
///
/// # Errors
/// `NoMemory`, where memory runs out.
pub(crate) fn edges_behind(
    alloc: Global,
    tree: &Tree,
    flat: &Flat,
    targets: &HandlerTargets,
    states: &HeadStates,
    at: usize,
    state: &VState,
) -> Result<EdgeList, NoMemory>
    requires narrow { IsNarrow flat.now }
    requires flows { FlowsInside flat.now }
    requires targets { AreTargets flat.now targets.now }
    requires heads { AreHeads flat.now states.now.heads }
    requires inside { at < length flat.now.points }
    ensures { IfOk result (λ edges. (work : List ℕ)
        (all : AreReachingBy tree.now flat.now states.now (at ∷ work))
        → reached_in all.states at ≡ Some state.now
        → IsBlockWalked tree.now flat.now targets.now states.now work edges) }
{
    let _end = flat.len();
    a_tree_has_links(tree);
    let mut edges = edges_at(alloc, tree, flat, targets, at, state)?;
    for next in at + 1..flat.len() {
        let Some(inner) = state_inside(alloc, flat, states, next, edges.as_slice())? else {
            return Ok(edges);
        };
        edges = edges_at(alloc, tree, flat, targets, next, &inner)?;
    }
    Ok(edges)
}

// The edges of a point that has a state, when what it asks for is made.
fn edges_at(
    alloc: Global,
    tree: &Tree,
    flat: &Flat,
    targets: &HandlerTargets,
    at: usize,
    state: &VState,
) -> Result<EdgeList, NoMemory>
    requires narrow { IsNarrow flat.now }
    ensures { IfOk result
        (λ edges. AreEdgesAt tree.now flat.now targets.now at state.now edges) }
{
    let left = settled(alloc, tree, flat, at, state)?;
    let edges = shared_effect(alloc, tree, flat, targets, at, &left)?;
    left.is_state();
    Ok(edges)
}

/// The state of a point by the edges of the point before, if it is inside a block: the only one of them leads to it.
///
/// # Errors
/// `NoMemory`, where memory runs out.
pub(crate) fn state_inside(
    alloc: Global,
    flat: &Flat,
    states: &HeadStates,
    at: usize,
    edges: &[Edge],
) -> Result<Option<VState>, NoMemory>
    ensures { IfOk result
        (λ state. IsStateInside flat.now states.now.heads at edges.now state) }
{
    if states.is_head(at) {
        return Ok(None);
    }
    let Some(edge) = edges.get(0) else {
        return Ok(None);
    };
    let behind = edge.state.copy()?;
    let state = cleaned(alloc, flat, at, behind)?;
    Ok(Some(state))
}
