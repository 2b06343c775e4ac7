//! The states of the heads of blocks are raised until each edge leads to its target: an iteration over a work list of heads (after
//! Kildall, "A Unified Approach to Global Program Optimization", 1973).
ghost use Rattle.std.specs.Prelude.{◌∷◌, ◌↔◌, [], List, Option, IfOk, OnOk, IsTrue};
ghost use Rattle.plan_flow.specs.Inner.Blocks.{AreFollowedBy, AreReachingBy, AreStartedBy, CanBeFollowed, IsAdvanced, IsVisited};
ghost use Rattle.plan_flow.specs.Inner.Reaching.{LeadsIn, reached_in};
ghost use Rattle.plan_flow.specs.Inner.Sharing.{AreTargets};
ghost use Rattle.plan_flow.specs.Narrow.{IsNarrow};
ghost use Rattle.plan_flow.specs.Plans.{FlowsInside};
ghost use Rattle.virtual_state.specs.States.{State};

use crate::blocks::edges_behind;
use crate::edge::Edge;
use crate::handler_targets::HandlerTargets;
use crate::head_states::HeadStates;
use crate::targets::raised;
use crate::work_list::WorkList;
use class_model::NoMemory;
use class_tree::Tree;
use flow_code::Flat;
use member_link::a_tree_has_links;
use std::alloc::Global;
use virtual_state::below;

/// Raises the states of heads until each edge leads to its target.
///
/// # Errors
/// `NoMemory`, where memory runs out.
pub(crate) fn iterate(
    alloc: Global,
    tree: &Tree,
    flat: &Flat,
    targets: &HandlerTargets,
    states: &mut HeadStates,
    work: &mut WorkList,
) -> Result<(), NoMemory>
    requires narrow { IsNarrow flat.now }
    requires flows { FlowsInside flat.now }
    requires targets { AreTargets flat.now targets.now }
    requires reaching { AreReachingBy tree.now flat.now states.old work.old }
    ensures { OnOk result (AreReachingBy tree.now flat.now states.new []) }
{
    let mut more = true;
    while more {
        more = advance(alloc, tree, flat, targets, states, work)?;
    }
    Ok(())
}

// Visits heads until one is reached for the first time, or until none is left.
fn advance(
    alloc: Global,
    tree: &Tree,
    flat: &Flat,
    targets: &HandlerTargets,
    states: &mut HeadStates,
    work: &mut WorkList,
) -> Result<bool, NoMemory>
    requires narrow { IsNarrow flat.now }
    requires flows { FlowsInside flat.now }
    requires targets { AreTargets flat.now targets.now }
    requires reaching { AreReachingBy tree.now flat.now states.old work.old }
    ensures { IfOk result
        (λ more. IsAdvanced tree.now flat.now states.old states.new work.new more) }
{
    while let Some(at) = work.take() {
        if visit(alloc, tree, flat, targets, at, states, work)? {
            return Ok(true);
        }
    }
    Ok(false)
}

// Follows the edges behind the block of a head. Whether it reaches a head for the first time.
fn visit(
    alloc: Global,
    tree: &Tree,
    flat: &Flat,
    targets: &HandlerTargets,
    at: usize,
    states: &mut HeadStates,
    work: &mut WorkList,
) -> Result<bool, NoMemory>
    requires narrow { IsNarrow flat.now }
    requires flows { FlowsInside flat.now }
    requires targets { AreTargets flat.now targets.now }
    requires reaching { AreReachingBy tree.now flat.now states.old (at ∷ work.old) }
    ensures { IfOk result
        (λ new. IsVisited tree.now flat.now states.old states.new work.old work.new new) }
{
    let Some(state) = states.get(at) else {
        return Ok(false);
    };
    let _end = flat.len();
    a_tree_has_links(tree);
    let edges = edges_behind(alloc, tree, flat, targets, states, at, state)?;
    let new = follow_all(alloc, tree, flat, edges.as_slice(), states, work)?;
    Ok(new)
}

// Follows edges, in order. Whether one reaches a head for the first time.
fn follow_all(
    alloc: Global,
    tree: &Tree,
    flat: &Flat,
    edges: &[Edge],
    states: &mut HeadStates,
    work: &mut WorkList,
) -> Result<bool, NoMemory>
    requires start { CanBeFollowed tree.now flat.now states.old edges.now }
    ensures { IfOk result (λ new. (all : List (Option State))
        → AreStartedBy tree.now flat.now states.old all edges.now
        → AreFollowedBy tree.now flat.now states.old states.new all work.old work.new edges.now
        new) }
{
    let mut new = false;
    let mut number = 0;
    while let Some(edge) = edges.get(number) {
        if follow(alloc, tree, flat, edge, states, work)? {
            new = true;
        }
        number += 1;
    }
    Ok(new)
}

// Reaches the head to which an edge leads, or raises its state, unless the edge leads there already. Whether the target is reached for the
// first time.
fn follow(
    alloc: Global,
    tree: &Tree,
    flat: &Flat,
    edge: &Edge,
    states: &mut HeadStates,
    work: &mut WorkList,
) -> Result<bool, NoMemory>
    requires start { CanBeFollowed tree.now flat.now states.old (edge.now ∷ []) }
    ensures { IfOk result (λ new. (all : List (Option State))
        → AreStartedBy tree.now flat.now states.old all (edge.now ∷ [])
        → AreFollowedBy tree.now flat.now states.old states.new all work.old work.new
        (edge.now ∷ []) new) }
{
    a_tree_has_links(tree);
    if leads(states, edge) {
        return Ok(false);
    }
    let old = states.get(edge.to);
    let new = old.is_none();
    let above = raised(alloc, flat, edge.to, &edge.state, old)?;
    work.add(edge.to)?;
    states.put(edge.to, above);
    Ok(new)
}

// Whether an edge leads to its target.
fn leads(states: &HeadStates, edge: &Edge) -> bool
    ensures { IsTrue result ↔ LeadsIn (reached_in states.now.states) edge.now.to edge.now.state }
{
    match states.get(edge.to) {
        Some(state) => below(&edge.state, state),
        None => false,
    }
}
