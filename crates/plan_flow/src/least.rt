//! The least plan of flat code.
ghost use Rattle.std.specs.Prelude.{◌≡◌, ◌++◌, ◌+◌, ◌<◌, ◌∷◌, [], IfOk, OnOk, length};
ghost use Rattle.std.specs.Option.{option_copied};
ghost use Rattle.class_tree.specs.Headers.{Classes, headers_of};
ghost use Rattle.member_link.specs.Machine.Links.{AreLinksOf};
ghost use Rattle.member_link.specs.Machine.Programs.{Links};
ghost use Rattle.plan_flow.specs.Inner.Blocks.{AreHeads, AreReachingBy, IsKnownTo};
ghost use Rattle.plan_flow.specs.Inner.Planning.{IsPlanOf, made_edge, made_edges, made_on as sites_made_on};
ghost use Rattle.plan_flow.specs.Inner.Reaching.{reached_in};
ghost use Rattle.plan_flow.specs.Inner.Sharing.{AreTargets, own_part};
ghost use Rattle.plan_flow.specs.Narrow.{IsNarrow};
ghost use Rattle.plan_flow.specs.PlanScope.{scope_of};
ghost use Rattle.plan_flow.specs.PlanSlots.{fit_locals, fit_stack};
ghost use Rattle.plan_flow.specs.Plans.{FlowsInside, IsLeast};
ghost use Rattle.virtual_state.specs.Sites.{differing as differing_sites};

use crate::blocks::state_inside;
use crate::edge::Edge;
use crate::effects::shared_effect;
use crate::handler_targets::HandlerTargets;
use crate::head_states::HeadStates;
use crate::heads::heads_of;
use crate::iteration::iterate;
use crate::plan::{EdgePlan, Plan, PointPlan};
use crate::planned_edges::{own_edge, planned_edges};
use crate::point_states::PointStates;
use crate::settling::settled;
use crate::slots::fitted;
use crate::work_list::WorkList;
use class_model::{Frame, ListOf, NoMemory};
use class_tree::Tree;
use flow_code::Flat;
use member_link::a_tree_has_links;
use std::alloc::Global;
use virtual_state::{SiteSet, VState, differing};

/// The least plan of flat code that control does not leave: each other valid plan makes an object wherever this one does, or
/// earlier. Takes the heads of blocks off a work list, pass after pass by increasing number, goes through their blocks and raises
/// the states of the heads behind them, until each edge leads to its target (the iteration of partial escape analysis, CGO 2014,
/// over a work list in place of a walk over the control flow). Then goes through each block once more, to give each point its
/// state.
///
/// # Errors
/// `NoMemory`, where memory runs out.
pub fn least_plan(alloc: Global, tree: &Tree, flat: &Flat) -> Result<Plan, NoMemory>
    requires narrow { IsNarrow flat.now }
    requires flows { FlowsInside flat.now }
    ensures { IfOk result (λ plan. (links : Links)
        → AreLinksOf (headers_of tree.now) links
        → IsLeast (scope_of tree.now links flat.now) plan) }
{
    let targets = HandlerTargets::of(alloc, flat)?;
    let mut heads = start(alloc, flat, &targets)?;
    let mut work = WorkList::new(alloc);
    work.add(0)?;
    iterate(alloc, tree, flat, &targets, &mut heads, &mut work)?;
    let plan = plan_of(alloc, tree, flat, &targets, &heads)?;
    Ok(plan)
}

// The states of heads where point 0 alone is reached, with no site.
fn start(alloc: Global, flat: &Flat, targets: &HandlerTargets) -> Result<HeadStates, NoMemory>
    requires narrow { IsNarrow flat.now }
    requires flows { FlowsInside flat.now }
    requires targets { AreTargets flat.now targets.now }
    ensures { IfOk result (λ table. (classes : Classes)
        → AreReachingBy classes flat.now table (0 ∷ [])) }
{
    let heads = heads_of(alloc, flat, targets)?;
    let mut states = HeadStates::new(alloc, heads)?;
    if let Some(types) = flat.typed(0) {
        let state = blank_state(alloc, types)?;
        states.put(0, state);
    }
    Ok(states)
}

// The state of a point with these types that has no site.
fn blank_state(alloc: Global, types: &Frame) -> Result<VState, NoMemory>
    ensures { IfOk result (λ state.
        state
        ≡ record {
          slots = fit_locals types.now.locals [] ++ fit_stack types.now.stack [];
          objects = [];
        }) }
{
    let slots = fitted(alloc, &[], &[], types)?;
    let state = VState::of(alloc, slots, ListOf::new(alloc))?;
    state.is_state();
    Ok(state)
}

// The plan that the states of heads give. Goes through each block once.
fn plan_of(
    alloc: Global,
    tree: &Tree,
    flat: &Flat,
    targets: &HandlerTargets,
    heads: &HeadStates,
) -> Result<Plan, NoMemory>
    requires narrow { IsNarrow flat.now }
    requires targets { AreTargets flat.now targets.now }
    requires reaching { AreReachingBy tree.now flat.now heads.now [] }
    ensures { IfOk result (λ plan. (links : Links)
        → AreLinksOf (headers_of tree.now) links
        → IsLeast (scope_of tree.now links flat.now) plan) }
{
    a_tree_has_links(tree);
    let mut states = heads.all(alloc)?;
    let mut points = Vec::with_capacity(alloc, flat.len())?;
    for at in 0..flat.len() {
        let plan = point_plan(alloc, tree, flat, targets, heads, at, &mut states)?;
        points.push(plan)?;
    }
    Ok(Plan::of(points))
}

// The plan of a point, if it is reached. The state of the next point is known then.
fn point_plan(
    alloc: Global,
    tree: &Tree,
    flat: &Flat,
    targets: &HandlerTargets,
    heads: &HeadStates,
    at: usize,
    states: &mut PointStates,
) -> Result<Option<PointPlan>, NoMemory>
    requires narrow { IsNarrow flat.now }
    requires targets { AreTargets flat.now targets.now }
    requires inside { at < length flat.now.points }
    requires heads { AreHeads flat.now heads.now.heads }
    requires known { IsKnownTo tree.now flat.now heads.now at states.old }
    ensures known { OnOk result (IsKnownTo tree.now flat.now heads.now (at + 1) states.new) }
    ensures plan { IfOk result (λ plan. (all : AreReachingBy tree.now flat.now heads.now [])
        (links : Links)
        → AreLinksOf (headers_of tree.now) links
        → IsPlanOf (scope_of tree.now links flat.now) (reached_in all.states) at plan) }
{
    let _end = flat.len();
    a_tree_has_links(tree);
    let Some(state) = states.get(at) else {
        return Ok(None);
    };
    let left = settled(alloc, tree, flat, at, state)?;
    left.is_state();
    let made = made_between(alloc, state, &left)?;
    let state = state.copy()?;
    let edges = shared_effect(alloc, tree, flat, targets, at, &left)?;
    let inner = state_inside(alloc, flat, heads, at + 1, edges.as_slice())?;
    states.put(at + 1, inner);
    let edges = planned_edges(alloc, flat, at, edges.as_slice(), states)?;
    Ok(Some(PointPlan { state, made, edges }))
}

/// The plans of the edges that do not lead to handlers, which are the first.
///
/// # Errors
/// `NoMemory`, where memory runs out.
pub(crate) fn edge_plans(
    alloc: Global,
    edges: &[Edge],
    states: &PointStates,
) -> Result<Vec<EdgePlan>, NoMemory>
    ensures { IfOk result
        (λ plans. plans.items ≡ made_edges (reached_in states.now) (own_part edges.now)) }
{
    let mut plans = Vec::new(alloc);
    let mut number = 0;
    while let Some(edge) = own_edge(edges, number) {
        plans.push(edge_plan(alloc, edge, states)?)?;
        number += 1;
    }
    Ok(plans)
}

// The plan of an edge.
fn edge_plan(alloc: Global, edge: &Edge, states: &PointStates) -> Result<EdgePlan, NoMemory>
    ensures { IfOk result (λ plan. plan ≡ made_edge (reached_in states.now) edge.now) }
{
    let made = made_on(alloc, &edge.state, states.get(edge.to))?;
    Ok(EdgePlan {
        by: edge.by,
        to: edge.to,
        made,
    })
}

/// The sites whose objects are made on an edge to a target, if that is reached.
///
/// # Errors
/// `NoMemory`, where memory runs out.
pub(crate) fn made_on(
    alloc: Global,
    behind: &VState,
    target: Option<&VState>,
) -> Result<SiteSet, NoMemory>
    ensures { IfOk result
        (λ sites. sites ≡ sites_made_on behind.now (option_copied target.entry)) }
{
    match target {
        Some(target) => made_between(alloc, behind, target),
        None => Ok(SiteSet::new(alloc)),
    }
}

// The sites of a state that another one does not have.
fn made_between(alloc: Global, state: &VState, other: &VState) -> Result<SiteSet, NoMemory>
    ensures { IfOk result (λ sites. sites ≡ differing_sites state.now other.now) }
{
    state.is_state();
    let sites = differing(alloc, state, other)?;
    let _order = sites.as_slice();
    Ok(sites)
}
