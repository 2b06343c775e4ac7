//! The plans of the edges of a point, by edges of which those to handlers are shared.
ghost use Rattle.std.specs.Prelude.{◌≡◌, ◌≤◌, ℕ, None, Some, IfOk, OnOk, drop, length, slice_get};
ghost use Rattle.std.specs.BTreeMap.{get};
ghost use Rattle.std.specs.Option.{option_copied};
ghost use Rattle.std.specs.Ordering.{nat_cmp};
ghost use Rattle.flow_code.specs.FlatCode.{point_at};
ghost use Rattle.flow_code.specs.declared.point.Point.{Point};
ghost use Rattle.plan_flow.specs.Inner.Planning.{made_on as sites_made_on};
ghost use Rattle.plan_flow.specs.Inner.Reaching.{reached_in};
ghost use Rattle.plan_flow.specs.Inner.Sharing.{AreThrown, caught_plans, last_set, normal_one, or_no_edge, plans_of, put_set};
ghost use Rattle.plan_flow.specs.Narrow.{IsNarrow};

use crate::edge::Edge;
use crate::least::{edge_plans, made_on};
use crate::plan::{EdgePlans, ThrownPlan};
use crate::point_states::PointStates;
use crate::saving::is_normal;
use class_model::NoMemory;
use flow_code::Flat;
use std::alloc::Global;
use std::collections::BTreeMap;
use virtual_state::SiteSet;

/// The plans of the edges of a point, of which one stands for all to handlers that lead to one point.
///
/// # Errors
/// `NoMemory`, where memory runs out.
pub(crate) fn planned_edges(
    alloc: Global,
    flat: &Flat,
    at: usize,
    edges: &[Edge],
    states: &PointStates,
) -> Result<EdgePlans, NoMemory>
    requires { IsNarrow flat.now }
    ensures { IfOk result (λ plans. (point : Point)
        → point_at flat.now at ≡ Some point
        → plans ≡ plans_of (reached_in states.now) point.handlers edges.now) }
{
    let own = edge_plans(alloc, edges, states)?;
    let first = own.as_slice();
    let caught = edges_behind(edges, first.len());
    let thrown = thrown_plan(alloc, flat, at, caught, states)?;
    Ok(EdgePlans::of(own, thrown))
}

// The edges from a number on.
fn edges_behind(edges: &[Edge], first: usize) -> &[Edge]
    requires { first ≤ length edges.now }
    ensures { result.now ≡ drop first edges.now }
{
    &edges[first..]
}

/// The edge of a number, unless it leads to a handler.
pub(crate) fn own_edge(edges: &[Edge], number: usize) -> Option<&Edge>
    ensures { option_copied result ≡ normal_one (slice_get edges.now number) }
{
    let edge = edges.get(number)?;
    if is_normal(edge.by) { Some(edge) } else { None }
}

// The plans of the edges to handlers, if control may take them.
fn thrown_plan(
    alloc: Global,
    flat: &Flat,
    at: usize,
    edges: &[Edge],
    states: &PointStates,
) -> Result<Option<ThrownPlan>, NoMemory>
    requires { IsNarrow flat.now }
    ensures edges { IfOk result (λ thrown. (point : Point)
        → point_at flat.now at ≡ Some point
        → or_no_edge thrown ≡ caught_plans (reached_in states.now) point.handlers edges.now) }
    ensures thrown { IfOk result (λ thrown. AreThrown (or_no_edge thrown)) }
{
    if edges.is_empty() {
        return Ok(None);
    }
    let Some(handlers) = flat.handlers(at) else {
        return Ok(None);
    };
    let made = made_sets(alloc, edges, states)?;
    let shared = handlers.copy()?;
    Ok(Some(ThrownPlan::of(alloc, shared, made)))
}

// The sites whose objects are made on edges, by target, where there are some.
fn made_sets(
    alloc: Global,
    edges: &[Edge],
    states: &PointStates,
) -> Result<BTreeMap<usize, SiteSet>, NoMemory>
    ensures { IfOk result (λ made. (to : ℕ)
        → get nat_cmp made to ≡ last_set (reached_in states.now) edges.now to None) }
{
    let mut made = BTreeMap::new(alloc);
    let mut number = 0;
    while let Some(edge) = edges.get(number) {
        let sites = set_on(alloc, edge, states)?;
        put_made(&mut made, edge.to, sites)?;
        number += 1;
    }
    Ok(made)
}

// The sites whose objects are made on an edge.
fn set_on(alloc: Global, edge: &Edge, states: &PointStates) -> Result<SiteSet, NoMemory>
    ensures { IfOk result
        (λ sites. sites ≡ sites_made_on edge.now.state (reached_in states.now edge.now.to)) }
{
    let sites = made_on(alloc, &edge.state, states.get(edge.to))?;
    Ok(sites)
}

// Puts the sites whose objects are made on an edge to a point, if there are some.
fn put_made(made: &mut BTreeMap<usize, SiteSet>, to: usize, sites: SiteSet) -> Result<(), NoMemory>
    ensures { OnOk result ((at : ℕ)
        → get nat_cmp made.new at ≡ put_set to sites at (get nat_cmp made.old at)) }
{
    if sites.is_empty() {
        return Ok(());
    }
    made.insert(to, sites)?;
    Ok(())
}
