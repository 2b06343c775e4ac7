//! Plans of flat code.
ghost use Rattle.std.specs.Prelude.{◌≡◌, ◌<◌, ◌-◌, ◌^◌, ◌++◌, [], true, length, slice_get, option_and_then, option_map};
ghost use Rattle.std.specs.List.{find};
ghost use Rattle.std.specs.Option.{option_copied};
ghost use Rattle.plan_flow.specs.Inner.EdgeKinds.{AreMarked, begins_with_next, first_jump};
ghost use Rattle.plan_flow.specs.Inner.Sharing.{AreOwnOf, AreThrown, caught_made, made_in, or_no_edge};
ghost use Rattle.plan_flow.specs.PlanEdges.{made_edge_meant};
ghost use Rattle.plan_flow.specs.Plans.{planned};
ghost use Rattle.plan_flow.specs.Written.Routes.{is_kind};
ghost use Rattle.plan_flow.specs.declared.edge.EdgeKind.TheVariants as kinds;

use crate::edge::EdgeKind;
use flow_code::FlatHandlerList;
use std::alloc::Global;
use std::collections::BTreeMap;
use std::marker::Model;
use virtual_state::{SiteSet, VState};

/// An edge of a point that is reached, and the sites whose objects are made on it.
#[derive(Drop)]
pub(crate) struct EdgePlan {
    pub by: EdgeKind,
    pub to: usize,
    pub made: SiteSet,
}

impl Model for EdgePlan {
    ghost use Rattle.plan_flow.specs.Plans.{MadeEdge};

    ghost Value = { MadeEdge };

    ghost view = { λ edge. record { by = edge.by; to = edge.to; made = edge.made } };
}

/// An edge of a point that is reached, borrowed from a plan: how control takes it, the point that it leads to, and the sites
/// whose objects are made on it.
#[derive(Clone, Copy)]
pub struct PlanEdge<'p> {
    pub by: EdgeKind,
    pub to: usize,
    pub made: &'p SiteSet,
}

/// The edges of a point to its handlers: the handlers, which points share, and by target the sites whose objects are made on
/// the edges to it, where there are some. Contracts see the edges.
#[derive(Drop)]
pub(crate) struct ThrownPlan {
    handlers: FlatHandlerList,
    made: BTreeMap<usize, SiteSet>,
    none: SiteSet,
}

impl Model for ThrownPlan {
    ghost use Rattle.std.specs.Prelude.{◌≡◌, ◌<◌, ◌^◌, List, [], length};
    ghost use Rattle.plan_flow.specs.Inner.Sharing.{caught_made, made_in};
    ghost use Rattle.plan_flow.specs.Plans.{MadeEdge};

    ghost Value = { List MadeEdge };

    ghost view = { λ thrown. caught_made (made_in thrown.made) 0 thrown.handlers };

    ghost invariant = { λ thrown. (thrown.none ≡ []) × (length thrown.handlers < 2 ^ 32) };
}

impl ThrownPlan {
    /// The edges to these handlers, on which these objects are made.
    pub(crate) fn of(
        alloc: Global,
        handlers: FlatHandlerList,
        made: BTreeMap<usize, SiteSet>,
    ) -> Self
        requires { length handlers < 2 ^ 32 }
        ensures edges { result ≡ caught_made (made_in made) 0 handlers }
        ensures thrown { AreThrown result }
    {
        ThrownPlan {
            handlers,
            made,
            none: SiteSet::new(alloc),
        }
    }

    // The edge of a number, if there is one.
    fn get(&self, number: usize) -> Option<PlanEdge<'_>>
        ensures { option_map made_edge_meant result ≡ slice_get self.now number }
    {
        let Some(handler) = self.handlers.get(number) else {
            return None;
        };
        Some(PlanEdge {
            by: EdgeKind::Handler(short(number)),
            to: handler.to,
            made: made_for(&self.made, &self.none, handler.to),
        })
    }

    // The edge of a kind, if there is one.
    fn by_kind(&self, by: EdgeKind) -> Option<PlanEdge<'_>>
        ensures { option_map made_edge_meant result ≡ find (λ edge. is_kind edge.by by) self.now }
    {
        let _ = &self.handlers;
        match by {
            EdgeKind::Handler(number) => self.get(number as usize),
            EdgeKind::Next => None,
            EdgeKind::Jump(_) => None,
        }
    }
}

// A number of 32 bits.
fn short(number: usize) -> u32
    requires { number < 2 ^ 32 }
    ensures { result ≡ number }
{
    number as u32
}

// The sites for a target, or none.
fn made_for<'p>(made: &'p BTreeMap<usize, SiteSet>, none: &'p SiteSet, to: usize) -> &'p SiteSet
    requires { none.now ≡ [] }
    ensures { result.now ≡ made_in made.now to }
{
    match made.get(&to) {
        Some(sites) => sites,
        None => none,
    }
}

/// The edges of a point that is reached, those to handlers apart from the others, of which it is known whether they are counted:
/// first the one to the next point, if there is one, and then those to targets, from target 0 on. Contracts see all, in order.
#[derive(Drop)]
pub(crate) struct EdgePlans {
    own: Vec<EdgePlan>,
    counted: bool,
    thrown: Option<ThrownPlan>,
}

impl Model for EdgePlans {
    ghost use Rattle.std.specs.Prelude.{◌++◌, List};
    ghost use Rattle.plan_flow.specs.Inner.EdgeKinds.{AreMarked};
    ghost use Rattle.plan_flow.specs.Inner.Sharing.{AreThrown, or_no_edge};
    ghost use Rattle.plan_flow.specs.Plans.{MadeEdge};

    ghost Value = { List MadeEdge };

    ghost view = { λ edges. edges.own.items ++ or_no_edge edges.thrown };

    ghost invariant = { λ edges.
        AreThrown (or_no_edge edges.thrown) × AreMarked edges.counted edges.own.items };
}

impl EdgePlans {
    /// These edges, and behind them those to handlers, if there are any.
    pub(crate) fn of(own: Vec<EdgePlan>, thrown: Option<ThrownPlan>) -> Self
        requires { AreThrown (or_no_edge thrown) }
        ensures { result ≡ own.items ++ or_no_edge thrown }
    {
        let counted = are_counted(own.as_slice());
        EdgePlans {
            own,
            counted,
            thrown,
        }
    }

    /// The edge of a number, if there is one.
    pub(crate) fn get(&self, number: usize) -> Option<PlanEdge<'_>>
        ensures { option_map made_edge_meant result ≡ slice_get self.now number }
    {
        let own = self.own.as_slice();
        match own_at(own, number) {
            Some(edge) => Some(edge),
            None => thrown_at(&self.thrown, behind(number, own.len())),
        }
    }

    /// The edge of a kind, if there is one: by its number, unless those before it are not counted.
    fn by_kind(&self, by: EdgeKind) -> Option<PlanEdge<'_>>
        ensures { option_map made_edge_meant result ≡ find (λ edge. is_kind edge.by by) self.now }
    {
        match own_by(self.own.as_slice(), self.counted, by) {
            Some(edge) => Some(edge),
            None => thrown_by(&self.thrown, by),
        }
    }

    /// Those that do not lead to handlers.
    pub(crate) fn own(&self) -> &[EdgePlan]
        ensures { AreOwnOf result.now self.now }
    {
        self.own.as_slice()
    }
}

// The edge of a number, if there is one.
fn own_at(edges: &[EdgePlan], number: usize) -> Option<PlanEdge<'_>>
    ensures { option_map made_edge_meant result ≡ slice_get edges.now number }
{
    let edge = edges.get(number)?;
    Some(PlanEdge {
        by: edge.by,
        to: edge.to,
        made: &edge.made,
    })
}

// The edge of a kind, if there is one, of edges of which it is known whether they are counted.
fn own_by(edges: &[EdgePlan], counted: bool, by: EdgeKind) -> Option<PlanEdge<'_>>
    requires { AreMarked counted edges.now }
    ensures { option_map made_edge_meant result ≡ find (λ edge. is_kind edge.by by) edges.now }
{
    if counted {
        counted_by(edges, by)
    } else {
        first_by(edges, by)
    }
}

// The edge of a kind, if there is one, of edges that are counted.
fn counted_by(edges: &[EdgePlan], by: EdgeKind) -> Option<PlanEdge<'_>>
    requires { AreMarked true edges.now }
    ensures { option_map made_edge_meant result ≡ find (λ edge. is_kind edge.by by) edges.now }
{
    let falls = begins_with_next(edges);
    match by {
        EdgeKind::Next => { if falls { own_at(edges, 0) } else { None } }
        EdgeKind::Jump(number) => {
            let at = first_jump(falls) + number as usize;
            own_at(edges, at)
        }
        EdgeKind::Handler(_) => None,
    }
}

// The first edge of a kind, if there is one.
fn first_by(edges: &[EdgePlan], by: EdgeKind) -> Option<PlanEdge<'_>>
    ensures { option_map made_edge_meant result ≡ find (λ edge. is_kind edge.by by) edges.now }
{
    let mut number = 0;
    while let Some(edge) = own_at(edges, number) {
        if is_kind(edge.by, by) {
            return Some(edge);
        }
        number += 1;
    }
    None
}

// Whether edges are counted.
fn are_counted(edges: &[EdgePlan]) -> bool
    ensures { AreMarked result edges.now }
{
    let first = first_jump(begins_with_next(edges));
    let mut at = first;
    while let Some(edge) = own_at(edges, at) {
        if !is_jump(edge.by, behind(at, first)) {
            return false;
        }
        at += 1;
    }
    true
}

// Whether the first edge is the one to the next point.
fn begins_with_next(edges: &[EdgePlan]) -> bool
    ensures { result ≡ begins_with_next edges.now }
{
    match own_at(edges, 0) {
        Some(edge) => is_kind(edge.by, EdgeKind::Next),
        None => false,
    }
}

// The number of the first edge to a target.
fn first_jump(falls: bool) -> usize
    ensures { result ≡ first_jump falls }
{
    if falls { 1 } else { 0 }
}

// Whether an edge leads to the target of a number.
fn is_jump(by: EdgeKind, number: usize) -> bool
    ensures { result ≡ is_kind by (kinds.Jump number) }
{
    match by {
        EdgeKind::Jump(target) => target as usize == number,
        EdgeKind::Next | EdgeKind::Handler(_) => false,
    }
}

// Whether two edges are of one kind.
fn is_kind(one: EdgeKind, other: EdgeKind) -> bool
    ensures { result ≡ is_kind one other }
{
    match one {
        EdgeKind::Next => matches!(other, EdgeKind::Next),
        EdgeKind::Jump(number) => match other {
            EdgeKind::Jump(also) => number == also,
            EdgeKind::Next | EdgeKind::Handler(_) => false,
        },
        EdgeKind::Handler(number) => match other {
            EdgeKind::Handler(also) => number == also,
            EdgeKind::Next | EdgeKind::Jump(_) => false,
        },
    }
}

// The number of an edge behind so many others.
fn behind(number: usize, count: usize) -> usize
    ensures { result ≡ number - count }
{
    number.saturating_sub(count)
}

// The edge to a handler of a number, if there is one.
fn thrown_at(thrown: &Option<ThrownPlan>, number: usize) -> Option<PlanEdge<'_>>
    ensures { option_map made_edge_meant result ≡ slice_get (or_no_edge thrown.now) number }
{
    match thrown {
        Some(plan) => plan.get(number),
        None => None,
    }
}

// The edge of a kind to a handler, if there is one.
fn thrown_by(thrown: &Option<ThrownPlan>, by: EdgeKind) -> Option<PlanEdge<'_>>
    ensures { option_map made_edge_meant result
        ≡ find (λ edge. is_kind edge.by by) (or_no_edge thrown.now) }
{
    match thrown {
        Some(plan) => plan.by_kind(by),
        None => None,
    }
}

/// A point that is reached: the state before it, the sites whose objects are made before its instruction, and its edges.
#[derive(Drop)]
pub(crate) struct PointPlan {
    pub state: VState,
    pub made: SiteSet,
    pub edges: EdgePlans,
}

impl Model for PointPlan {
    ghost use Rattle.plan_flow.specs.Plans.{PlannedPoint};

    ghost Value = { PlannedPoint };

    ghost view = { λ point.
        record { state = point.state; made = point.made; edges = point.edges } };
}

/// Which points of flat code are reached, with which states, and which objects are made where.
#[derive(Drop)]
pub struct Plan {
    points: Vec<Option<PointPlan>>,
}

impl Model for Plan {
    ghost use Rattle.plan_flow.specs.Plans.{Plan as PlanOf};

    ghost Value = { PlanOf };

    ghost view = { λ plan. plan.points.items };
}

impl Plan {
    /// The plan of these points.
    pub(crate) fn of(points: Vec<Option<PointPlan>>) -> Self
        ensures { result ≡ points.items }
    {
        Plan { points }
    }

    /// The sites whose objects are made before the instruction of a point, if it is reached.
    pub fn made_at(&self, at: usize) -> Option<&SiteSet>
        ensures { option_copied result ≡ option_map (λ point. point.made) (planned self.now at) }
    {
        Some(&self.point(at)?.made)
    }

    /// The state before a point, if it is reached.
    pub fn state(&self, at: usize) -> Option<&VState>
        ensures { option_copied result ≡ option_map (λ point. point.state) (planned self.now at) }
    {
        Some(&self.point(at)?.state)
    }

    /// The sites whose objects are made on an edge of a point, if the point is reached and has such an edge. `edge` is the
    /// edge's number, counted from 0 among the edges that `effect` gives in the state without the sites of `made_at`.
    pub fn made_on(&self, at: usize, edge: usize) -> Option<&SiteSet>
        ensures { option_copied result
            ≡ option_map (λ edge. edge.made)
            (option_and_then (λ point. slice_get point.edges edge) (planned self.now at)) }
    {
        Some(self.edge(at, edge)?.made)
    }

    /// An edge of a point, if the point is reached and has such an edge, by the number that `made_on` takes.
    pub fn edge(&self, at: usize, number: usize) -> Option<PlanEdge<'_>>
        ensures { option_map made_edge_meant result
            ≡ option_and_then (λ point. slice_get point.edges number) (planned self.now at) }
    {
        self.point(at)?.edges.get(number)
    }

    /// The edge of a kind of a point, if the point is reached and control may take such an edge there. It takes constant time.
    pub fn edge_by(&self, at: usize, by: EdgeKind) -> Option<PlanEdge<'_>>
        ensures { option_map made_edge_meant result
            ≡ option_and_then (λ point. find (λ edge. is_kind edge.by by) point.edges)
            (planned self.now at) }
    {
        self.point(at)?.edges.by_kind(by)
    }

    /// What is planned for a point, if it is reached.
    pub(crate) fn point(&self, at: usize) -> Option<&PointPlan>
        ensures { option_copied result ≡ planned self.now at }
    {
        self.points.get(at)?.as_ref()
    }
}
